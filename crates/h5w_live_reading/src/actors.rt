//! The readers of a run: each makes its calls through a seat of its own, in a thread of its own.
ghost use Rattle.std.specs.Prelude.{◌≡◌, ℕ, ◌+◌, ◌<◌, ◌≤◌, All, List, [], vec_len};
ghost use Rattle.std.specs.Thread.{IsSync};
ghost use Rattle.h5w_model.specs.Unfinished.{ReaderRules};
ghost use Rattle.h5w_model.specs.declared.piece.Write.{Write};
ghost use Rattle.h5w_reader.specs.Readers.{reader_rules};
ghost use Rattle.h5w_shared.specs.Seats.{ImageId, SeatView};
ghost use Rattle.h5w_live_reading.specs.Ends.{ReaderEnds, ReadersEnd};
ghost use Rattle.h5w_live_reading.specs.Seats.{AreSeated, ReadersLeave, rules_of};

use crate::reading::{Stop, polls};
use h5w_image::Gate;
use h5w_model::PollLine;
use h5w_shared::{Note, ReaderSeat, SharedImage, Worn};
use std::alloc::Global;
use std::sync::Wait;
use std::thread::{Threads, join};

/// Which calls a reader makes: all of the dataset of this name, so many, each with so many attempts at most.
#[derive(Clone, Copy)]
pub struct Calls<'a> {
    pub name: &'a [u8],
    pub attempts: u32,
    pub count: u32,
}

impl<'a> Calls<'a> {
    /// So many calls, each with so many attempts at most, of the dataset of this name.
    pub fn new(name: &'a [u8], attempts: u32, count: u32) -> Calls<'a>
        ensures { result ≡ record { name = name.entry; attempts = attempts; count = count } }
    {
        Calls {
            name,
            attempts,
            count,
        }
    }

    /// The name, how many attempts, and how many calls.
    pub fn into_parts(self) -> (&'a [u8], u32, u32)
        ensures { record { name = result.0; attempts = result.1; count = result.2 } ≡ self.entry }
    {
        (self.name, self.attempts, self.count)
    }
}

/// The readers of an image that have their seats, and how many readers are numbered before them.
#[derive(Drop)]
pub struct Seated<'a> {
    pub image: &'a SharedImage,
    pub seats: Vec<ReaderSeat>,
    pub before: u32,
}

impl<'a> Seated<'a> {
    /// The readers of this image that have these seats, behind so many others.
    pub fn new(image: &'a SharedImage, seats: Vec<ReaderSeat>, before: u32) -> Seated<'a>
        ensures { result ≡ record { image = image.entry; seats = seats; before = before } }
    {
        Seated {
            image,
            seats,
            before,
        }
    }

    /// The image, the seats, and how many readers are numbered before.
    pub fn into_parts(self) -> (&'a SharedImage, Vec<ReaderSeat>, u32)
        ensures { record { image = result.0; seats = result.1; before = result.2 } ≡ self.entry }
    {
        let Seated {
            image,
            seats,
            before,
        } = self;
        (image, seats, before)
    }
}

/// The lines of a reader's calls, and a note of what its seat had seen in the end.
#[derive(Drop)]
pub struct Ended {
    pub lines: Vec<PollLine>,
    pub note: Note,
}

/// The lines of the first readers, reader after reader, and their notes.
#[derive(Drop)]
pub struct AllEnded {
    pub lines: Vec<PollLine>,
    pub notes: Vec<Note>,
}

/// Why a reader ended before its last call.
#[derive(Drop)]
pub enum Cut {
    /// Its seat was shown the ticket word at 2^63.
    Failed(Worn),
    OutOfMemory,
    /// A call was refused as none is over the log of a writer. The note is of what its seat had seen then.
    Stray(Note),
}

/// All calls of one reader.
fn read<R: Wait, G: Gate>(
    rt: &R,
    alloc: Global,
    image: &SharedImage,
    mut seat: ReaderSeat,
    calls: Calls<'_>,
    reader: u32,
    gate: &G,
) -> Result<Ended, Cut>
    requires image { seat.image ≡ image.now }
    ensures { ReaderEnds (rules_of calls.entry) image.now calls.entry.count reader seat.seen result }
{
    match polls(rt, alloc, image, &mut seat, calls, reader, gate) {
        Ok(lines) => Ok(Ended {
            lines,
            note: seat.note(image),
        }),
        Err(Stop::Stray) => Err(Cut::Stray(seat.note(image))),
        Err(Stop::OutOfMemory) => Err(Cut::OutOfMemory),
        Err(Stop::Failed) => match seat.worn() {
            Ok(worn) => Err(Cut::Failed(worn)),
            Err(_) => unreachable!(),
        },
    }
}

/// The number of the reader behind so many, and behind others of the same image.
fn number(before: u32, others: usize) -> u32
    requires { before + others < 32 }
    ensures { result ≡ before + others + 1 }
{
    before + others as u32 + 1
}

/// None of no readers.
fn none(alloc: Global) -> AllEnded
    ensures lines { result.lines.items ≡ [] }
    ensures notes { result.notes.items ≡ [] }
{
    AllEnded {
        lines: Vec::new(alloc),
        notes: Vec::new(alloc),
    }
}

/// What came of some readers, and of the one behind them.
fn and_one(others: Result<AllEnded, Cut>, last: Result<Ended, Cut>) -> Result<AllEnded, Cut>
    ensures { (g : ReaderRules) (i : ImageId) (before calls readers : ℕ) (seen : List Write) → ReadersEnd g i before calls readers seen others
        → ReaderEnds g i calls (before + readers + 1) seen last → ReadersEnd g i before calls (readers + 1) seen result }
{
    let mut all = match others {
        Ok(all) => all,
        Err(cut) => return Err(cut),
    };
    let mut one = match last {
        Ok(one) => one,
        Err(cut) => return Err(cut),
    };
    if all.lines.append(&mut one.lines).is_err() {
        return Err(Cut::OutOfMemory);
    }
    if all.notes.push(one.note).is_err() {
        return Err(Cut::OutOfMemory);
    }
    Ok(all)
}

/// All calls of the readers that have these seats, each in a thread of its own where one can be made.
pub fn read_all<R: Threads + Wait + Sync, G: Gate>(
    rt: &R,
    alloc: Global,
    readers: Seated<'_>,
    calls: Calls<'_>,
    gate: &G,
) -> Result<AllEnded, Cut>
    requires { AreSeated readers }
    ensures { ReadersLeave calls.entry readers.entry result }
{
    let (image, mut seats, before) = readers.into_parts();
    let Some(seat) = seats.pop() else {
        return Ok(none(alloc));
    };
    let reader = number(before, seats.len());
    let (name, attempts, count) = calls.into_parts();
    let (last, others) = join(
        rt,
        move || -> Result<Ended, Cut>
            requires { seat.image ≡ image.now }
            ensures { ReaderEnds (reader_rules name.entry.now attempts) image.entry.now count reader seat.seen result }
        {
            read(
                rt,
                alloc,
                image,
                seat,
                Calls::new(name, attempts, count),
                reader,
                gate,
            )
        },
        move || -> Result<AllEnded, Cut>
            requires sync { IsSync R.row × IsSync G.row }
            requires images { All (λ (s : SeatView). s.image ≡ image.now) seats.items }
            requires few { before + vec_len seats ≤ 32 }
            ensures { (seen : List Write) → All (λ (s : SeatView). s.seen ≡ seen) seats.items
                → ReadersEnd (reader_rules name.entry.now attempts) image.entry.now before count (vec_len seats) seen result }
        {
            let readers = Seated::new(image, seats, before);
            read_all(rt, alloc, readers, Calls::new(name, attempts, count), gate)
        },
    );
    and_one(others, last)
}
