//! The writer of a run beside its readers, each in a thread of its own where one can be made. Where a second image follows, so are its readers
//! and what writes it.
ghost use Rattle.std.specs.Prelude.{◌≡◌, ◌≤◌, All, List, vec_len, IfSome};
ghost use Rattle.std.specs.Thread.{IsSync};
ghost use Rattle.h5w_model.specs.declared.piece.Write.{Write};
ghost use Rattle.h5w_shared.specs.Seats.{SeatView};
ghost use Rattle.h5w_live_reading.specs.Ends.{ReadersEnd};
ghost use Rattle.h5w_live_reading.specs.Seats.{AreSeated, ReadersLeave, rules_of};
ghost use Rattle.h5w_live.specs.Reports.{IsBeside};
ghost use Rattle.h5w_live.specs.Seconds.{IsWatched, watchers};
ghost use Rattle.h5w_live.specs.Threads.{IsMirrored, IsWriting, WriterLeaves};

use crate::following::{Second, follow_all};
use crate::seats::Watched;
use crate::writer::put_all;
use crate::writing::Halt;
use h5w_image::Gate;
use h5w_live_reading::{AllEnded, Calls, Cut, Seated, read_all};
use h5w_model::{FlushLine, Values};
use h5w_pen::Pen;
use h5w_replica::Follow;
use h5w_shared::{ReaderSeat, SharedImage};
use h5w_writer::WriterCore;
use std::alloc::Global;
use std::sync::Wait;
use std::sync::atomic::{AtomicBool, Ordering};
use std::thread::{Threads, join};

/// The writer of a run: its image and what writes it, its session, the batches that it puts, and where it tells that it is over.
#[derive(Drop)]
pub struct Writer<'a> {
    pub image: &'a SharedImage,
    pub seat: Pen,
    pub session: WriterCore,
    pub batches: &'a [Values],
    pub over: &'a AtomicBool,
}

impl<'a> Writer<'a> {
    /// The writer of this image that has this seat and this session, puts these batches, and tells there that it is over.
    fn new(
        image: &'a SharedImage,
        seat: Pen,
        session: WriterCore,
        batches: &'a [Values],
        over: &'a AtomicBool,
    ) -> Writer<'a>
        ensures { result ≡ record { image = image.entry; seat = seat; session = session; batches = batches.entry; over = over.entry } }
    {
        Writer {
            image,
            seat,
            session,
            batches,
            over,
        }
    }

    /// The image, the seat, the session, the batches, and where it tells that it is over.
    fn into_parts(
        self,
    ) -> (
        &'a SharedImage,
        Pen,
        WriterCore,
        &'a [Values],
        &'a AtomicBool,
    )
        ensures { record { image = result.0; seat = result.1; session = result.2; batches = result.3; over = result.4 } ≡ self.entry }
    {
        let Writer {
            image,
            seat,
            session,
            batches,
            over,
        } = self;
        (image, seat, session, batches, over)
    }
}

/// What the writer of a run leaves: its seat and its session, and the lines of its flushes, or why it ended before the last, and at
/// which batch, counted from 1.
#[derive(Drop)]
pub struct Written {
    pub seat: Pen,
    pub session: WriterCore,
    pub lines: Result<Vec<FlushLine>, (u64, Halt)>,
}

/// The readers of a second image, and the end of the mirror that writes it.
#[derive(Drop)]
pub struct Mirrored<'a> {
    pub follow: Follow,
    pub readers: Seated<'a>,
}

/// What a second image leaves: its mirror's end, and what came of its readers.
#[derive(Drop)]
pub struct Beside {
    pub second: Second,
    pub ended: Result<AllEnded, Cut>,
}

/// Puts all batches, and sends on what no other end awaited. Then the writer is over.
fn write<R: Wait, G: Gate>(rt: &R, alloc: Global, writer: Writer<'_>, gate: &G) -> Written
    requires { IsWriting writer }
    ensures { WriterLeaves writer.entry result }
{
    let Writer {
        image,
        mut seat,
        mut session,
        batches,
        over,
    } = writer;
    let lines = put_all(rt, alloc, image, &mut seat, &mut session, batches, gate);
    seat.send(image);
    over.store(true, Ordering::SeqCst);
    Written {
        seat,
        session,
        lines,
    }
}

/// The writer puts all batches while the readers make their calls. What they leave comes once all have ended.
// Each closure takes along the parts of a struct that names a lifetime, and puts them together: of such a struct that it took nothing is
// ensured.
fn run<R: Threads + Wait + Sync, G: Gate>(
    rt: &R,
    alloc: Global,
    writer: Writer<'_>,
    readers: Seated<'_>,
    calls: Calls<'_>,
    gate: &G,
) -> (Written, Result<AllEnded, Cut>)
    requires writer { IsWriting writer }
    requires readers { AreSeated readers }
    ensures written { WriterLeaves writer.entry result.0 }
    ensures ended { ReadersLeave calls.entry readers.entry result.1 }
{
    let (image, seat, session, batches, over) = writer.into_parts();
    let (place, seats, before) = readers.into_parts();
    let (name, attempts, count) = calls.into_parts();
    let (ended, written) = join(
        rt,
        move || -> Result<AllEnded, Cut>
            requires { AreSeated (record { image = place; seats = seats; before = before }) }
            ensures { ReadersLeave (record { name = name.entry; attempts = attempts; count = count }) (record { image = place.entry; seats = seats; before = before }) result }
        {
            let readers = Seated::new(place, seats, before);
            read_all(rt, alloc, readers, Calls::new(name, attempts, count), gate)
        },
        move || -> Written
            requires { IsWriting (record { image = image; seat = seat; session = session; batches = batches; over = over }) }
            ensures { WriterLeaves (record { image = image.entry; seat = seat; session = session; batches = batches.entry; over = over.entry }) result }
        {
            let writer = Writer::new(image, seat, session, batches, over);
            write(rt, alloc, writer, gate)
        },
    );
    (written, ended)
}

/// The same, while the readers of the second image make their calls too.
fn run_both<R: Threads + Wait + Sync, G: Gate>(
    rt: &R,
    alloc: Global,
    writer: Writer<'_>,
    readers: Seated<'_>,
    others: Seated<'_>,
    calls: Calls<'_>,
    gate: &G,
) -> ((Written, Result<AllEnded, Cut>), Result<AllEnded, Cut>)
    requires writer { IsWriting writer }
    requires readers { AreSeated readers }
    requires others { AreSeated others }
    ensures written { WriterLeaves writer.entry result.0.0 }
    ensures ended { ReadersLeave calls.entry readers.entry result.0.1 }
    ensures beside { ReadersLeave calls.entry others.entry result.1 }
{
    let (image, seat, session, batches, over) = writer.into_parts();
    let (place, seats, before) = readers.into_parts();
    let (second, more, later) = others.into_parts();
    let (name, attempts, count) = calls.into_parts();
    let (beside, first) = join(
        rt,
        move || -> Result<AllEnded, Cut>
            requires { AreSeated (record { image = second; seats = more; before = later }) }
            ensures { ReadersLeave (record { name = name.entry; attempts = attempts; count = count }) (record { image = second.entry; seats = more; before = later }) result }
        {
            let others = Seated::new(second, more, later);
            read_all(rt, alloc, others, Calls::new(name, attempts, count), gate)
        },
        move || -> (Written, Result<AllEnded, Cut>)
            requires sync { IsSync R.row × IsSync G.row }
            requires writer { IsWriting (record { image = image; seat = seat; session = session; batches = batches; over = over }) }
            requires readers { AreSeated (record { image = place; seats = seats; before = before }) }
            ensures written { WriterLeaves (record { image = image.entry; seat = seat; session = session; batches = batches.entry; over = over.entry }) result.0 }
            ensures ended { ReadersLeave (record { name = name.entry; attempts = attempts; count = count }) (record { image = place.entry; seats = seats; before = before }) result.1 }
        {
            let writer = Writer::new(image, seat, session, batches, over);
            let readers = Seated::new(place, seats, before);
            run(
                rt,
                alloc,
                writer,
                readers,
                Calls::new(name, attempts, count),
                gate,
            )
        },
    );
    (first, beside)
}

/// The same, while the second image follows the first.
// The follower is the first closure of the outermost join. Where no thread can be made for it, it is called behind the other, and ends, as the
// writer is over by then. In any other place it might be called before the writer, and follow for ever.
fn run_mirrored<R: Threads + Wait + Sync, G: Gate>(
    rt: &R,
    alloc: Global,
    writer: Writer<'_>,
    readers: Seated<'_>,
    mirrored: Mirrored<'_>,
    calls: Calls<'_>,
    gate: &G,
) -> (
    Follow,
    ((Written, Result<AllEnded, Cut>), Result<AllEnded, Cut>),
)
    requires writer { IsWriting writer }
    requires readers { AreSeated readers }
    requires mirrored { IsMirrored writer.image.now mirrored }
    ensures first { result.0.seat.image ≡ writer.entry.image.now }
    ensures second { result.0.second.image ≡ mirrored.entry.readers.image.now }
    ensures written { WriterLeaves writer.entry result.1.0.0 }
    ensures ended { ReadersLeave calls.entry readers.entry result.1.0.1 }
    ensures beside { ReadersLeave calls.entry mirrored.entry.readers result.1.1 }
{
    let (image, seat, session, batches, over) = writer.into_parts();
    let (place, seats, before) = readers.into_parts();
    let (second, more, later) = mirrored.readers.into_parts();
    let (name, attempts, count) = calls.into_parts();
    let follow = mirrored.follow;
    let actor = later + more.len() as u32 + 1;
    join(
        rt,
        move || -> Follow
            requires first { follow.seat.image ≡ image.now }
            requires second { follow.second.image ≡ second.now }
            ensures first { result.seat.image ≡ image.entry.now }
            ensures second { result.second.image ≡ second.entry.now }
        { follow_all(rt, image, second, follow, over, actor, gate) },
        move || -> ((Written, Result<AllEnded, Cut>), Result<AllEnded, Cut>)
            requires sync { IsSync R.row × IsSync G.row }
            requires writer { IsWriting (record { image = image; seat = seat; session = session; batches = batches; over = over }) }
            requires readers { AreSeated (record { image = place; seats = seats; before = before }) }
            requires others { AreSeated (record { image = second; seats = more; before = later }) }
            ensures written { WriterLeaves (record { image = image.entry; seat = seat; session = session; batches = batches.entry; over = over.entry }) result.0.0 }
            ensures ended { ReadersLeave (record { name = name.entry; attempts = attempts; count = count }) (record { image = place.entry; seats = seats; before = before }) result.0.1 }
            ensures beside { ReadersLeave (record { name = name.entry; attempts = attempts; count = count }) (record { image = second.entry; seats = more; before = later }) result.1 }
        {
            let writer = Writer::new(image, seat, session, batches, over);
            let readers = Seated::new(place, seats, before);
            let others = Seated::new(second, more, later);
            let calls = Calls::new(name, attempts, count);
            run_both(rt, alloc, writer, readers, others, calls, gate)
        },
    )
}

/// The writer puts all batches while the readers make their calls. The readers of a second image are numbered on from those of the first. What
/// they leave comes once all have ended.
pub fn run_all<R: Threads + Wait + Sync, G: Gate>(
    rt: &R,
    alloc: Global,
    writer: Writer<'_>,
    seats: Vec<ReaderSeat>,
    watched: Option<Watched>,
    calls: Calls<'_>,
    gate: &G,
) -> (Written, Result<AllEnded, Cut>, Option<Beside>)
    requires writer { IsWriting writer }
    requires images { All (λ (s : SeatView). s.image ≡ writer.image.now) seats.items }
    requires few { vec_len seats ≤ 16 }
    requires watched { IfSome watched (IsWatched writer.image.now) }
    ensures written { WriterLeaves writer.entry result.0 }
    ensures ended { (seen : List Write) → All (λ (s : SeatView). s.seen ≡ seen) seats.items
        → ReadersEnd (rules_of calls.entry) writer.entry.image.now 0 calls.entry.count (vec_len seats) seen result.1 }
    ensures beside { (seen : List Write) → IfSome watched (λ w. All (λ (s : SeatView). s.seen ≡ seen) w.seats.items)
        → IsBeside (rules_of calls.entry) writer.entry.image.now (vec_len seats) calls.entry.count (watchers watched) seen result.2 }
{
    let before = seats.len() as u32;
    let readers = Seated {
        image: writer.image,
        seats,
        before: 0,
    };
    let Some(Watched { second, seats }) = watched else {
        let (written, ended) = run(rt, alloc, writer, readers, calls, gate);
        return (written, ended, None);
    };
    let Second { image, follow } = second;
    let mirrored = Mirrored {
        follow,
        readers: Seated {
            image: &image,
            seats,
            before,
        },
    };
    let (follow, ((written, first), ended)) = run_mirrored(
        rt, alloc, writer, readers, mirrored, calls, gate,
    );
    let second = Second { image, follow };
    (written, first, Some(Beside { second, ended }))
}
