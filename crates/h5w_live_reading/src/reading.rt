//! The calls of one reader of a run, and the lines that tell of them.
ghost use Rattle.std.specs.Prelude.{◌≡◌, ◌≢◌, ◌<◌, ◌≤◌, ◌+◌, ◌+ℤ◌, length, IfOk, IsSome, None, OnErr, OnOk, Ok, Err, vec_len};
ghost use Rattle.std.specs.Int.{int_wrap, w128};
ghost use Rattle.h5w_model.specs.Agrees.{total};
ghost use Rattle.h5w_reader.specs.Cores as cores;
ghost use Rattle.h5w_reader.specs.Readers.{new_reader};
ghost use Rattle.h5w_live_laws.specs.Laws.{IsStray};
ghost use Rattle.h5w_live_laws.specs.Polls as laws;
ghost use Rattle.h5w_live_laws.specs.Polls.{AnswersPoll};
ghost use Rattle.h5w_model.specs.Calls.{rows_seen};
ghost use Rattle.h5w_model.specs.Unfinished.{wanted};
ghost use Rattle.h5w_model.specs.declared.refusal.ReadError.{ReadError};
ghost use Rattle.h5w_live_reading.specs.Reading.{IsBegun, IsReady, Polled, ReadsThrough, Strays};
ghost use Rattle.h5w_live_reading.specs.Seats.{rules_of};

use crate::actors::Calls;
use crate::call::answered;
use h5w_image::{Failed, Gate};
use h5w_model::{OutOfMemory, Poll, PollLine, ReadError, Values};
use h5w_reader::{ReadBegin, ReaderCore, Step};
use h5w_shared::{ReaderSeat, SharedImage};
use std::alloc::{AllocFailed, Global};
use std::sync::Wait;

/// Why a reader ended before its last call.
#[derive(Clone, Copy)]
pub enum Stop {
    /// Its seat was shown the ticket word at 2^63, and counts it.
    Failed,
    OutOfMemory,
    /// A call was refused as none is over the log of a writer.
    Stray,
}

impl From<Failed> for Stop {
    ghost use Rattle.h5w_live_reading.specs.declared.reading.Stop.TheVariants.{Failed as no_turn};
    ghost use Rattle.std.specs.Prelude.{◌≡◌};

    ghost from_gives = { λ _ r. r ≡ no_turn };

    fn from(_e: Failed) -> Stop {
        Stop::Failed
    }
}

impl From<OutOfMemory> for Stop {
    ghost use Rattle.h5w_live_reading.specs.declared.reading.Stop.TheVariants.{OutOfMemory as no_memory};
    ghost use Rattle.std.specs.Prelude.{◌≡◌};

    ghost from_gives = { λ _ r. r ≡ no_memory };

    fn from(_e: OutOfMemory) -> Stop {
        Stop::OutOfMemory
    }
}

impl From<AllocFailed<PollLine>> for Stop {
    ghost use Rattle.h5w_live_reading.specs.declared.reading.Stop.TheVariants.{OutOfMemory as no_memory};
    ghost use Rattle.std.specs.Prelude.{◌≡◌};

    ghost from_gives = { λ _ r. r ≡ no_memory };

    fn from(_e: AllocFailed<PollLine>) -> Stop {
        Stop::OutOfMemory
    }
}

/// The sum that a reader's calls told last.
#[derive(Clone, Copy)]
struct Told {
    sum: i128,
}

/// The sum of some values, as the signed numbers of 128 bits count.
fn sum_of(values: &[i128]) -> i128
    ensures { result ≡ int_wrap w128 (total values.now) }
{
    let mut sum: i128 = 0;
    for value in values {
        sum = sum.wrapping_add(*value);
    }
    sum
}

/// The sum of what was told before and of these values, as the signed numbers of 128 bits count.
fn sum_with(told: i128, values: &[i128]) -> i128
    ensures { result ≡ int_wrap w128 (told +ℤ total values.now) }
{
    told.wrapping_add(sum_of(values))
}

/// Reads so many rows that the reader has found, from this one on.
fn read_behind<R: Wait>(
    rt: &R,
    image: &SharedImage,
    seat: &mut ReaderSeat,
    core: &mut ReaderCore,
    from: u64,
    count: u64,
) -> Result<Values, Stop>
    requires image { seat.old.image ≡ image.now }
    requires idle { (cores.reader core.old).left ≡ None }
    requires rows { from + count ≤ rows_seen (cores.reader core.old).known }
    ensures image { seat.new.image ≡ image.now }
    ensures values { IfOk result (λ values. ReadsThrough image.now.start (cores.reader core.old).known from count seat.old.seen seat.new.seen (Ok values)) }
    ensures core { OnOk result (cores.reader core.new ≡ cores.reader core.old) }
    ensures stray { result ≡ Err Stop.Stray → (e : ReadError) × ReadsThrough image.now.start (cores.reader core.old).known from count seat.old.seen seat.new.seen (Err e) }
    ensures failed { result ≡ Err Stop.Failed → 0 < seat.new.faults }
{
    match core.read(from, count) {
        Ok(Some(values)) => return Ok(values),
        Ok(None) => {}
        Err(ReadBegin::OutOfMemory) => return Err(Stop::OutOfMemory),
        Err(_) => unreachable!(),
    }
    match answered(rt, image, seat, core)? {
        Step::Values(values) => Ok(values),
        Step::Refused(ReadError::OutOfMemory) => Err(Stop::OutOfMemory),
        Step::Refused(_) => Err(Stop::Stray),
        _ => unreachable!(),
    }
}

/// Takes the reader's call for rows to its answer, and reads those of the rows that were not known before it.
fn poll<R: Wait>(
    rt: &R,
    image: &SharedImage,
    seat: &mut ReaderSeat,
    core: &mut ReaderCore,
    told: i128,
) -> Result<Poll, Stop>
    requires image { seat.old.image ≡ image.now }
    requires begun { IsBegun (cores.reader core.old) }
    ensures image { seat.new.image ≡ image.now }
    ensures answers { IfOk result (λ a. AnswersPoll (cores.reader core.old).rules image.now.start (cores.reader core.old).known told seat.old.seen seat.new.seen (cores.reader core.new).known a) }
    ensures idle { OnOk result ((cores.reader core.new).left ≡ None) }
    ensures rules { OnOk result ((cores.reader core.new).rules ≡ (cores.reader core.old).rules) }
    ensures stray { result ≡ Err Stop.Stray → IsStray (cores.reader core.old).rules image.now.start (cores.reader core.old).known seat.old.seen seat.new.seen }
    ensures failed { result ≡ Err Stop.Failed → 0 < seat.new.faults }
{
    let known = core.seen();
    match answered(rt, image, seat, core)? {
        Step::Rows(rows) => {
            let from = known.min(rows);
            let values = read_behind(rt, image, seat, core, from, rows - from)?;
            Ok(Poll::Rows {
                rows,
                sum: sum_with(told, values.as_slice()),
            })
        }
        Step::Refused(ReadError::OutOfMemory) => Err(Stop::OutOfMemory),
        Step::Refused(ReadError::Again { attempts, .. }) => Ok(Poll::Again { attempts }),
        Step::Refused(_) => Err(Stop::Stray),
        _ => unreachable!(),
    }
}

/// What was told last, after an answer.
fn told_after(told: Told, answer: &Poll) -> Told
    ensures { result.sum ≡ laws.told_after told.sum answer.now }
{
    match answer {
        Poll::Rows { sum, .. } => Told { sum: *sum },
        Poll::Again { .. } => told,
    }
}

/// Begins the reader's next call, unless it has begun to open.
fn begin(core: &mut ReaderCore, call: u32)
    requires { IsReady call (cores.reader core.old) }
    ensures begun { IsBegun (cores.reader core.new) }
    ensures rules { (cores.reader core.new).rules ≡ (cores.reader core.old).rules }
    ensures known { (cores.reader core.new).known ≡ (cores.reader core.old).known }
{
    if call > 0 {
        core.refresh().unwrap();
    }
}

/// The calls of a reader that has begun to open the dataset: the first opens it, each other refreshes. The reader comes to its turn after each.
fn polls_of<R: Wait, G: Gate>(
    rt: &R,
    alloc: Global,
    image: &SharedImage,
    seat: &mut ReaderSeat,
    core: &mut ReaderCore,
    reader: u32,
    calls: u32,
    gate: &G,
) -> Result<Vec<PollLine>, Stop>
    requires image { seat.old.image ≡ image.now }
    requires opening { cores.reader core.old ≡ new_reader (cores.reader core.old).rules }
    requires wanting { IsSome (wanted (cores.reader core.old).left) }
    ensures image { seat.new.image ≡ image.now }
    ensures count { IfOk result (λ lines. vec_len lines ≡ calls) }
    ensures lines { IfOk result (λ lines. Polled (cores.reader core.old).rules image.now.start reader seat.old.seen seat.new.seen lines.items) }
    ensures stray { result ≡ Err Stop.Stray → Strays (cores.reader core.old).rules image.now.start reader seat.old.seen seat.new.seen }
    ensures failed { result ≡ Err Stop.Failed → 0 < seat.new.faults }
{
    let mut lines = Vec::new(alloc);
    let mut told = Told { sum: 0 };
    for call in 0..calls {
        begin(core, call);
        let before = seat.seen();
        let answer = poll(rt, image, seat, core, told.sum)?;
        let after = seat.seen();
        told = told_after(told, &answer);
        lines.push(PollLine {
            reader,
            poll: call + 1,
            before,
            after,
            answer,
        })?;
        gate.turn(reader, u64::from(call + 1));
    }
    Ok(lines)
}

/// These calls of a reader: the first opens the dataset, each other refreshes. Where one finds rows, those are read that were not
/// known before it. The reader comes to its turn after each.
pub fn polls<R: Wait, G: Gate>(
    rt: &R,
    alloc: Global,
    image: &SharedImage,
    seat: &mut ReaderSeat,
    calls: Calls<'_>,
    reader: u32,
    gate: &G,
) -> Result<Vec<PollLine>, Stop>
    requires image { seat.old.image ≡ image.now }
    ensures image { seat.new.image ≡ image.now }
    ensures count { IfOk result (λ lines. vec_len lines ≡ calls.entry.count) }
    ensures lines { IfOk result (λ lines. Polled (rules_of calls.entry) image.now.start reader seat.old.seen seat.new.seen lines.items) }
    ensures stray { result ≡ Err Stop.Stray → Strays (rules_of calls.entry) image.now.start reader seat.old.seen seat.new.seen }
    ensures failed { result ≡ Err Stop.Failed → 0 < seat.new.faults }
{
    let mut core = ReaderCore::open(alloc, calls.name, calls.attempts)?;
    polls_of(rt, alloc, image, seat, &mut core, reader, calls.count, gate)
}
