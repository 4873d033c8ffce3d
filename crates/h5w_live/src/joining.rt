//! What a run in threads comes to, once all threads have ended.
ghost use Rattle.std.specs.Prelude.{◌≡◌, ℕ, ◌+◌, ◌<◌, All, IfErr, IfOk, IfSome, OnOk, Ok, None, List, ℤ};
ghost use Rattle.h5w_model.specs.Agrees.{Agrees};
ghost use Rattle.h5w_model.specs.declared.report.FlushLine.{FlushLine};
ghost use Rattle.h5w_creation_laws.specs.CreatedFiles.{CreatedFile};
ghost use Rattle.h5w_writer.specs.Sessions.{Session};
ghost use Rattle.h5w_shared.specs.Seats.{NoteView};
ghost use Rattle.h5w_shared.specs.Turns.{StartsWith};
ghost use Rattle.h5w_live.specs.Reports.{IsCause, Joined, PartAgrees, PartJoined, Ran, Reports, TellPart, TellSeats, before_close, run_of};
ghost use Rattle.h5w_live.specs.Seconds.{IsSecondOf};
ghost use Rattle.h5w_live.specs.Writing.{Explains, HasClosed, HasFlushed, first_refused};

use crate::creating::copied;
use crate::following::{Second, caught_up};
use crate::lists::{FlushLines, PollLines};
use crate::release::{release_beside, release_ended, release_pen, release_second, release_session};
use crate::report::{LiveError, LiveReport, Loss, lost};
use crate::seconds::second_judged;
use crate::threads::{Beside, Written};
use crate::writer::close;
use crate::writing::Halt;
use h5w_image::Journal;
use h5w_live_reading::{AllEnded, Cut};
use h5w_model::{FlushLine, PollLine};
use h5w_pen::Pen;
use h5w_shared::{Note, SharedImage};
use h5w_writer::WriterCore;
use std::sync::Wait;

/// The error of a batch that was not flushed, by its number.
fn halted(batch: u64, halt: Halt, seat: Pen) -> LiveError
    requires { halt ≡ Halt.Failed → 0 < seat.faults }
    ensures { (f : CreatedFile) (most : ℕ) (bs : List (List ℤ)) → Explains f most bs batch halt → IsCause f most bs result }
{
    if let Halt::Failed = halt {
        return LiveError::Failed(seat.worn());
    }
    release_pen(seat);
    match halt {
        Halt::OutOfRange { index, value } => LiveError::OutOfRange {
            batch,
            index,
            value,
        },
        Halt::Chunks { chunks, limit } => LiveError::Chunks { chunks, limit },
        Halt::Space(full) => LiveError::Space(full),
        Halt::OutOfMemory => LiveError::OutOfMemory,
        Halt::Failed => unreachable!(),
    }
}

/// The writer's seat takes in what the readers' seats have seen, which begins what it has written.
fn meet_all(image: &SharedImage, seat: &mut Pen, mut notes: Vec<Note>)
    requires image { seat.old.image ≡ image.now }
    requires notes { All (λ (n : NoteView). n.image ≡ image.now) notes.items }
    ensures same { seat.new ≡ seat.old }
    ensures begins { All (λ (n : NoteView). StartsWith seat.old.seen n.seen) notes.items }
{
    while let Some(note) = notes.pop() {
        seat.meet(image, note);
    }
}

/// The lines of the calls of the first image's readers, which agree with those of the flushes. What each reader's seat has seen begins what the
/// writer's has.
fn judged(
    image: &SharedImage,
    seat: &mut Pen,
    ended: Result<AllEnded, Cut>,
) -> Result<Vec<PollLine>, Loss>
    requires image { seat.old.image ≡ image.now }
    requires joined { (s : Session) × (fs : List FlushLine) × PartJoined image.now s seat.old fs ended }
    ensures same { seat.new ≡ seat.old }
    ensures agrees { (s : Session) (fs : List FlushLine) (j : PartJoined image.now s seat.old fs ended) → IfOk result (λ lines. PartAgrees (run_of j.file j.attempts j.all j.calls j.batches fs) j.before j.readers lines.items) }
    ensures seats { (s : Session) (fs : List FlushLine) (j : PartJoined image.now s seat.old fs ended) → IfOk result (λ lines. TellPart j.file j.attempts j.before j.readers j.calls seat.old.seen lines.items) }
{
    match ended {
        Ok(AllEnded { lines, notes }) => {
            meet_all(image, seat, notes);
            Ok(lines)
        }
        Err(Cut::Failed(worn)) => Err(Loss::Failed(worn)),
        Err(Cut::OutOfMemory) => Err(Loss::OutOfMemory),
        Err(Cut::Stray(note)) => {
            seat.meet(image, note);
            unreachable!()
        }
    }
}

/// The lines of all calls, which agree with those of the flushes, and the second image, if there is one: it has what begins the first one's
/// pieces.
fn all_judged(
    image: &SharedImage,
    seat: &mut Pen,
    ended: Result<AllEnded, Cut>,
    beside: Option<Beside>,
) -> Result<(Vec<PollLine>, Option<Second>), Loss>
    requires image { seat.old.image ≡ image.now }
    requires joined { (s : Session) × (fs : List FlushLine) × Joined image.now s seat.old fs ended beside }
    ensures same { seat.new ≡ seat.old }
    ensures agrees { (s : Session) (fs : List FlushLine) (j : Joined image.now s seat.old fs ended beside) → IfOk result (λ r. Agrees (run_of j.file j.attempts (j.readers + j.mirrors) j.calls j.batches fs) j.batches r.0.items) }
    ensures seats { (s : Session) (fs : List FlushLine) (j : Joined image.now s seat.old fs ended beside) → IfOk result (λ r. TellSeats j.file j.attempts (j.readers + j.mirrors) j.calls seat.old.seen r.0.items) }
    ensures second { IfOk result (λ r. IfSome r.1 (IsSecondOf image.now)) }
{
    let mut lines = match judged(image, seat, ended) {
        Ok(lines) => lines,
        Err(loss) => {
            release_beside(beside);
            return Err(loss);
        }
    };
    let Some(Beside { second, ended }) = beside else {
        return Ok((lines, None));
    };
    let (second, mut others) = match second_judged(image, seat, second, ended) {
        Ok(judged) => judged,
        Err(loss) => return Err(loss),
    };
    match lines.append(&mut others) {
        Ok(()) => Ok((lines, Some(second))),
        Err(_) => {
            release_second(Some(second));
            Err(Loss::OutOfMemory)
        }
    }
}

/// Closes the session. The seat comes back.
fn shut<R: Wait>(
    rt: &R,
    image: &SharedImage,
    mut seat: Pen,
    session: &mut WriterCore,
) -> Result<Pen, Loss>
    requires image { seat.image ≡ image.now }
    requires flushed { (f : CreatedFile) × (most : ℕ) × (done : List (List ℤ)) × (lines : List FlushLine) × HasFlushed f most done session.old seat lines }
    ensures image { IfOk result (λ r. r.image ≡ image.now) }
    ensures closed { (f : CreatedFile) (most : ℕ) (done : List (List ℤ)) (lines : List FlushLine) → HasFlushed f most done session.old seat lines → IfOk result (λ r. HasClosed f done session.new r lines) }
    ensures last { IfOk result (λ r. before_close r.seen ≡ seat.seen) }
{
    match close(rt, image, &mut seat, session) {
        Ok(()) => Ok(seat),
        Err(_) => Err(Loss::Failed(seat.worn())),
    }
}

/// A copy of all pieces, which the second image has too then.
fn left<R: Wait>(
    rt: &R,
    image: &SharedImage,
    seat: Pen,
    second: Option<Second>,
) -> Result<Journal, Loss>
    requires image { seat.image ≡ image.now }
    requires second { IfSome second (IsSecondOf image.now) }
    ensures { IfOk result (λ journal. journal.writes ≡ seat.seen) }
{
    let (seat, journal, note) = match copied(rt, image, seat) {
        Ok(copied) => copied,
        Err(loss) => {
            release_second(second);
            return Err(loss);
        }
    };
    release_pen(seat);
    let Some(second) = second else {
        return Ok(journal);
    };
    match caught_up(rt, image, second, &journal, note) {
        Ok(second) => {
            release_second(Some(second));
            Ok(journal)
        }
        Err(loss) => Err(loss),
    }
}

/// Takes in what the readers left, then closes the session, and reports.
fn reported<R: Wait>(
    rt: &R,
    image: &SharedImage,
    mut seat: Pen,
    session: &mut WriterCore,
    flushes: Vec<FlushLine>,
    ended: Result<AllEnded, Cut>,
    beside: Option<Beside>,
) -> Result<LiveReport, Loss>
    requires image { seat.image ≡ image.now }
    requires joined { Joined image.now session.old seat flushes.items ended beside }
    ensures { (j : Joined image.now session.old seat flushes.items ended beside) → IfOk result (λ report. Reports j.file j.batches j.attempts (j.readers + j.mirrors) j.calls report) }
{
    let (polls, second) = match all_judged(image, &mut seat, ended, beside) {
        Ok(judged) => judged,
        Err(loss) => {
            release_pen(seat);
            return Err(loss);
        }
    };
    let seat = match shut(rt, image, seat, session) {
        Ok(seat) => seat,
        Err(loss) => {
            release_second(second);
            return Err(loss);
        }
    };
    let journal = left(rt, image, seat, second)?;
    Ok(LiveReport {
        journal,
        flushes: FlushLines::from_vec(flushes),
        polls: PollLines::from_vec(polls),
    })
}

/// The report of a run whose writer left these lines, or why there is none. The writer's error comes first.
fn settled<R: Wait>(
    rt: &R,
    image: &SharedImage,
    seat: Pen,
    session: &mut WriterCore,
    lines: Result<Vec<FlushLine>, (u64, Halt)>,
    ended: Result<AllEnded, Cut>,
    beside: Option<Beside>,
) -> Result<LiveReport, LiveError>
    requires { Ran image.now (record { seat = seat; session = session.old; lines = lines }) ended beside }
    ensures reports { (r : Ran image.now (record { seat = seat; session = session.old; lines = lines }) ended beside) → IfOk result (λ report. Reports r.file r.batches r.attempts (r.readers + r.mirrors) r.calls report) }
    ensures accepted { (r : Ran image.now (record { seat = seat; session = session.old; lines = lines }) ended beside) → OnOk result (first_refused r.file 0 1 r.batches ≡ None) }
    ensures cause { (r : Ran image.now (record { seat = seat; session = session.old; lines = lines }) ended beside) → IfErr result (λ e. IsCause r.file r.most r.batches e) }
{
    match lines {
        Ok(flushes) => match reported(rt, image, seat, session, flushes, ended, beside) {
            Ok(report) => Ok(report),
            Err(loss) => Err(lost(loss)),
        },
        Err((batch, halt)) => {
            release_ended(ended);
            release_beside(beside);
            Err(halted(batch, halt, seat))
        }
    }
}

/// Closes the session after all threads were joined, and reports. The writer's error comes first, then that of the readers, of the first image
/// and then of the second, then that of the close, of the copy of all pieces, and of the second image where it gets those that it lacks.
pub fn finish<R: Wait>(
    rt: &R,
    image: &SharedImage,
    written: Written,
    ended: Result<AllEnded, Cut>,
    beside: Option<Beside>,
) -> Result<LiveReport, LiveError>
    requires { Ran image.now written ended beside }
    ensures reports { (r : Ran image.now written ended beside) → IfOk result (λ report. Reports r.file r.batches r.attempts (r.readers + r.mirrors) r.calls report) }
    ensures accepted { (r : Ran image.now written ended beside) → OnOk result (first_refused r.file 0 1 r.batches ≡ None) }
    ensures cause { (r : Ran image.now written ended beside) → IfErr result (λ e. IsCause r.file r.most r.batches e) }
{
    let Written {
        seat,
        mut session,
        lines,
    } = written;
    let report = settled(rt, image, seat, &mut session, lines, ended, beside);
    release_session(session);
    report
}
