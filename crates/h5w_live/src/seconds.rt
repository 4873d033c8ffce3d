//! What the readers of a second image come to, once all threads have ended.
ghost use Rattle.std.specs.Prelude.{◌≡◌, All, IfOk, List};
ghost use Rattle.h5w_model.specs.declared.report.FlushLine.{FlushLine};
ghost use Rattle.h5w_writer.specs.Sessions.{Session};
ghost use Rattle.h5w_shared.specs.Seats.{NoteView, SeatView};
ghost use Rattle.h5w_shared.specs.Turns.{StartsWith};
ghost use Rattle.h5w_live.specs.Reports.{PartAgrees, PartJoined, TellPart, run_of};
ghost use Rattle.h5w_live.specs.Seconds.{IsSecondOf};

use crate::following::Second;
use crate::report::Loss;
use h5w_live_reading::{AllEnded, Cut};
use h5w_model::PollLine;
use h5w_pen::Pen;
use h5w_replica::Follow;
use h5w_shared::{Note, SharedImage};

/// The second image's writer takes in what its readers' seats have seen, which begins what it has.
fn meet_all(second: &SharedImage, follow: &mut Follow, mut notes: Vec<Note>)
    requires image { follow.old.second.image ≡ second.now }
    requires notes { All (λ (n : NoteView). n.image ≡ second.now) notes.items }
    ensures same { follow.new ≡ follow.old }
    ensures begins { All (λ (n : NoteView). StartsWith follow.old.second.seen n.seen) notes.items }
{
    while let Some(note) = notes.pop() {
        follow.meet(second, note);
    }
}

/// The lines of the calls of the second image's readers, which agree with those of the flushes. The second image has what begins the first
/// one's pieces, and what each reader's seat has seen begins that.
fn judged(
    second: &SharedImage,
    follow: &mut Follow,
    ended: Result<AllEnded, Cut>,
) -> Result<Vec<PollLine>, Loss>
    requires image { follow.old.second.image ≡ second.now }
    requires joined { (s : Session) × (v : SeatView) × (fs : List FlushLine) × PartJoined second.now s v fs ended × StartsWith v.seen follow.old.second.seen }
    ensures same { follow.new ≡ follow.old }
    ensures agrees { (s : Session) (v : SeatView) (fs : List FlushLine) (j : PartJoined second.now s v fs ended) → StartsWith v.seen follow.old.second.seen
        → IfOk result (λ lines. PartAgrees (run_of j.file j.attempts j.all j.calls j.batches fs) j.before j.readers lines.items) }
    ensures seats { (s : Session) (v : SeatView) (fs : List FlushLine) (j : PartJoined second.now s v fs ended) → StartsWith v.seen follow.old.second.seen
        → IfOk result (λ lines. TellPart j.file j.attempts j.before j.readers j.calls v.seen lines.items) }
{
    match ended {
        Ok(AllEnded { lines, notes }) => {
            meet_all(second, follow, notes);
            Ok(lines)
        }
        Err(Cut::Failed(worn)) => Err(Loss::Failed(worn)),
        Err(Cut::OutOfMemory) => Err(Loss::OutOfMemory),
        Err(Cut::Stray(note)) => {
            follow.meet(second, note);
            unreachable!()
        }
    }
}

/// The lines of the calls of the second image's readers, and the second image. The first one's writer takes in what was followed of it.
pub fn second_judged(
    first: &SharedImage,
    seat: &mut Pen,
    second: Second,
    ended: Result<AllEnded, Cut>,
) -> Result<(Second, Vec<PollLine>), Loss>
    requires image { seat.old.image ≡ first.now }
    requires second { IsSecondOf first.now second }
    requires joined { (s : Session) × (fs : List FlushLine) × PartJoined second.image s seat.old fs ended }
    ensures same { seat.new ≡ seat.old }
    ensures second { IfOk result (λ r. IsSecondOf first.now r.0) }
    ensures agrees { (s : Session) (fs : List FlushLine) (j : PartJoined second.image s seat.old fs ended) → IfOk result (λ r. PartAgrees (run_of j.file j.attempts j.all j.calls j.batches fs) j.before j.readers r.1.items) }
    ensures seats { (s : Session) (fs : List FlushLine) (j : PartJoined second.image s seat.old fs ended) → IfOk result (λ r. TellPart j.file j.attempts j.before j.readers j.calls seat.old.seen r.1.items) }
{
    let Second { image, mut follow } = second;
    seat.meet(first, follow.note(first));
    let lines = judged(&image, &mut follow, ended)?;
    Ok((Second { image, follow }, lines))
}
