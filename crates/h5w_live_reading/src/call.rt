//! A reader's call through its seat, to its answer.
ghost use Rattle.std.specs.Prelude.{◌≡◌, ◌≢◌, ◌<◌, ◌≤◌, length, IfOk, IsSome, OnErr, OnOk};
ghost use Rattle.h5w_model.specs.Numbers.{range};
ghost use Rattle.h5w_model.specs.Unfinished.{wanted};
ghost use Rattle.h5w_reader.specs.Cores as cores;
ghost use Rattle.h5w_reader.specs.declared.step.Step.TheVariants as steps;
ghost use Rattle.h5w_shared.specs.Seats.{FailedSeat, bytes_of};
ghost use Rattle.h5w_shared.specs.Turns.{StartsWith};
ghost use Rattle.h5w_live_reading.specs.Reading.{AnswersThrough};

use h5w_image::{Failed, PieceRead};
use h5w_model::Piece;
use h5w_reader::{ReaderCore, Step};
use h5w_shared::{ReaderSeat, Reading, SharedImage};
use std::sync::Wait;

/// Takes a look through a reader's seat.
fn look<R: Wait>(
    rt: &R,
    image: &SharedImage,
    seat: &mut ReaderSeat,
    at: u64,
    len: usize,
    out: &mut Piece,
) -> Result<(), Failed>
    requires image { seat.old.image ≡ image.now }
    requires some { 1 ≤ len }
    requires piece { len ≤ 512 }
    ensures same { OnOk result (seat.new ≡ record seat.old { seen = seat.new.seen }) }
    ensures grown { OnOk result (StartsWith seat.new.seen seat.old.seen) }
    ensures shows { OnOk result (out.new ≡ range (bytes_of seat.new) at len) }
    ensures bound { OnOk result (length out.new ≤ len) }
    ensures refused { OnErr result (FailedSeat seat.old seat.new) }
{
    Reading { rt, image, seat }.look(at, len, out)
}

/// Takes the looks of the reader's unfinished call to its answer. Failed: the seat was shown the ticket word at 2^63, and counts it.
pub fn answered<R: Wait>(
    rt: &R,
    image: &SharedImage,
    seat: &mut ReaderSeat,
    core: &mut ReaderCore,
) -> Result<Step, Failed>
    requires image { seat.old.image ≡ image.now }
    requires call { IsSome (wanted (cores.reader core.old).left) }
    ensures image { seat.new.image ≡ image.now }
    ensures ended { IfOk result (λ step. step ≢ steps.More) }
    ensures answers { IfOk result (λ step. AnswersThrough image.now.start seat.old.seen seat.new.seen (cores.reader core.old) step (cores.reader core.new)) }
    ensures failed { OnErr result (0 < seat.new.faults) }
{
    let mut piece = Piece::new();
    for _ in rt.forever() {
        let Some(wanted) = core.want() else {
            unreachable!()
        };
        look(rt, image, seat, wanted.at, wanted.len, &mut piece)?;
        match core.give(&piece) {
            Step::More => {}
            step => return Ok(step),
        }
    }
    unreachable!()
}
