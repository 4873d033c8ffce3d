ghost use Rattle.std.specs.Prelude.{◌≡◌, ◌≢◌, ◌≤◌, ◌-◌, ℕ, List, IsSome, IfOk, OnErr, option_map};
ghost use Rattle.h5w_model.specs.Causes.{Rose};
ghost use Rattle.h5w_model.specs.Numbers.{AreBytes};
ghost use Rattle.h5w_model.specs.Unfinished.{wanted};
ghost use Rattle.h5w_image.specs.View.{Looked};
ghost use Rattle.h5w_looks.specs.Still.{IsStill};
ghost use Rattle.h5w_reader.specs.Cores as cores;
ghost use Rattle.h5w_reader.specs.Readers.{StepTells};
ghost use Rattle.h5w_reader.specs.declared.step.Step.TheVariants as steps;
ghost use Rattle.h5w_answers.specs.Answering.{AnswersCall, evaluated};

use h5w_image::{Failed, Piece, PieceRead};
use h5w_reader::{ReaderCore, Step};

/// Each of a slice's bytes is below 256.
fn are_bytes(bytes: &[u8])
    ensures { AreBytes bytes.now }
{}

/// Takes the looks of the reader's unfinished call to its answer. The image's failure is its only refusal. Each look takes one of
/// `looks`, as long as some are left.
pub fn answer<I: PieceRead>(
    reader: &mut ReaderCore,
    image: &mut I,
    looks: &mut u64,
) -> Result<Step, Failed>
    requires { IsSome (wanted (cores.reader reader.old).left) }
    ensures looked { Looked (I.view image.old) (I.view image.new) }
    ensures cause { OnErr result (Rose (I.view image.old).faults (I.view image.new).faults) }
    ensures ended { IfOk result (λ step. step ≢ steps.More) }
    ensures answers { IfOk result (λ step. AnswersCall (cores.reader reader.old) step (cores.reader reader.new)) }
    ensures exact { IfOk result (λ step. (img : List ℕ) → IsStill (I.view image.old) img → StepTells (option_map (evaluated img) (cores.reader reader.old).left) (cores.reader reader.old) step (cores.reader reader.new)) }
    ensures fewer { looks.new ≤ looks.old - 1 }
{
    let mut piece = Piece::new();
    loop {
        let Some(look) = reader.want() else {
            unreachable!()
        };
        *looks = looks.saturating_sub(1);
        image.look(look.at, look.len, &mut piece)?;
        // That the looks come to an end rests on this: what each gives is bytes.
        are_bytes(piece.as_slice());
        match reader.give(&piece) {
            Step::More => {}
            step => return Ok(step),
        }
    }
}
