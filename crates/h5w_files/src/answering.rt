//! A reader's call over an image, to its answer.
ghost use Rattle.std.specs.Prelude.{◌≡◌, ◌≢◌, ◌≤◌, ◌-◌, ℕ, List, IsSome, IfErr, IfOk, OnErr, option_map};
ghost use Rattle.h5w_model.specs.Causes.{Rose};
ghost use Rattle.h5w_model.specs.Unfinished.{wanted};
ghost use Rattle.h5w_image.specs.View.{Looked};
ghost use Rattle.h5w_looks.specs.Still.{IsStill};
ghost use Rattle.h5w_reader.specs.Cores as cores;
ghost use Rattle.h5w_reader.specs.Readers.{StepTells};
ghost use Rattle.h5w_reader.specs.declared.step.Step.TheVariants as steps;
ghost use Rattle.h5w_answers.specs.Answering.{AnswersCall, evaluated};

use h5w_answers::answer;
use h5w_image::{Failed, PieceRead};
use h5w_reader::{ReaderCore, Step};
use h5w_text::ErrorLine;

/// Takes the looks of the reader's unfinished call to its answer. The disk's failure is its only refusal. Each look takes one of
/// `looks`, as long as some are left.
pub fn answered<I: PieceRead>(
    reader: &mut ReaderCore,
    image: &mut I,
    looks: &mut u64,
) -> Result<Step, ErrorLine>
    requires { IsSome (wanted (cores.reader reader.old).left) }
    ensures looked { Looked (I.view image.old) (I.view image.new) }
    ensures causes { IfErr result (λ e. e ≡ ErrorLine.Disk) }
    ensures cause { OnErr result (Rose (I.view image.old).faults (I.view image.new).faults) }
    ensures ended { IfOk result (λ step. step ≢ steps.More) }
    ensures answers { IfOk result (λ step. AnswersCall (cores.reader reader.old) step (cores.reader reader.new)) }
    ensures exact { IfOk result (λ step. (img : List ℕ) → IsStill (I.view image.old) img → StepTells (option_map (evaluated img) (cores.reader reader.old).left) (cores.reader reader.old) step (cores.reader reader.new)) }
    ensures fewer { looks.new ≤ looks.old - 1 }
{
    match answer(reader, image, looks) {
        Ok(step) => Ok(step),
        Err(Failed) => Err(ErrorLine::Disk),
    }
}
