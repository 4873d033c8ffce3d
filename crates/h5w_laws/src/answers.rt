//! What an image is found to be.

ghost use Rattle.h5w_laws.specs.Answers.{OneAnswer, OneVerdict, UnstoredSteps};

/// Each image shows one reading of a name, or fails by one refusal, and never both.
#[tactic(auto, using(crate::proofs::AnswerLemmas::one_answer))]
pub fn one_answer()
    ensures { OneAnswer }
{}

/// Each image is valid for a name, with one summary, or has one first finding, and never both.
#[tactic(auto, using(crate::proofs::AnswerLemmas::one_verdict))]
pub fn one_verdict()
    ensures { OneVerdict }
{}

/// Superblock, headers and blocks in place are looked at anew in each attempt.
#[tactic(auto, using(crate::proofs::AnswerLemmas::unstored_steps))]
pub fn unstored_steps()
    ensures { UnstoredSteps }
{}
