//! Looks one by one, and as one line.

ghost use Rattle.h5w_script_laws.specs.OneByOne.{LooksOneByOne};

/// Looks of a reader that are taken one by one, until an answer comes or as many were taken as the line says, are that line:
/// the last one's reply may be given to it, and the state after it is the same.
#[tactic(auto, using(crate::proofs::OneByOneLemmas::looks_one_by_one))]
pub fn looks_one_by_one()
    ensures { LooksOneByOne }
{}
