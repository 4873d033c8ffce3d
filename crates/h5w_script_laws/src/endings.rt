//! The most looks of a call, over any images.

ghost use Rattle.h5w_script_laws.specs.Endings.{CallsEnd};

/// Whatever the looks give, each call has no more of them than a number that its rules say.
#[tactic(auto, using(crate::proofs::EndingLemmas::calls_end))]
pub fn calls_end()
    ensures { CallsEnd }
{}
