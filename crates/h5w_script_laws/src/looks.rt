//! Looks of a call.

ghost use Rattle.h5w_script_laws.specs.Laws.{LookLaws};

/// An unfinished call wants a look. Taken at the image of now, it comes to a reply that the script may be given, and the
/// reader polls on with what it knows then.
#[tactic(auto, using(crate::proofs::LookLemmas::look_laws))]
pub fn looks_reply()
    ensures { LookLaws }
{}
