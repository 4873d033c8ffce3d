//! A call begins, and what else happens leaves it.

ghost use Rattle.h5w_script_laws.specs.Laws.{BeginLaws, OtherEventLaws};

/// An open, a refresh and a read begin at the log's last position, with what the reader knows then.
#[tactic(auto, using(crate::proofs::CallLemmas::begin_laws))]
pub fn call_begins()
    ensures { BeginLaws }
{}

/// An append, a plan and a piece leave each reader as it was, but that a piece which may bring rows is counted.
#[tactic(auto, using(crate::proofs::EventLemmas::other_event_laws))]
pub fn other_events()
    ensures { OtherEventLaws }
{}
