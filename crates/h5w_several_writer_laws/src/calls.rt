//! Sessions of several datasets and the logs of their files.

ghost use Rattle.h5w_several_writer_laws.specs.Bounds.{BoundsStand};
ghost use Rattle.h5w_several_writer_laws.specs.Together.{AllNamesLaws};
ghost use Rattle.h5w_several_writer_laws.specs.Laws.{CallsStand, StandingAllLaws};

/// What a session tells of each dataset of its file.
#[tactic(auto, using(crate::proofs::GiveLemmas::standing_all))]
pub fn standing_all()
    ensures { StandingAllLaws }
{}

/// What each call makes of a session is the session of the log with one more event.
#[tactic(auto, using(crate::proofs::CallLemmas::calls_stand))]
pub fn calls_stand()
    ensures { CallsStand }
{}

/// A flush has no more pieces than the loads of all datasets together, and the file grew by no more than what its plans were bound to.
#[tactic(auto, using(crate::proofs::BoundLemmas::bounds_stand))]
pub fn bounds_stand()
    ensures { BoundsStand }
{}

/// No finding applies to all names together, at each position of the log and now.
#[tactic(auto, using(crate::proofs::TogetherLemmas::all_names_laws))]
pub fn all_names()
    ensures { AllNamesLaws }
{}
