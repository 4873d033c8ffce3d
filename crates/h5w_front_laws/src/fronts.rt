//! What leaves a file as one that says that it is written.

ghost use Rattle.h5w_front_laws.specs.Laws.{CallsKeepAll, CallsKeepFront, FrontStays, NewFronts};

/// The file says so after each piece that misses its superblock, or is one that says so.
#[tactic(auto, using(crate::proofs::CallFrontLemmas::front_stays))]
pub fn front_stays()
    ensures { FrontStays }
{}

/// Of a session whose superblock says so the pieces are such, those of a flush and those of rows that are written early;
/// and its superblock goes on to say so.
#[tactic(auto, using(crate::proofs::CallFrontLemmas::calls_keep_front))]
pub fn calls_keep_front()
    ensures { CallsKeepFront }
{}

/// So it is of a session of several datasets.
#[tactic(auto, using(crate::proofs::CallFrontLemmas::calls_keep_all))]
pub fn calls_keep_all()
    ensures { CallsKeepAll }
{}

/// A new file says so, and so does the superblock of the session that created it.
#[tactic(auto, using(crate::proofs::NewFrontLemmas::new_fronts))]
pub fn new_fronts()
    ensures { NewFronts }
{}
