//! Laws over what seats know, for the crates above to use. Nothing here runs.
ghost use Rattle.h5w_shared.specs.Threads.{ReadersCall, ThroughSeats, WritersLog};

/// Looks through one reader's seat are a call over one history: at positions that never fall, each shows the image there.
#[tactic(auto, using(crate::proofs::ThreadLemmas::readers_call))]
pub fn readers_call()
    ensures { ReadersCall }
{}

/// What a session writes through the writer's seat is the pieces of its log.
#[tactic(auto, using(crate::proofs::ThreadLemmas::writers_log))]
pub fn writers_log()
    ensures { WritersLog }
{}

/// What the relations of the image traits say of the seat that a call was lent.
#[tactic(auto, using(crate::proofs::ThreadLemmas::through_seats))]
pub fn through_seats()
    ensures { ThroughSeats }
{}
