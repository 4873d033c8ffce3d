//! Places that a session takes and lets go.

ghost use Rattle.h5w_flush_laws.specs.Copies.{CopyLaws};
ghost use Rattle.h5w_flush_laws.specs.Spaces.{CommittedLive, MoveLaws, TakenLaws};

/// A place that was taken, none, and some and then others.
pub fn taken_laws()
    ensures { TakenLaws }
{}

/// The places that a plan of a store takes, and those that its blocks leave.
pub fn move_laws()
    ensures { MoveLaws }
{}

/// What was live before the header piece is live after it.
pub fn committed_live()
    ensures { CommittedLive }
{}

/// The copies of a plan of a store are blocks at the places that it took.
pub fn copy_laws()
    ensures { CopyLaws }
{}
