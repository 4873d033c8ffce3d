//! Datasets of one file, one beside another.

ghost use Rattle.h5w_several_laws.specs.Beside.{ApartBeside, BesideFlush, BesideHeld, BesideStays, DisjointJoined, FlushUntold, SettledApart};
ghost use Rattle.h5w_several_laws.specs.Others.{OthersKnow};

/// The ranges of two datasets do not meet.
pub fn apart_beside()
    ensures { ApartBeside }
{}

/// A flush of one dataset is a plan for another.
pub fn beside_flush()
    ensures { BesideFlush }
{}

/// So it is for one whose readers may hold more than what stands behind its blocks in place.
pub fn beside_held()
    ensures { BesideHeld }
{}

/// What stands beside a dataset stays there over its flush.
pub fn beside_stays()
    ensures { BesideStays }
{}

/// A file with other datasets beside it is one without them, and the other way round.
pub fn settled_apart()
    ensures { SettledApart }
{}

/// A flush over a file with the ranges of others is one over it without them.
pub fn flush_untold()
    ensures { FlushUntold }
{}

/// The ranges of two datasets that do not meet are told together.
pub fn disjoint_joined()
    ensures { DisjointJoined }
{}

/// Over a flush of one dataset the other ones stay known.
pub fn others_know()
    ensures { OthersKnow }
{}
