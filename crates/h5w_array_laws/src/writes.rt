//! An array on an image while the writes of a plan come, and others between them.

ghost use Rattle.h5w_array_laws.specs.ArrayWrites.{CopiesMiss, InPlaceStands, PlanCopies, WritesLeave};

/// Writes that miss what stands of an array leave it: the header, the whole, or the blocks behind those in place.
pub fn writes_leave()
    ensures { WritesLeave }
{}

/// A plan's copies are blocks at fresh ranges, and miss all that was live or retired.
pub fn plan_copies()
    ensures { PlanCopies }
{}

/// A plan's copies miss the array as it stood.
pub fn copies_miss()
    ensures { CopiesMiss }
{}

/// Where the blocks behind stand, and the array as it was, the pieces in place make it stand as it is after the plan.
pub fn in_place_stands()
    ensures { InPlaceStands }
{}
