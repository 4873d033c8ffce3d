//! What is known of an index, whichever its kind. Each law is the clause of a function without parameters; its statement is a definition in
//! specs/. Nothing here runs.

ghost use Rattle.h5w_index.specs.Flushes.{IndexBegins, IndexIsFlush, IndexRestsThen, PlanTells, RestsForgotten, RestsFreed, RestsMissed};
ghost use Rattle.h5w_index.specs.Depths.{DepthLaws};
ghost use Rattle.h5w_index.specs.Marks.{FullBounds, MarkLaws, PlanBounds};
ghost use Rattle.h5w_index.specs.Naming.{BehindLaws, NamingLaws};
ghost use Rattle.h5w_index.specs.Placing.{IndexPart, OwnLaws, ReachLaws, RestsHeld};
ghost use Rattle.h5w_index.specs.PlacingLaws.{PlacingLaws};
ghost use Rattle.h5w_index.specs.Told.{HeldTells, LikeLaws, SameRanges, SetTells, UnsetTells};

/// Where a place is held, the map and all that stands stay.
pub fn held_tells()
    ensures { HeldTells }
{}

/// Where a chunk got an address, the map is another at its key alone, and of ranges there is its own more.
pub fn set_tells()
    ensures { SetTells }
{}

/// Where a chunk has no address any more, the map is another at its key alone, and of ranges there is none other.
pub fn unset_tells()
    ensures { UnsetTells }
{}

/// An index is like itself, and likeness goes on.
pub fn like_laws()
    ensures { LikeLaws }
{}

/// An index like another, of the same map, has the same ranges.
pub fn same_ranges()
    ensures { SameRanges }
{}

/// The blocks that changed did so for chunks that the rows that wait go into: of a clean index, and after each call for such a chunk.
pub fn mark_laws()
    ensures { MarkLaws }
{}

/// By how much a plan of such blocks raises the end of the file at most, and how many pieces it has.
pub fn plan_bounds()
    ensures { PlanBounds }
{}

/// How large the first of such blocks that has no place is at most, and where it would stand.
pub fn full_bounds()
    ensures { FullBounds }
{}

/// The chunks that rows go into get their places one after another, whether they had one or get a new one, and after a refusal the index is
/// as before; all of it raises the file by the load of these rows at most, and what has no place is bounded by that too.
pub fn placing_laws()
    ensures { PlacingLaws }
{}

/// Places that were taken one after another, for chunks that are named later, one by one: with their names the chunks are placed.
pub fn naming_laws()
    ensures { NamingLaws }
{}

/// So are places that are taken behind those of other chunks, taken before.
pub fn behind_laws()
    ensures { BehindLaws }
{}

/// Where places are held for the keys of a dataset's chunks alone, and these are few, no place is refused for want of depth.
pub fn depth_laws()
    ensures { DepthLaws }
{}

/// What a session shows of its index as the part of a flush.
pub fn index_part()
    ensures { IndexPart }
{}

/// After a flush that was refused the index rests as before.
pub fn rests_held()
    ensures { RestsHeld }
{}

/// An index that was made here stays such a one.
pub fn own_laws()
    ensures { OwnLaws }
{}

/// Readers look for each chunk that gets an address, and go on to do so.
pub fn reach_laws()
    ensures { ReachLaws }
{}

/// What each plan leaves.
pub fn plan_tells()
    ensures { PlanTells }
{}

/// A session that begins with an index that stands in its file knows the file by its map, and the index rests.
pub fn index_begins()
    ensures { IndexBegins }
{}

/// A flush, from what a session knows and what its calls show.
pub fn index_is_flush()
    ensures { IndexIsFlush }
{}

/// Once all pieces of such a flush are shown, the index rests as the session keeps it.
pub fn index_rests_then()
    ensures { IndexRestsThen }
{}

/// It rests still where what was let go becomes free.
pub fn rests_freed()
    ensures { RestsFreed }
{}

/// So it does where that is forgotten.
pub fn rests_forgotten()
    ensures { RestsForgotten }
{}

/// It rests still once a write missed the ranges of its blocks.
pub fn rests_missed()
    ensures { RestsMissed }
{}
