//! A version 2 B-tree of a session on the image of a file (HDF5 File Format Specification 3.0, "Version 2 B-trees"): what a reader and a
//! check find there, and its plan as the index's part of a flush. Each law is the clause of a function without parameters; its statement
//! is a definition in specs/. Nothing here runs.
#![tactic(auto)]

ghost use Rattle.h5w_tree_index_laws.specs.TreeFlushes.{TreeBegins, TreeFlushed, TreeIsFlush, TreePlaces, TreeRestsThen};
ghost use Rattle.h5w_tree_index_laws.specs.TreeImages.{InsertedBehind, InsertedChanges, InsertedRenews, SameBehind, TreeIsRead};
ghost use Rattle.h5w_tree_index_laws.specs.TreeDepths.{DeepIsMany, WithinIsFew};
ghost use Rattle.h5w_tree_index_laws.specs.TreeMarks.{InsertedMarks};

/// Where a tree stands, unchanged, a check behind its header finds its ranges, and a reader each key's address.
pub fn tree_is_read()
    ensures { TreeIsRead }
{}

/// With a record more, of ranges there is that of its chunk more, and none other.
pub fn inserted_behind()
    ensures { InsertedBehind }
{}

/// With a record more, or another in the place of that of its key, the range of its chunk comes, and that of the chunk that the key had
/// goes.
pub fn inserted_renews()
    ensures { InsertedRenews }
{}

/// With a record more, or another, at most seven nodes more are changed.
pub fn inserted_changes()
    ensures { InsertedChanges }
{}

/// With a record more, or another, the nodes on the way to it are changed, and no node more where they were all changed.
pub fn inserted_marks()
    ensures { InsertedMarks }
{}

/// A tree that a record more would make of depth 4 has 1,114,349 records at least.
pub fn deep_is_many()
    ensures { DeepIsMany }
{}

/// A tree has no more records than keys that they can have.
pub fn within_is_few()
    ensures { WithinIsFew }
{}

/// Trees of one map whose nodes have the same ranges have the same ranges.
pub fn same_behind()
    ensures { SameBehind }
{}

/// A tree without records stands where its header says that there is none.
pub fn tree_begins()
    ensures { TreeBegins }
{}

/// The plan of a tree's changed nodes is what a flush asks of its index.
pub fn tree_flushed()
    ensures { TreeFlushed }
{}

/// The places that a tree's plan takes and lets go are those that a flush asks for.
pub fn tree_places()
    ensures { TreePlaces }
{}

/// A flush whose index is a tree: from what a session knows and what its calls show.
pub fn tree_is_flush()
    ensures { TreeIsFlush }
{}

/// Once all pieces of such a flush are shown, the tree stands as the session keeps it.
pub fn tree_rests_then()
    ensures { TreeRestsThen }
{}
