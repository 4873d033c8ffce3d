//! The first flush into a file whose version 2 B-tree is not there yet: its layout names none, and all its chunks are absent (HDF5 File
//! Format Specification 3.0, "Data Layout Message", "Version 2 B-trees"). The tree is made at new places, which no reader reaches until the
//! header's piece names it, with the rows. Each law is the clause of a function without parameters; its statement is a definition in
//! specs/. Nothing here runs.
#![tactic(auto)]

ghost use Rattle.h5w_tree_starting_laws.specs.TreeStartCalls.{TreeStartCalls};
ghost use Rattle.h5w_tree_starting_laws.specs.TreeStarting.{TreeStartIsFlush, TreeStartLeads, TreeStartRuns, UnwrittenLaws};

/// No node of a tree without records was ever written, nor of one to which records came.
pub fn unwritten_laws()
    ensures { UnwrittenLaws }
{}

/// The first flush is a flush.
pub fn tree_start_is_flush()
    ensures { TreeStartIsFlush }
{}

/// Its pieces are safe steps to the file with the new rows, the tree and its address; after them the tree rests.
pub fn tree_start_leads()
    ensures { TreeStartLeads }
{}

/// The same over a session's log.
pub fn tree_start_runs()
    ensures { TreeStartRuns }
{}

/// What the calls of a first flush give is such a flush, and these are its pieces.
pub fn tree_start_calls()
    ensures { TreeStartCalls }
{}
