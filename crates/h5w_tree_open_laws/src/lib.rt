//! A version 2 B-tree of a file that is there already, whoever made it (HDF5 File Format Specification 3.0, "Version 2 B-trees"): where a
//! session keeps it, it is a tree of a session that stands on the file's image. Each law is the clause of a function without parameters;
//! its statement is a definition in specs/. Nothing here runs.
#![tactic(auto)]

ghost use Rattle.h5w_tree_open_laws.specs.OpenedEnds.{OpenedEnds};
ghost use Rattle.h5w_tree_open_laws.specs.OpenedTrees.{OpenedIsKept, OpenedStands};

/// A tree that a session keeps, and whose nodes end by the file's end, stands.
pub fn opened_stands()
    ensures { OpenedStands }
{}

/// Where a check finds nothing, the tree is kept.
pub fn opened_is_kept()
    ensures { OpenedIsKept }
{}

/// Where a check of the tree finds nothing, each of its nodes ends by the end-of-file address.
pub fn opened_ends()
    ensures { OpenedEnds }
{}
