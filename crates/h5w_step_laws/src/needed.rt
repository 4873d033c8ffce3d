//! The needed chunks.

ghost use Rattle.h5w_step_laws.specs.Needed.{NeededNamed, TableLaws};

/// Each needed key is one that the index is asked for.
pub fn needed_named()
    ensures { NeededNamed }
{}

/// An index has a table of the needed chunks' addresses, and those that are defined are chunks of it; a write that misses
/// its blocks leaves it.
pub fn table_laws()
    ensures { TableLaws }
{}
