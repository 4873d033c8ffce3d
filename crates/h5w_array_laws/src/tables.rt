//! What is read of an array: the addresses of the needed chunks.

ghost use Rattle.h5w_array_laws.specs.ArrayTables.{ArrayTable, HeaderLooks, PlanIsRead, StandingIndex};

/// Where an array is read, so are the addresses of all needed chunks, as its map has them.
pub fn array_table()
    ensures { ArrayTable }
{}

/// Once a plan's copies are written, the array is read behind the index block that the plan will write.
pub fn plan_is_read()
    ensures { PlanIsRead }
{}

/// Where a header stands, the looks that read the blocks in place are those two blocks.
pub fn header_looks()
    ensures { HeaderLooks }
{}

/// An array that stands is an index of a dataset that names its header, within the end of the file.
pub fn standing_index()
    ensures { StandingIndex }
{}
