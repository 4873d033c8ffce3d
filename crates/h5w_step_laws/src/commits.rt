//! Chunk 0 after a commit.

ghost use Rattle.h5w_step_laws.specs.Commits.{RowsWritten, IndexWritten};

/// With another number of rows chunk 0 is read as the same messages, with the first dataspace's dimension 0 changed.
pub fn rows_written()
    ensures { RowsWritten }
{}

/// The same with another index address, which the first layout in chunk 0 gives.
pub fn index_written()
    ensures { IndexWritten }
{}
