//! A file after the write of a commit.

ghost use Rattle.h5w_step_laws.specs.Files.{HeaderWritable, LayoutMissed, RowsCommitted, IndexCommitted, GrowingHeader, StartingHeader};

/// The rows of each dataset header that is read can be written into its chunk 0, and the index address where the first
/// layout stands there.
pub fn header_writable()
    ensures { HeaderWritable }
{}

/// A write that misses the header's ranges leaves its layout in chunk 0.
pub fn layout_missed()
    ensures { LayoutMissed }
{}

/// After the write the header is read as the dataset with other rows, with the same ranges.
pub fn rows_committed()
    ensures { RowsCommitted }
{}

/// After the write the header is read as the dataset with other rows and with the index address, which was undefined.
pub fn index_committed()
    ensures { IndexCommitted }
{}

/// What a writer shows of the header where the rows rise: of a file at a moment.
pub fn growing_header()
    ensures { GrowingHeader }
{}

/// What a writer shows of the header where it names its index for the first time.
pub fn starting_header()
    ensures { StartingHeader }
{}
