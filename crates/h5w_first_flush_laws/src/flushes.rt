//! The first flush of such a file.

ghost use Rattle.h5w_first_flush_laws.specs.StartFlushes.{HolderChanged, NamedChanged, StartIsFlush, StartLeads, StartPart, StartPieces, StartRuns};

/// Where a block that has a chunk's slot is changed, so is the index block.
pub fn holder_changed()
    ensures { HolderChanged }
{}

/// So it is where a chunk got an address.
pub fn named_changed()
    ensures { NamedChanged }
{}

/// What the calls of an array give of such a flush.
pub fn start_part()
    ensures { StartPart }
{}

/// The pieces of the flush, in the writer's order.
pub fn start_pieces()
    ensures { StartPieces }
{}

/// It is a flush.
pub fn start_is_flush()
    ensures { StartIsFlush }
{}

/// Its pieces are safe steps to the file with the new rows, the array and its address; after them the array rests.
pub fn start_leads()
    ensures { StartLeads }
{}

/// The same over a session's log.
pub fn start_runs()
    ensures { StartRuns }
{}
