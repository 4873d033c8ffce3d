//! The first flush of an array that is a header alone.

ghost use Rattle.h5w_first_flush_laws.specs.BlockFlushes.{BlockIsFlush, BlockLeads, BlockPieces, BlockRuns};

/// The pieces of the flush, in the writer's order.
pub fn block_pieces()
    ensures { BlockPieces }
{}

/// It is a flush.
pub fn block_is_flush()
    ensures { BlockIsFlush }
{}

/// Its pieces are safe steps to the file with the new rows and the whole array; after them the array rests.
pub fn block_leads()
    ensures { BlockLeads }
{}

/// The same over a session's log.
pub fn block_runs()
    ensures { BlockRuns }
{}
