//! A flush, and a session over its log.

ghost use Rattle.h5w_flush_laws.specs.Knowledge.{FileOnce};
ghost use Rattle.h5w_flush_laws.specs.Flushes.{BeginKnows, EarlyBlocks, EndKnown, FlushSafe, FreedKnown, KnowsAgain, KnowsThen, RowsAloneFlush, SessionLaws, UnseenKnown};

/// In a file no two keys have one chunk, whatever the index and whoever made it.
pub fn file_once()
    ensures { FileOnce }
{}

/// What a session knows of its file that begins with it.
pub fn begin_knows()
    ensures { BeginKnows }
{}

/// The pieces of a flush are safe steps to the file with the new rows.
pub fn flush_safe()
    ensures { FlushSafe }
{}

/// Once all pieces are shown the file is known as before, and its header is the one before with the new rows.
pub fn knows_then()
    ensures { KnowsThen }
{}

/// A known file stays known where what was let go becomes free.
pub fn freed_known()
    ensures { FreedKnown }
{}

/// Once all pieces are shown and what was let go is free, the file is known as before.
pub fn knows_again()
    ensures { KnowsAgain }
{}

/// The superblock with other flags or another end leaves the file known.
pub fn end_known()
    ensures { EndKnown }
{}

/// Blocks that are written early change nothing for readers.
pub fn early_blocks()
    ensures { EarlyBlocks }
{}

/// A flush of new rows alone, whose chunks all have addresses: the index stays, and so do the places.
pub fn rows_alone_flush()
    ensures { RowsAloneFlush }
{}

/// What a session does to its log from one rest to the next, and what a stop leaves.
pub fn session_laws()
    ensures { SessionLaws }
{}

/// Writes that no reader reaches leave the file known.
pub fn unseen_known()
    ensures { UnseenKnown }
{}
