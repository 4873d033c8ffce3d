ghost use Rattle.h5w_session_examples.specs.Orders.{BlockTooEarly, HeaderTooEarly, TakenTooEarly};

/// A header of six rows, where no block in place names the sixth chunk, leads to no moment of the flushed rows.
pub fn header_too_early()
    ensures { HeaderTooEarly }
{}

/// An index block that names a copy past the end-of-file address, before the superblock that covers it, is no safe step.
pub fn block_too_early()
    ensures { BlockTooEarly }
{}

/// A write over the first data block, which is named no more, is no safe step before the header piece.
pub fn taken_too_early()
    ensures { TakenTooEarly }
{}
