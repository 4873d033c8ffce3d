//! The first flush of an array that is a header alone, by its calls.

ghost use Rattle.h5w_first_flush_laws.specs.BlockCalls.{BlockCalls, BlockPending};

/// What the calls of such a flush give is one, and these are its pieces.
pub fn block_calls()
    ensures { BlockCalls }
{}

/// A session over its log that plans such a flush: what its pending pieces are, and what they lead to.
pub fn block_pending()
    ensures { BlockPending }
{}
