//! The first flush into a file of another maker whose array is not there yet, or is a header alone, so that the premises of its laws are
//! known to hold of something.
ghost use Rattle.h5w_session_examples.specs.AloneFlush.{BlockStarts, IsAloneFile};
ghost use Rattle.h5w_session_examples.specs.ArrayCalls.{ArrayStarts};
ghost use Rattle.h5w_session_examples.specs.UnnamedFlush.{IsUnnamedFlush};

/// The file of three rows without chunks is known, and a row more makes a chunk, the array and its address; its pieces are those of an
/// independent program.
pub fn unnamed_flush()
    ensures { IsUnnamedFlush }
{}

/// The calls of an array give what its first flush asks, of this file.
pub fn array_starts()
    ensures { ArrayStarts }
{}

/// The file of three rows without chunks whose array is a header alone is known.
pub fn alone_file()
    ensures { IsAloneFile }
{}

/// The calls of an array give what the first flush of that file asks.
pub fn block_starts()
    ensures { BlockStarts }
{}
