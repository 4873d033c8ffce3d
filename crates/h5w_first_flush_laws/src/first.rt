//! The first flush of an index, whatever its kind.

ghost use Rattle.h5w_first_flush_laws.specs.FirstFlushes.{FirstIsFlush, FirstPieces, FirstRuns, FirstTaken, UnnamedBegins, UnnamedNowhere};

/// An index that the layout does not name has no ranges, and by it no chunk has an address.
pub fn unnamed_nowhere()
    ensures { UnnamedNowhere }
{}

/// What a session knows of such a file that begins with it.
pub fn unnamed_begins()
    ensures { UnnamedBegins }
{}

/// All new places of such a flush are taken.
pub fn first_taken()
    ensures { FirstTaken }
{}

/// It is a flush.
pub fn first_is_flush()
    ensures { FirstIsFlush }
{}

/// What it leads to over a session's log.
pub fn first_runs()
    ensures { FirstRuns }
{}

/// Its pieces, in the writer's order.
pub fn first_pieces()
    ensures { FirstPieces }
{}
