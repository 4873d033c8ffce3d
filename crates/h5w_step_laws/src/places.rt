//! Ranges that no reader reaches.

ghost use Rattle.h5w_step_laws.specs.Plans.{UnseenPieces, PastEnd, FreePlace, OwnCells, RetiredPlace};

/// The pieces of such a range change nothing for readers.
pub fn unseen_pieces()
    ensures { UnseenPieces }
{}

/// A range past the end-of-file address.
pub fn past_end()
    ensures { PastEnd }
{}

/// A range that is apart from all that is used and held.
pub fn free_place()
    ensures { FreePlace }
{}

/// A range inside a chunk, beside the cells of the rows.
pub fn own_cells()
    ensures { OwnCells }
{}

/// After a header piece: a range that was used and is used no more.
pub fn retired_place()
    ensures { RetiredPlace }
{}
