//! New rows in chunks as a part of a flush.

ghost use Rattle.h5w_flush_laws.specs.Rows.{NewChunksMore, PlacesApart, RowsAnywhere, RowsFlush};
ghost use Rattle.h5w_flush_laws.specs.EarlyRows.{EarlyRows};

/// The writes of new rows change nothing for readers, and put all cells at the places by which the index will name their chunks.
pub fn rows_flush()
    ensures { RowsFlush }
{}

/// No two of the chunks that new rows go into meet.
pub fn places_apart()
    ensures { PlacesApart }
{}

/// The new chunks of one more touched chunk.
pub fn new_chunks_more()
    ensures { NewChunksMore }
{}

/// The writes of new rows do the same for a dataset with other rows.
pub fn rows_anywhere()
    ensures { RowsAnywhere }
{}

/// The writes of rows before their flush are reached by no reader, and the file is known as before.
pub fn early_rows()
    ensures { EarlyRows }
{}
