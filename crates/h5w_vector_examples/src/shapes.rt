//! Files of some rows, columns and values.

ghost use Rattle.std.specs.Prelude.{[], ◌∷◌, replicate, pos, negsuc};
ghost use Rattle.h5w_vector_examples.specs.ShapeFiles.{big_endian_fill_file, big_endian_fill_reading, column_file, column_reading, edge_chunk_file, edge_chunk_reading, no_columns_file, no_columns_reading, square_file, square_reading, unsigned_fill_file, unsigned_fill_reading, wide_sizes_file, wide_sizes_reading};
ghost use Rattle.h5w_vector_examples.specs.Readings.{IsValidFile, summary_as};

/// Rows and columns: four cells as 2 x 2 and as 4 x 1, five rows of no columns, and an edge chunk with a column past
/// the last.
pub fn rows_and_columns()
    ensures square { IsValidFile square_file square_reading (pos 0 ∷ pos 0 ∷ pos 0 ∷ pos 0 ∷ []) (summary_as 2 0 3 206 0) }
    ensures column { IsValidFile column_file column_reading (pos 0 ∷ pos 0 ∷ pos 0 ∷ pos 0 ∷ []) (summary_as 4 0 3 206 0) }
    ensures no_columns { IsValidFile no_columns_file no_columns_reading [] (summary_as 5 0 3 200 0) }
    ensures edge_chunk { IsValidFile edge_chunk_file edge_chunk_reading (pos 1 ∷ pos 2 ∷ pos 3 ∷ pos 4 ∷ pos 5 ∷ pos 6 ∷ []) (summary_as 2 2 5 2394 94) }
{}

/// Values and sizes: a fill of -2 in 16 bits, big-endian; 255 without a sign; chunk sizes of two bytes.
pub fn values()
    ensures big_endian_fill { IsValidFile big_endian_fill_file big_endian_fill_reading (negsuc 1 ∷ negsuc 1 ∷ negsuc 1 ∷ []) (summary_as 3 0 3 194 0) }
    ensures unsigned_fill { IsValidFile unsigned_fill_file unsigned_fill_reading (pos 255 ∷ []) (summary_as 1 0 3 193 0) }
    ensures wide_sizes { IsValidFile wide_sizes_file wide_sizes_reading (replicate 301 (pos 0)) (summary_as 301 0 3 190 0) }
{}
