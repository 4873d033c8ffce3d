//! Files with an array or a tree.

ghost use Rattle.std.specs.Prelude.{[], ◌∷◌, ◌++◌, replicate, pos};
ghost use Rattle.h5w_model.specs.Findings.{found, bad_index_header, bad_secondary_block, bad_data_block, keys_not_rising};
ghost use Rattle.h5w_model.specs.declared.refusal.ReadError.TheVariants.{Damaged};
ghost use Rattle.h5w_model.specs.declared.refusal.BlockFault.TheVariants.{Field};
ghost use Rattle.h5w_vector_examples.specs.IndexFiles.{array_pages_file, filtered_data_block_file, filtered_secondary_block_file, first_secondary_block_file, first_secondary_block_reading, last_of_secondary_block_file, last_of_secondary_block_reading, no_root_file, absent_chunks_reading, sixth_data_block_file, sixth_data_block_reading, third_data_block_file, tree_split_file, unsorted_leaf_file, unsorted_leaf_reading};
ghost use Rattle.h5w_vector_examples.specs.DamagedFiles.{last_chunk_reading};
ghost use Rattle.h5w_vector_examples.specs.Readings.{IsFoundFile, IsRefusedFile, IsValidFile, summary_as};

/// A chunk in a data block that the index block names, and behind a secondary block.
pub fn arrays()
    ensures third_data_block { IsValidFile third_data_block_file last_chunk_reading (replicate 52 (pos 0) ++ pos 7 ∷ []) (summary_as 53 1 6 849 12) }
    ensures sixth_data_block { IsValidFile sixth_data_block_file sixth_data_block_reading (replicate 180 (pos 0) ++ pos 7 ∷ []) (summary_as 181 1 6 1105 12) }
    ensures first_secondary_block { IsValidFile first_secondary_block_file first_secondary_block_reading (replicate 244 (pos 0) ++ pos 7 ∷ []) (summary_as 245 1 7 1159 12) }
    ensures last_of_secondary_block { IsValidFile last_of_secondary_block_file last_of_secondary_block_reading (replicate 441 (pos 0) ++ pos 7 ∷ []) (summary_as 442 1 7 1159 12) }
{}

/// A tree without a root, and a leaf whose keys do not rise: the first record that is not below the key decides.
pub fn trees()
    ensures no_root { IsValidFile no_root_file absent_chunks_reading (pos 0 ∷ pos 0 ∷ []) (summary_as 1 0 4 338 94) }
    ensures unsorted_leaf { IsFoundFile unsorted_leaf_file unsorted_leaf_reading (pos 0 ∷ pos 11 ∷ []) (found keys_not_rising 338) }
{}

/// A field of a block of an index that has another value than the form.
pub fn index_blocks()
    ensures tree_split { IsRefusedFile tree_split_file (Damaged 300 (Field 314 98)) (found bad_index_header 300) }
    ensures array_pages { IsRefusedFile array_pages_file (Damaged 200 (Field 211 11)) (found bad_index_header 200) }
    ensures filtered_data_block { IsRefusedFile filtered_data_block_file (Damaged 570 (Field 575 1)) (found bad_data_block 570) }
    ensures filtered_secondary_block { IsRefusedFile filtered_secondary_block_file (Damaged 570 (Field 575 1)) (found bad_secondary_block 570) }
{}
