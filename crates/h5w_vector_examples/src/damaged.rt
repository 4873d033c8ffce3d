//! Damaged files.

ghost use Rattle.std.specs.Prelude.{[], ◌∷◌, ◌++◌, replicate, pos};
ghost use Rattle.h5w_model.specs.Findings.{found, overlap, not_hdf5, bad_superblock, superblock_sum, bad_root, bad_dataset_header, chunk_past_end, block_past_end, too_many_chunks};
ghost use Rattle.h5w_model.specs.declared.refusal.ReadError.TheVariants.{Damaged, NotHdf5, Super, TooManyChunks};
ghost use Rattle.h5w_model.specs.declared.refusal.BlockFault.TheVariants.{Sum};
ghost use Rattle.h5w_model.specs.declared.refusal.SuperError.TheVariants as super_errors;
ghost use Rattle.h5w_vector_examples.specs.IndexFiles.{absent_chunks_reading};
ghost use Rattle.h5w_vector_examples.specs.DamagedFiles.{bad_dataset_header_file, bad_root_header_file, bad_superblock_file, chunks_in_node_file, chunks_in_node_reading, far_chunk_file, far_data_block_file, far_dataset_header_file, far_node_file, far_root_header_file, last_chunk_reading, other_version_file, overlapping_chunks_file, overlapping_chunks_reading, seven_bytes_file, too_many_rows_file};
ghost use Rattle.h5w_vector_examples.specs.Readings.{IsFoundFile, IsRefusedFile};

/// Seven bytes; and a superblock of another version, or with a wrong sum; a root header and a dataset header with a
/// wrong sum.
pub fn damaged_blocks()
    ensures seven_bytes { IsRefusedFile seven_bytes_file NotHdf5 (found not_hdf5 0) }
    ensures other_version { IsRefusedFile other_version_file (Super (super_errors.Version 1)) (found bad_superblock 0) }
    ensures bad_superblock { IsRefusedFile bad_superblock_file (Damaged 0 (Sum (record { stored = 478709244; computed = 478709245 }))) (found superblock_sum 0) }
    ensures bad_root_header { IsRefusedFile bad_root_header_file (Damaged 48 (Sum (record { stored = 2490941922; computed = 1171340080 }))) (found bad_root 48) }
    ensures bad_dataset_header { IsRefusedFile bad_dataset_header_file (Damaged 106 (Sum (record { stored = 2323116724; computed = 3173452191 }))) (found bad_dataset_header 106) }
{}

/// What passes the end-of-file address, which a reader does not look at: a chunk, blocks of the index, the headers; and
/// more chunks than the limit.
pub fn past_the_end()
    ensures far_chunk { IsFoundFile far_chunk_file last_chunk_reading (replicate 52 (pos 0) ++ pos 7 ∷ []) (found chunk_past_end 848) }
    ensures far_data_block { IsFoundFile far_data_block_file last_chunk_reading (replicate 52 (pos 0) ++ pos 7 ∷ []) (found block_past_end 570) }
    ensures far_node { IsFoundFile far_node_file absent_chunks_reading (pos 0 ∷ pos 0 ∷ []) (found block_past_end 338) }
    ensures far_root_header { IsFoundFile far_root_header_file last_chunk_reading (replicate 52 (pos 0) ++ pos 7 ∷ []) (found block_past_end 48) }
    ensures far_dataset_header { IsFoundFile far_dataset_header_file last_chunk_reading (replicate 52 (pos 0) ++ pos 7 ∷ []) (found block_past_end 106) }
    ensures too_many_rows { IsRefusedFile too_many_rows_file (TooManyChunks 131061 131060) (found too_many_chunks 106) }
{}

/// Two ranges that overlap: two of three chunks that each begin before the end of the one before it, and two chunks inside a node.
pub fn overlaps()
    ensures overlapping_chunks { IsFoundFile overlapping_chunks_file overlapping_chunks_reading (pos 0 ∷ pos 0 ∷ pos 0 ∷ []) (overlap 580 30 570 30) }
    ensures chunks_in_node { IsFoundFile chunks_in_node_file chunks_in_node_reading (pos 1 ∷ pos 9 ∷ pos 0 ∷ []) (overlap 345 1 338 2048) }
{}
