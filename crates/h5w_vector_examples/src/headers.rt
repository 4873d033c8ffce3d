//! Files with headers, links and messages of some forms.

ghost use Rattle.std.specs.Prelude.{[], ◌∷◌, ◌++◌, replicate, pos};
ghost use Rattle.h5w_model.specs.Messages.{unsupported};
ghost use Rattle.h5w_model.specs.Findings.{found, bad_root, no_link, unsupported_dataset};
ghost use Rattle.h5w_model.specs.declared.refusal.ReadError.TheVariants.{Damaged, Header, Link, Unsupported};
ghost use Rattle.h5w_model.specs.declared.refusal.BlockFault.TheVariants.{Cut, Sum};
ghost use Rattle.h5w_model.specs.declared.refusal.HeaderError.TheVariants.{Continuations, Unknown};
ghost use Rattle.h5w_model.specs.declared.refusal.LinkError.TheVariants.{Dense, Malformed, NoSuchName, NotHard};
ghost use Rattle.h5w_vector_examples.specs.HeaderFiles.{block_in_place_file, dense_links_file, filtered_file, full_link_file, full_link_reading, gap_file, huge_chunk_file, long_dataset_header_file, long_root_file, long_root_reading, misspelt_link_file, most_blocks_file, most_blocks_reading, moved_dataspace_file, nested_block_file, no_gap_file, no_rows_reading, older_superblock_file, other_link_file, shared_layout_file, short_block_file, soft_link_file, too_many_blocks_file, tracked_file, tracked_reading, two_layouts_file, two_layouts_reading};
ghost use Rattle.h5w_vector_examples.specs.DamagedFiles.{last_chunk_reading};
ghost use Rattle.h5w_vector_examples.specs.Readings.{IsRefusedFile, IsValidFile, summary_as};

/// A superblock of version 2, whose flags say nothing.
pub fn superblocks()
    ensures older_superblock { IsValidFile older_superblock_file last_chunk_reading (replicate 52 (pos 0) ++ pos 7 ∷ []) (summary_as 53 1 6 849 12) }
{}

/// Continuation blocks: in place of their message, one of a block before a later one, too short, 32 of them, and 33.
pub fn continuations()
    ensures block_in_place { IsValidFile block_in_place_file no_rows_reading [] (summary_as 0 0 4 282 53) }
    ensures nested_block { IsRefusedFile nested_block_file (Damaged 200 (Sum (record { stored = 2851717839; computed = 2834940623 }))) (found bad_root 48) }
    ensures short_block { IsRefusedFile short_block_file (Damaged 140 (Cut 8 7)) (found bad_root 48) }
    ensures most_blocks { IsValidFile most_blocks_file most_blocks_reading [] (summary_as 0 0 35 1395 317) }
    ensures too_many_blocks { IsRefusedFile too_many_blocks_file (Header 48 Continuations) (found bad_root 48) }
{}

/// Headers: a gap of three bytes, four bytes that are a message, more than 512 bytes, and creation orders, phase values
/// and times.
pub fn header_forms()
    ensures gap { IsValidFile gap_file no_rows_reading [] (summary_as 0 0 3 282 97) }
    ensures no_gap { IsRefusedFile no_gap_file (Header 48 (Unknown 64)) (found bad_root 48) }
    ensures long_root { IsValidFile long_root_file long_root_reading [] (summary_as 0 0 3 782 95) }
    ensures tracked { IsValidFile tracked_file tracked_reading (pos 0 ∷ pos 0 ∷ []) (summary_as 2 0 3 282 69) }
{}

/// Links: with every field that may be left out, a soft one, links in a heap, a misspelt one, and one of another name.
pub fn links()
    ensures full_link { IsValidFile full_link_file full_link_reading (pos 0 ∷ []) (summary_as 1 0 3 282 89) }
    ensures soft_link { IsRefusedFile soft_link_file (Link (NotHard 1)) (found no_link 48) }
    ensures dense_links { IsRefusedFile dense_links_file (Link Dense) (found no_link 48) }
    ensures misspelt_link { IsRefusedFile misspelt_link_file (Link (Malformed 55)) (found no_link 48) }
    ensures other_link { IsRefusedFile other_link_file (Link NoSuchName) (found no_link 48) }
{}

/// What the messages of a dataset say: chunks of 2^32 bytes, a long header with a wrong sum, a dataspace in a
/// continuation block, a filter, a shared layout, and two layouts, of which the first counts.
pub fn dataset_messages()
    ensures huge_chunk { IsRefusedFile huge_chunk_file (Unsupported (unsupported 11)) (found unsupported_dataset 106) }
    ensures long_dataset_header { IsRefusedFile long_dataset_header_file (Unsupported (unsupported 1)) (found unsupported_dataset 106) }
    ensures moved_dataspace { IsRefusedFile moved_dataspace_file (Unsupported (unsupported 4)) (found unsupported_dataset 106) }
    ensures filtered { IsRefusedFile filtered_file (Unsupported (unsupported 2)) (found unsupported_dataset 106) }
    ensures shared_layout { IsRefusedFile shared_layout_file (Unsupported (unsupported 3)) (found unsupported_dataset 106) }
    ensures two_layouts { IsValidFile two_layouts_file two_layouts_reading [] (summary_as 0 0 3 193 0) }
{}
