//! Files that HDF5's own library wrote.

ghost use Rattle.std.specs.Prelude.{[], ◌∷◌, ◌++◌, replicate, pos, negsuc};
ghost use Rattle.h5w_model.specs.Messages.{unsupported};
ghost use Rattle.h5w_model.specs.Findings.{found, unsupported_dataset};
ghost use Rattle.h5w_model.specs.declared.refusal.ReadError.TheVariants.{Unsupported};
ghost use Rattle.h5w_vector_examples.specs.LibraryFiles.{fixed_in_tree_file, library_fixed_file, library_fixed_reading, library_grid_file, library_grid_reading, library_holes_file, library_holes_reading, library_line_file, library_line_reading, wider_maximum_file};
ghost use Rattle.h5w_vector_examples.specs.Readings.{IsRefusedFile, IsValidFile, summary_as};

/// Files that HDF5's own library wrote: a line of chunks, a grid with a fill of its own, and a line with holes.
pub fn of_library()
    ensures library_line { IsValidFile library_line_file library_line_reading (pos 1 ∷ pos 2 ∷ pos 3 ∷ []) (summary_as 3 2 5 2064 1215) }
    ensures library_grid { IsValidFile library_grid_file library_grid_reading (pos 1 ∷ negsuc 1 ∷ pos 3 ∷ pos 4 ∷ pos 5 ∷ negsuc 5 ∷ negsuc 6 ∷ negsuc 6 ∷ negsuc 6 ∷ []) (summary_as 3 2 5 6144 3579) }
    ensures library_holes { IsValidFile library_holes_file library_holes_reading ((pos 9 ∷ pos 9 ∷ pos 9 ∷ pos 9 ∷ pos 44 ∷ []) ++ replicate 55 (pos 9) ++ (pos 60 ∷ []) ++ replicate 188 (pos 9) ++ pos 249 ∷ []) (summary_as 250 3 9 2051 199) }
{}

/// A file with fixed columns that HDF5's own library wrote. It is refused where its second dimension has a maximum above
/// its size, and where its layout names a tree.
pub fn fixed_columns()
    ensures library_fixed { IsValidFile library_fixed_file library_fixed_reading (pos 1 ∷ negsuc 1 ∷ pos 3 ∷ pos 4 ∷ pos 5 ∷ negsuc 5 ∷ pos 0 ∷ pos 0 ∷ negsuc 6 ∷ []) (summary_as 3 3 5 2060 1215) }
    ensures wider_maximum { IsRefusedFile wider_maximum_file (Unsupported (unsupported 6)) (found unsupported_dataset 195) }
    ensures fixed_in_tree { IsRefusedFile fixed_in_tree_file (Unsupported (unsupported 12)) (found unsupported_dataset 195) }
{}
