//! Files with several names.

ghost use Rattle.std.specs.Prelude.{[], ◌∷◌, pos};
ghost use Rattle.h5w_model.specs.Findings.{AllFinds, AllValid, Valid, found, no_link, overlap, same_header};
ghost use Rattle.h5w_vector_examples.specs.LibraryFiles.{library_line_reading};
ghost use Rattle.h5w_vector_examples.specs.NamedFiles.{library_same_file, library_same_reading, library_two_b_reading, library_two_file, name_a, name_b, name_c, overlapping_two_file};
ghost use Rattle.h5w_vector_examples.specs.Readings.{IsValidFor, all_summary_as, summary_as};

/// Two datasets of one file that HDF5's own library wrote, each by itself and both together.
pub fn two_datasets()
    ensures first { IsValidFor library_two_file name_a library_line_reading (pos 1 ∷ pos 2 ∷ pos 3 ∷ []) (summary_as 3 2 5 2065 1216) }
    ensures second { IsValidFor library_two_file name_b library_two_b_reading (pos 7 ∷ []) (summary_as 1 1 5 2065 1231) }
    ensures both { AllValid library_two_file (name_a ∷ name_b ∷ []) (all_summary_as (3 ∷ 1 ∷ []) 3 8 2065 577) }
{}

/// Two hard links to one header, by HDF5's own library: a name is valid by itself, both are a finding, also before a name
/// that is not there, but not behind it.
pub fn one_header()
    ensures alone { IsValidFor library_same_file name_b library_same_reading [] (summary_as 0 0 3 463 0) }
    ensures same { AllFinds library_same_file (name_a ∷ name_b ∷ []) (found same_header 195) }
    ensures before_missing { AllFinds library_same_file (name_a ∷ name_b ∷ name_c ∷ []) (found same_header 195) }
    ensures behind_missing { AllFinds library_same_file (name_a ∷ name_c ∷ name_b ∷ []) (found no_link 48) }
{}

/// A chunk of one dataset inside one of the other: each name is valid by itself, both are an overlap.
pub fn one_in_another()
    ensures first { Valid overlapping_two_file name_a (summary_as 3 2 5 2065 1216) }
    ensures second { Valid overlapping_two_file name_b (summary_as 1 1 5 2065 1231) }
    ensures both { AllFinds overlapping_two_file (name_a ∷ name_b ∷ []) (overlap 2060 1 2056 8) }
{}
