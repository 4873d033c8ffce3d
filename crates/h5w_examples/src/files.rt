ghost use Rattle.std.specs.Prelude.{◌≡◌, [], ◌∷◌, Some, pos};
ghost use Rattle.h5w_model.specs.Numbers.{undefined};
ghost use Rattle.h5w_model.specs.Tables.{Shows, format_limits, cells};
ghost use Rattle.h5w_model.specs.Findings.{Valid};
ghost use Rattle.h5w_examples.specs.Files.{created_file, file_of_three, file_of_four, file_with_times};
ghost use Rattle.h5w_examples.specs.Readings.{data_name, reading_as, summary_as};

/// A new file shows a dataset without rows, and is valid.
pub fn new_file()
    ensures shows { Shows format_limits created_file data_name (reading_as 0 188 []) }
    ensures valid { Valid created_file data_name (summary_as 0 0 5 558) }
{}

/// With three rows it has two chunks, the last with one row.
pub fn three_rows()
    ensures shows { Shows format_limits file_of_three data_name (reading_as 3 188 (558 ∷ 566 ∷ [])) }
    ensures cells { cells file_of_three (reading_as 3 188 (558 ∷ 566 ∷ [])) ≡ Some (pos 1) ∷ Some (pos 2) ∷ Some (pos 3) ∷ [] }
    ensures valid { Valid file_of_three data_name (summary_as 3 2 5 574) }
{}

/// The fourth row went into the last chunk.
pub fn four_rows()
    ensures shows { Shows format_limits file_of_four data_name (reading_as 4 188 (558 ∷ 566 ∷ [])) }
    ensures cells { cells file_of_four (reading_as 4 188 (558 ∷ 566 ∷ [])) ≡ Some (pos 1) ∷ Some (pos 2) ∷ Some (pos 3) ∷ Some (pos 4) ∷ [] }
    ensures valid { Valid file_of_four data_name (summary_as 4 2 5 574) }
{}

/// In a file made by hand, without an index the rows are the fill. Times, attribute info and nil messages are passed over.
pub fn with_times()
    ensures shows { Shows format_limits file_with_times data_name (reading_as 3 undefined (undefined ∷ undefined ∷ [])) }
    ensures cells { cells file_with_times (reading_as 3 undefined (undefined ∷ undefined ∷ [])) ≡ Some (pos 0) ∷ Some (pos 0) ∷ Some (pos 0) ∷ [] }
    ensures valid { Valid file_with_times data_name (summary_as 3 0 3 240) }
{}
