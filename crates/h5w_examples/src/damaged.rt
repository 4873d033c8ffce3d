ghost use Rattle.std.specs.Prelude.{◌≡◌, [], ◌∷◌, Some, pos};
ghost use Rattle.h5w_model.specs.Tables.{Shows, Fails, format_limits, cells};
ghost use Rattle.h5w_model.specs.Findings.{Finds, found, overlap, bad_index_block, cut_off, half_flagged};
ghost use Rattle.h5w_model.specs.declared.refusal.ReadError.TheVariants.{Damaged, NotSwmr};
ghost use Rattle.h5w_model.specs.declared.refusal.BlockFault.TheVariants.{Cut, Sum};
ghost use Rattle.h5w_examples.specs.Files.{bad_sum_file, half_flagged_file, cut_file, overlapping_file};
ghost use Rattle.h5w_examples.specs.Readings.{data_name, reading_as};

/// A wrong sum in the index block.
pub fn bad_sum()
    ensures reader { Fails format_limits bad_sum_file data_name (Damaged 260 (Sum (record { stored = 206838241; computed = 1115344127 }))) }
    ensures check { Finds bad_sum_file data_name (found bad_index_block 260) }
{}

/// Open for writing, but not for SWMR writing.
pub fn half_open()
    ensures reader { Fails format_limits half_flagged_file data_name (NotSwmr 1) }
    ensures check { Finds half_flagged_file data_name (found half_flagged 0) }
{}

/// Cut off in the index block.
pub fn cut_short()
    ensures reader { Fails format_limits cut_file data_name (Damaged 260 (Cut 298 40)) }
    ensures check { Finds cut_file data_name (found cut_off 0) }
{}

/// Two chunks at one place: a reader gets the first chunk's rows twice, the check finds it.
pub fn overlapping()
    ensures reader { Shows format_limits overlapping_file data_name (reading_as 3 188 (558 ∷ 558 ∷ [])) }
    ensures cells { cells overlapping_file (reading_as 3 188 (558 ∷ 558 ∷ [])) ≡ Some (pos 1) ∷ Some (pos 2) ∷ Some (pos 1) ∷ [] }
    ensures check { Finds overlapping_file data_name (overlap 558 8 558 8) }
{}
