ghost use Rattle.std.specs.Prelude.{◌≡◌, [], ◌∷◌, Some, pos, Ok};
ghost use Rattle.h5w_model.specs.Numbers.{undefined};
ghost use Rattle.h5w_model.specs.Programs.{eval};
ghost use Rattle.h5w_model.specs.Tables.{Shows, format_limits, cells};
ghost use Rattle.h5w_model.specs.Findings.{Finds, Valid, found, bad_node, keys_not_rising, wrong_total};
ghost use Rattle.h5w_lookup_laws.specs.Files.{file_of_one, file_of_two, node_of_two, node_of_miscounted, node_of_swapped, node_of_none, node_of_wrong_total};
ghost use Rattle.h5w_lookup_laws.specs.Readings.{data_name, key_of, reading_as, summary_as};
ghost use Rattle.h5w_lookup_laws.specs.Relations.{tree_chunk};

/// In a tree of depth 1 with three leaves of one record each, five keys have addresses, and a sixth has none.
pub fn five_keys()
    ensures first { eval (file_of_one node_of_two) (tree_chunk 206 (key_of 0 0)) ≡ Ok 8436 }
    ensures second { eval (file_of_one node_of_two) (tree_chunk 206 (key_of 0 1)) ≡ Ok 8437 }
    ensures third { eval (file_of_one node_of_two) (tree_chunk 206 (key_of 1 0)) ≡ Ok 8438 }
    ensures fourth { eval (file_of_one node_of_two) (tree_chunk 206 (key_of 1 1)) ≡ Ok 8439 }
    ensures fifth { eval (file_of_one node_of_two) (tree_chunk 206 (key_of 2 0)) ≡ Ok 8440 }
    ensures sixth { eval (file_of_one node_of_two) (tree_chunk 206 (key_of 2 1)) ≡ Ok undefined }
{}

/// The file reads as the five values and the fill, and is valid.
pub fn tree_of_depth_1()
    ensures shows { Shows format_limits (file_of_one node_of_two) data_name (reading_as (8436 ∷ 8437 ∷ 8438 ∷ 8439 ∷ 8440 ∷ undefined ∷ [])) }
    ensures cells { cells (file_of_one node_of_two) (reading_as (8436 ∷ 8437 ∷ 8438 ∷ 8439 ∷ 8440 ∷ undefined ∷ [])) ≡ Some (pos 1) ∷ Some (pos 2) ∷ Some (pos 3) ∷ Some (pos 4) ∷ Some (pos 5) ∷ Some (pos 0) ∷ [] }
    ensures valid { Valid (file_of_one node_of_two) data_name (summary_as 8 8441) }
{}

/// With one level more, whose root has no record of its own, it reads as the same.
pub fn tree_of_depth_2()
    ensures shows { Shows format_limits (file_of_two node_of_none) data_name (reading_as (10484 ∷ 10485 ∷ 10486 ∷ 10487 ∷ 10488 ∷ undefined ∷ [])) }
    ensures valid { Valid (file_of_two node_of_none) data_name (summary_as 9 10489) }
{}

/// A leaf with another count of records than its pointer says is no leaf.
pub fn miscounted_leaf()
    ensures { Finds (file_of_one node_of_miscounted) data_name (found bad_node 4340) }
{}

/// The keys of the root's records are swapped: each leaf is right, and the keys do not rise in the root.
pub fn swapped_keys()
    ensures { Finds (file_of_one node_of_swapped) data_name (found keys_not_rising 244) }
{}

/// One record more is said to stand under a child than does.
pub fn miscounted_total()
    ensures { Finds (file_of_two node_of_wrong_total) data_name (found wrong_total 244) }
{}
