//! A worked script, as the definition takes it. Its functions do nothing.

ghost use Rattle.std.specs.Prelude.{[], ◌∷◌};
ghost use Rattle.h5w_several_script_laws.specs.Rows.{row_lines, row_replies, two_sets};
ghost use Rattle.h5w_several_script_laws.specs.Scripts.{LawfulAll};

/// Each dataset's rows come with the last piece of its own part: those of the first are there while pieces of the
/// second are pending, and a reader has the rows of the dataset that it was opened for.
#[tactic(auto, using(crate::proofs::RowLemmas::row_lawful))]
pub fn row_of_two()
    ensures { LawfulAll two_sets row_lines (row_replies (6 ∷ 5 ∷ []) 0 3) }
{}

/// A flush plans pieces for each dataset with rows that wait.
pub fn rows_without_pieces()
    ensures { LawfulAll two_sets row_lines (row_replies (11 ∷ 0 ∷ []) 0 3) → ⊥ }
{}

/// No row of the second dataset is there before the last piece of its part.
pub fn rows_come_early()
    ensures { LawfulAll two_sets row_lines (row_replies (6 ∷ 5 ∷ []) 1 3) → ⊥ }
{}

/// A reader is not answered the rows of another dataset.
pub fn rows_of_another()
    ensures { LawfulAll two_sets row_lines (row_replies (6 ∷ 5 ∷ []) 0 0) → ⊥ }
{}
