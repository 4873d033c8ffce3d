//! What a session counts of each of its datasets.
ghost use Rattle.std.specs.Prelude.{◌≡◌, ◌≤◌, ℕ, map};
ghost use Rattle.h5w_writer.specs.Sessions.{rows_of};
ghost use Rattle.h5w_several_batches.specs.SetLines.{columns_at};
ghost use Rattle.h5w_several_appending.specs.Taken.{columns_in};

use h5w_several_writer::{Parts, SeveralWriter};

/// How many rows were appended to each dataset.
pub fn rows_each(session: &SeveralWriter) -> Parts
    ensures { result ≡ map rows_of session.now.parts }
{
    let mut rows = Parts::new();
    for d in 0..session.count() {
        rows.push(session.rows(d));
    }
    rows
}

/// How many columns each dataset has, 1 in one dimension.
pub fn columns_each(session: &SeveralWriter) -> Parts
    ensures columns { result ≡ columns_in session.now.parts }
    ensures some { (d : ℕ) → 1 ≤ columns_at result d }
{
    let mut columns = Parts::new();
    for d in 0..session.count() {
        columns.push(session.columns(d));
    }
    columns
}
