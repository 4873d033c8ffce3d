//! What of a known dataset serves a call.
ghost use Rattle.std.specs.Prelude.{◌≡◌, ◌+◌, ◌<◌, ◌^◌, ℕ, true};
ghost use Rattle.h5w_model.specs.Calls.{known_table, rows_seen, same_cut};
ghost use Rattle.h5w_lookup.specs.Attempts.{known_of};
ghost use Rattle.h5w_dataset.specs.Described.{described_of};
ghost use Rattle.h5w_lookup.specs.Unknown.{unknown_at};

use crate::known::Known;
use h5w_dataset::Dataset;
use h5w_sum::Front;

/// Whether the rows are cut into chunks alike.
pub fn is_cut_alike(a: &Dataset, b: &Dataset) -> bool
    ensures { result ≡ same_cut (described_of a.now) (described_of b.now) }
{
    a.shape.cols == b.shape.cols
        && a.layout.chunk.0 == b.layout.chunk.0
        && a.layout.chunk.1 == b.layout.chunk.1
}

/// The rows that were seen.
pub fn rows_seen(known: &Option<Known>) -> u64
    ensures { result ≡ rows_seen (known_of known.now) }
{
    match known {
        Some(known) => known.dataset.shape.rows,
        None => 0,
    }
}

/// The number of the `n`-th chunk (from 0) of a dataset whose address is not known.
pub fn unknown(known: &Option<Known>, d: &Dataset, n: usize) -> usize
    requires { n < 2 ^ 63 }
    ensures { result ≡ unknown_at (known_table (known_of known.now) (described_of d.now)) n }
{
    match known {
        Some(known) if is_cut_alike(&known.dataset, d) => known.unknown(n),
        _ => n,
    }
}

/// The front of the data block that was summed last.
pub fn front(known: &Option<Known>) -> Option<&Front> {
    match known {
        Some(known) => known.front.as_ref(),
        None => None,
    }
}

/// Whether all chunks of a dataset are unknown from the `n`-th on (from 0) whose address is not known.
pub fn all_unknown(known: &Option<Known>, d: &Dataset, n: usize) -> bool
    ensures { result ≡ true → (k : ℕ) → unknown_at (known_table (known_of known.now) (described_of d.now)) (n + k) ≡ unknown_at (known_table (known_of known.now) (described_of d.now)) n + k }
{
    match known {
        Some(known) if is_cut_alike(&known.dataset, d) => known.absent.len() <= n,
        _ => true,
    }
}
