//! How many pieces each dataset has in a flush.
ghost use Rattle.std.specs.Prelude.{◌≡◌, ◌<◌, ◌≤◌, ◌∷◌, ◌++◌, [], length};

use std::marker::Model;

/// The most datasets of a session.
const MOST: usize = 8;

/// A number for each dataset, at most eight.
#[derive(Drop)]
pub struct Parts {
    counts: [u64; MOST],
    len: usize,
}

impl Model for Parts {
    ghost use Rattle.std.specs.Prelude.{ℕ, ◌≤◌, List, take};

    ghost Value = { List ℕ };

    ghost view = { λ p. take p.len p.counts };

    ghost invariant = { λ p. p.len ≤ 8 };
}

impl Parts {
    /// No number.
    pub fn new() -> Parts
        ensures { result ≡ [] }
    {
        Parts {
            counts: [0; MOST],
            len: 0,
        }
    }

    /// Puts a number behind the others.
    pub fn push(&mut self, count: u64)
        requires { length self.old < 8 }
        ensures { self.new ≡ self.old ++ count ∷ [] }
    {
        self.counts[self.len] = count;
        self.len += 1;
    }

    /// The numbers, dataset after dataset.
    pub fn as_slice(&self) -> &[u64]
        ensures { result.now ≡ self.now }
    {
        &self.counts[..self.len]
    }
}
