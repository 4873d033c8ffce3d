//! What a reader knows of a dataset.
ghost use Rattle.std.specs.Prelude.{◌≡◌, ◌<◌, ◌≤◌, ◌^◌, ℕ, List, Some};
ghost use Rattle.std.proofs.Props.{props};
ghost use Rattle.h5w_model.specs.Tables.{needed};
ghost use Rattle.h5w_dataset.specs.Described.{described_of};
ghost use Rattle.h5w_lookup.specs.Seen.{IsHeaderOf};
ghost use Rattle.h5w_lookup.specs.Unknown.{absent_from};

use h5w_dataset::Dataset;
use h5w_model::Bytes;
use h5w_sum::Front;

/// A dataset, and the addresses of the chunks that its rows need.
#[derive(Drop)]
pub struct Known {
    /// The place of its header.
    pub place: u64,
    pub dataset: Dataset,
    /// The addresses, in the order of the chunks' keys; undefined where a chunk is not there.
    pub table: Vec<u64>,
    /// The numbers of the chunks that are not there, in rising order.
    pub absent: Vec<usize>,
    /// What counts of a look at the header, where nothing else was looked at for what the header says.
    pub view: Option<Bytes>,
    /// The front of the data block that was summed last, of up to 8,208 bytes. The sum of a block with the same front goes on behind it, so
    /// that no answer depends on it.
    pub front: Option<Front>,
    ghost few: { needed (described_of dataset) ≤ 1000000 },
    ghost listed: { absent.items ≡ absent_from 0 table.items },
    ghost seen: { (v : List ℕ) → view ≡ Some v → IsHeaderOf place (described_of dataset) v } by { Prim.hlevel props },
}

impl Known {
    ghost use Rattle.h5w_lookup.specs.Unknown.{unknown_at};

    /// The number of the chunk without a known address before which `n` such stand.
    pub(crate) fn unknown(&self, n: usize) -> usize
        requires { n < 2 ^ 63 }
        ensures { result ≡ unknown_at self.now.table.items n }
    {
        match self.absent.get(n) {
            Some(number) => *number,
            None => self.table.len() + (n - self.absent.len()),
        }
    }
}

/// What a call for rows goes by, beside what is known.
#[derive(Clone, Copy)]
pub struct Rules {
    /// How many attempts it has.
    pub attempts: u32,
    /// The place of the dataset header.
    pub place: u64,
}
