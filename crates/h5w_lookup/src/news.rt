//! What a call for rows found.
ghost use Rattle.std.specs.Prelude.{◌≡◌, ◌≤◌, ℕ, List, Some};
ghost use Rattle.std.proofs.Props.{props};
ghost use Rattle.h5w_model.specs.Tables.{needed};
ghost use Rattle.h5w_dataset.specs.Described.{described_of};
ghost use Rattle.h5w_lookup.specs.Seen.{IsHeaderOf};

use h5w_dataset::Dataset;
use h5w_model::Bytes;
use h5w_sum::Front;

/// A dataset, and the addresses of its chunks that were not known: of those that were absent, and of those behind the known.
#[derive(Drop)]
pub struct News {
    /// The place of its header.
    pub place: u64,
    pub dataset: Dataset,
    /// These addresses, in the order of the chunks' keys; undefined where a chunk is not there.
    pub found: Vec<u64>,
    /// What counts of the look at the header, where nothing else was looked at.
    pub view: Option<Bytes>,
    /// The front of the last data block that was looked at, where that has room for further chunks.
    pub front: Option<Front>,
    ghost few: { needed (described_of dataset) ≤ 1000000 },
    ghost seen: { (v : List ℕ) → view ≡ Some v → IsHeaderOf place (described_of dataset) v } by { Prim.hlevel props },
}
