//! The way from the blocks in place to the addresses of the needed chunks.
ghost use Rattle.std.specs.Prelude.{◌≡◌, ◌≤◌};
ghost use Rattle.h5w_model.specs.Tables.{needed};
ghost use Rattle.h5w_dataset.specs.Described.{described_of};
ghost use Rattle.std.proofs.Props.{props};
ghost use Rattle.h5w_lookup.specs.Indexes.{IsIndexOf};
ghost use Rattle.h5w_lookup.specs.Seeking.{wait_at};

use crate::gather::Gather;
use crate::index::Index;
use crate::news::News;
use crate::outcome::Outcome;
use crate::store::Store;
use crate::wait::Wait;
use h5w_dataset::Dataset;
use h5w_sum::Front;

/// A descent to the chunks without a known address. The addresses of the first of them were found.
#[derive(Drop)]
pub struct Descent {
    pub dataset: Dataset,
    pub index: Index,
    /// These addresses, in the order of the chunks' keys.
    pub found: Vec<u64>,
    pub store: Store,
    /// The front of the last data block, where that has room for further chunks.
    pub front: Option<Front>,
    ghost few: { needed (described_of dataset) ≤ 1000000 },
    ghost indexed: { IsIndexOf (needed (described_of dataset)) index } by { Prim.hlevel props },
}

/// A descent that waits for a block on the way to its next chunk.
#[derive(Drop)]
pub struct Waiting {
    pub descent: Descent,
    pub wait: Wait,
    pub gather: Gather,
    ghost begins: { gather.start ≡ wait_at wait },
}

/// What a descent comes to.
pub type Descended = Outcome<News, Box<Waiting>>;
