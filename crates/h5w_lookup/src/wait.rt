//! A block that a descent waits for.
ghost use Rattle.std.specs.Prelude.{◌≡◌, ◌≤◌, ◌<◌};
ghost use Rattle.h5w_model.specs.Trees.{capacity_of};

use h5w_bt::{Key, node_len};
use h5w_ea::{sizes, slots_len};

/// A data block of `n` slots, of one of which the address is asked for.
#[derive(Clone, Copy)]
pub struct DataWait {
    pub at: u64,
    pub n: u64,
    pub slot: u64,
    ghost few: { n ≤ 1024 },
}

/// The secondary block of a super block: data block `block` of it, and a slot of that.
#[derive(Clone, Copy)]
pub struct SecondWait {
    pub at: u64,
    pub sblock: u32,
    pub block: u64,
    pub slot: u64,
    ghost known: { sblock ≤ 12 },
}

/// A node of a tree with `n` records, below which a key is looked up.
#[derive(Clone, Copy)]
pub struct NodeWait {
    /// How many levels of nodes are below it.
    pub depth: u64,
    pub key: Key,
    pub at: u64,
    pub n: u64,
    ghost shallow: { depth ≤ 3 },
    ghost few: { n ≤ capacity_of depth },
    ghost small: { n ≤ 84 },
}

/// A block that is looked at next.
#[derive(Clone, Copy)]
pub enum Wait {
    Data(DataWait),
    Second(SecondWait),
    Node(NodeWait),
}

impl Wait {
    ghost use Rattle.h5w_lookup.specs.Seeking.{wait_at, wait_len};

    /// Where it stands.
    pub fn at(&self) -> u64
        ensures { result ≡ wait_at self.now }
    {
        match self {
            Wait::Data(data) => data.at,
            Wait::Second(second) => second.at,
            Wait::Node(node) => node.at,
        }
    }

    /// How many bytes it has.
    pub fn len(&self) -> u64
        ensures exact { result ≡ wait_len self.now }
        ensures some { 0 < result }
    {
        match self {
            Wait::Data(data) => slots_len(data.n),
            Wait::Second(second) => {
                let (blocks, _) = sizes(second.sblock);
                slots_len(blocks)
            }
            Wait::Node(node) => node_len(node.depth, node.n),
        }
    }
}
