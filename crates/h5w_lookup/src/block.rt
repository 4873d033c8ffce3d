//! A block behind those in place: its bytes, and what they say.
ghost use Rattle.std.specs.Prelude.{◌≡◌, ◌+◌, ◌≤◌, ◌<◌, ◌^◌, length, Ok};
ghost use Rattle.h5w_model.specs.Arrays.{eadb_at, easb_at, slots_fields, slots_len};
ghost use Rattle.h5w_model.specs.Trees.{capacity_of};
ghost use Rattle.std.proofs.Props.{props};
ghost use Rattle.h5w_lookup.specs.Blocks.{IsRead, node_at};
ghost use Rattle.h5w_bt.specs.Lengths.{node_len};
ghost use Rattle.h5w_lookup.specs.Contents.{bytes_in};

use crate::addresses::Addresses;
use crate::content::Content;
use h5w_bt::{Btin, Btlf, node_len};
use h5w_ea::slots_len;
use h5w_model::BlockFault;
use std::alloc::Global;

/// The kind of a data block, whose slots are addresses of chunks.
pub const DATA: u8 = 0;

/// The kind of a secondary block, whose slots are addresses of data blocks.
pub const SECOND: u8 = 1;

/// The kind of a leaf of a tree; that of an inner node is so much more as its depth.
const LEAF: u8 = 2;

/// A block that was looked at.
#[derive(Drop)]
pub struct Block {
    pub kind: u8,
    /// Where it stands.
    pub place: u64,
    /// How many bytes it has.
    pub len: u64,
    /// What its bytes say.
    pub content: Content,
    ghost read: { IsRead kind place len (bytes_in content) content } by { Prim.hlevel props },
    ghost small: { len < 2 ^ 32 },
    ghost low: { place < 2 ^ 64 },
}

/// The kind of a node of a depth.
pub fn node_kind(depth: u64) -> u8
    requires { depth ≤ 3 }
    ensures { result ≡ 2 + depth }
{
    LEAF + depth as u8
}

impl Block {
    ghost use Rattle.h5w_model.specs.Tables.{data_block, secondary_block, tree_leaf, tree_node};
    ghost use Rattle.h5w_model.specs.Trees.{btlf_at, btin_at, btlf_len, btin_len};
    ghost use Rattle.h5w_lookup.specs.Stores.{IsBlock, IsBlockOf};

    /// The data block of `n` slots at a place, by its bytes, which passed their tests.
    pub fn data(place: u64, n: u64, bytes: Vec<u8>) -> Block
        requires slots { n ≤ 1024 }
        requires passed { eadb_at bytes.items place n ≡ Ok (slots_fields bytes.items n) }
        ensures { IsBlockOf data_block place (slots_len n) bytes.items result }
    {
        let addresses = Addresses {
            bytes,
            n: n as usize,
        };
        Block {
            kind: DATA,
            place,
            len: slots_len(n),
            content: Content::Slots(addresses),
        }
    }

    /// The secondary block of `n` slots at a place, by its bytes, which passed their tests.
    pub fn second(place: u64, n: u64, bytes: Vec<u8>) -> Block
        requires slots { n ≤ 1024 }
        requires passed { easb_at bytes.items place n ≡ Ok (slots_fields bytes.items n) }
        ensures { IsBlockOf secondary_block place (slots_len n) bytes.items result }
    {
        let addresses = Addresses {
            bytes,
            n: n as usize,
        };
        Block {
            kind: SECOND,
            place,
            len: slots_len(n),
            content: Content::Slots(addresses),
        }
    }

    /// The leaf of `n` records at a place, by its bytes.
    fn leaf(alloc: Global, place: u64, n: u64, bytes: Vec<u8>) -> Result<Block, BlockFault>
        requires below { place + length bytes.items ≤ 2 ^ 64 }
        requires records { n ≤ 84 }
        ensures { IsBlock tree_leaf place (btlf_len n) bytes.items (btlf_at bytes.items place n) result }
    {
        let Btlf { records } = match Btlf::decode(alloc, &bytes, place, n) {
            Ok(block) => block,
            Err(fault) => return Err(fault),
        };
        Ok(Block {
            kind: LEAF,
            place,
            len: node_len(0, n),
            content: Content::Leaf(records, bytes),
        })
    }

    /// The inner node of this depth with `n` records at a place, by its bytes.
    fn inner(
        alloc: Global,
        place: u64,
        depth: u64,
        n: u64,
        bytes: Vec<u8>,
    ) -> Result<Block, BlockFault>
        requires below { place + length bytes.items ≤ 2 ^ 64 }
        requires deep { 1 ≤ depth }
        requires shallow { depth ≤ 3 }
        requires records { n ≤ capacity_of depth }
        requires few { n ≤ 84 }
        ensures { IsBlock (tree_node depth) place (btin_len n depth) bytes.items (btin_at bytes.items place n depth) result }
    {
        let node = match Btin::decode(alloc, &bytes, place, n, depth) {
            Ok(block) => block,
            Err(fault) => return Err(fault),
        };
        Ok(Block {
            kind: node_kind(depth),
            place,
            len: node_len(depth, n),
            content: Content::Inner(node, bytes),
        })
    }

    /// The node of this depth with `n` records at a place, by its bytes.
    pub fn node(
        alloc: Global,
        place: u64,
        depth: u64,
        n: u64,
        bytes: Vec<u8>,
    ) -> Result<Block, BlockFault>
        requires below { place + length bytes.items ≤ 2 ^ 64 }
        requires shallow { depth ≤ 3 }
        requires records { n ≤ capacity_of depth }
        requires few { n ≤ 84 }
        ensures { IsBlock (tree_node depth) place (node_len depth n) bytes.items (node_at depth bytes.items place n) result }
    {
        if depth == 0 {
            Block::leaf(alloc, place, n, bytes)
        } else {
            Block::inner(alloc, place, depth, n, bytes)
        }
    }
}
