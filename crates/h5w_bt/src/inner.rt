ghost use Rattle.std.specs.Prelude.{◌≡◌, ℕ, ◌+◌, ◌≤◌, ◌^◌, ◌++◌, length, drop, Ok};
ghost use Rattle.h5w_model.specs.Blocks.{Gives};
ghost use Rattle.h5w_model.specs.Trees.{btin_at, btin_bytes, btin_len, capacity_of};
ghost use Rattle.h5w_bt.specs.Parts.{IsNode, btin_tests};
ghost use Rattle.h5w_model.specs.Checked.{checked};

use crate::children::{Children, check_counts};
use crate::fields::{FIRST, FRAME, check_node, seal_front};
use crate::geometry::pointer_size;
use crate::records::{RECORD, Records};
use h5w_bytes::put_bytes;
use h5w_model::BlockFault;
use h5w_sum::check_block;
use std::alloc::Global;

const SIGNATURE: [u8; 4] = *b"BTIN";

/// Signature, version, type.
const HEAD: [u8; 6] = *b"BTIN\x00\x0a";

/// An inner node of a tree ("Version 2 B-trees").
#[derive(Debug, Drop)]
pub struct Btin {
    pub records: Records,
    /// One more than the records: those before the first, between two, and behind the last.
    pub children: Children,
}

/// The tests of a node of this depth with `n` records.
fn check(b: &[u8], at: u64, n: usize, depth: u64) -> Result<(), BlockFault>
    requires below { at + length b.now ≤ 2 ^ 64 }
    requires deep { 1 ≤ depth }
    requires shallow { depth ≤ 3 }
    requires records { n ≤ 84 }
    ensures exact { result ≡ checked (btin_tests b.now at n depth) tt }
{
    let from = FIRST + RECORD * n;
    let len = FRAME + RECORD * n + (n + 1) * pointer_size(depth);
    check_block(b, &SIGNATURE, len)?;
    check_node(b, at)?;
    check_counts(b, at, depth, n + 1, from)
}

impl Btin {
    ghost use Rattle.h5w_bt.specs.Fields.{btin_of};

    /// The inner node of this depth with `n` records at the front of `b`, bytes that stand at place `at` of the image, or the first
    /// refusal.
    pub fn decode(alloc: Global, b: &[u8], at: u64, n: u64, depth: u64) -> Result<Btin, BlockFault>
        requires below { at + length b.now ≤ 2 ^ 64 }
        requires deep { 1 ≤ depth }
        requires shallow { depth ≤ 3 }
        requires records { n ≤ capacity_of depth }
        ensures exact { Gives btin_of result (btin_at b.now at n depth) }
    {
        let n = n as usize;
        check(b, at, n, depth)?;
        Ok(Btin {
            records: Records::read(alloc, b, n)?,
            children: Children::read(alloc, b, depth, n + 1, FIRST + RECORD * n)?,
        })
    }

    /// Writes the node, whose depth this is, to the front of `out` up to its sum, and answers how many bytes that are.
    pub fn encode(&self, depth: u64, out: &mut [u8]) -> usize
        requires form { IsNode depth (btin_of self.now) }
        requires room { btin_len (length self.now.records) depth ≤ length out.old }
        ensures len { result ≡ btin_len (length self.now.records) depth }
        ensures spelled { out.new ≡ btin_bytes (btin_of self.now) depth ++ drop (btin_len (length self.now.records) depth) out.old }
        ensures reads_back { (place : ℕ) → btin_at (btin_bytes (btin_of self.now) depth) place (length self.now.records) depth ≡ Ok (btin_of self.now) }
    {
        let n = self.records.as_slice().len();
        put_bytes(out, 0, &HEAD);
        self.records.write(out);
        self.children.write(out, depth, FIRST + RECORD * n);
        let len = FRAME + RECORD * n + (n + 1) * pointer_size(depth);
        seal_front(out, len);
        len
    }
}
