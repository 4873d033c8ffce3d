ghost use Rattle.std.specs.Prelude.{◌≡◌, ℕ, ◌+◌, ◌≤◌, ◌^◌, ◌++◌, ◌∷◌, [], length, drop, Ok};
ghost use Rattle.h5w_model.specs.Checked.{checked, viewed};
ghost use Rattle.h5w_model.specs.Trees.{bthd_at, bthd_bytes, bthd_len};
ghost use Rattle.h5w_bt.specs.Parts.{number_test, IsHeader};

use crate::fields::{TYPE, check_number, seal_front};
use crate::geometry::{NODE, capacity};
use crate::records::RECORD;
use h5w_bytes::{number, put, put_bytes};
use h5w_model::BlockFault;
use h5w_sum::check_block;

const SIGNATURE: [u8; 4] = *b"BTHD";

/// At how many percent of its room a node is split.
const SPLIT: u8 = 100;

/// And at how many it is merged with another.
const MERGE: u8 = 40;

/// Signature, version, type, node size, record size.
const HEAD: [u8; 12] = *b"BTHD\x00\x0a\x00\x08\x00\x00\x18\x00";

/// The greatest depth of a tree.
const DEEPEST: u64 = 3;

/// A tree's header ("Version 2 B-trees").
#[derive(Clone, Copy, Debug, PartialEq, Eq)]
pub struct Bthd {
    pub depth: u64,
    /// The address of the root node; undefined where the tree is empty.
    pub root: u64,
    /// How many records the root has.
    pub records: u64,
    /// How many records the tree has.
    pub total: u64,
}

/// The tests of what stands before the depth: version, type, node size and record size.
fn check_sizes(b: &[u8], at: u64) -> Result<(), BlockFault>
    requires inside { 38 ≤ length b.now }
    requires below { at + length b.now ≤ 2 ^ 64 }
    ensures exact { result ≡ checked (number_test b.now at 4 1 0 ∷ number_test b.now at 5 1 10 ∷ number_test b.now at 6 4 2048 ∷ number_test b.now at 10 2 24 ∷ []) tt }
{
    check_number(b, at, 4, 1, 0)?;
    check_number(b, at, 5, 1, u64::from(TYPE))?;
    check_number(b, at, 6, 4, NODE as u64)?;
    check_number(b, at, 10, 2, RECORD as u64)
}

/// The tests of what stands behind the depth: split and merge percent.
fn check_percents(b: &[u8], at: u64) -> Result<(), BlockFault>
    requires inside { 38 ≤ length b.now }
    requires below { at + length b.now ≤ 2 ^ 64 }
    ensures exact { result ≡ checked (number_test b.now at 14 1 100 ∷ number_test b.now at 15 1 40 ∷ []) tt }
{
    check_number(b, at, 14, 1, u64::from(SPLIT))?;
    check_number(b, at, 15, 1, u64::from(MERGE))
}

impl Bthd {
    ghost use Rattle.h5w_bt.specs.Fields.{bthd_of};

    /// How many bytes it has.
    pub const LEN: usize = 38;

    /// The header at the front of `b`, bytes that stand at place `at` of the image, or the first refusal.
    pub fn decode(b: &[u8], at: u64) -> Result<Bthd, BlockFault>
        requires { at + length b.now ≤ 2 ^ 64 }
        ensures exact { viewed bthd_of result ≡ bthd_at b.now at }
    {
        check_block(b, &SIGNATURE, Bthd::LEN)?;
        check_sizes(b, at)?;
        let depth = number(b, 12, 2);
        if depth > DEEPEST {
            return Err(BlockFault::Field {
                at: at + 12,
                found: depth,
            });
        }
        check_percents(b, at)?;
        let records = number(b, 24, 2);
        if records > capacity(depth) {
            return Err(BlockFault::Field {
                at: at + 24,
                found: records,
            });
        }
        Ok(Bthd {
            depth,
            root: number(b, 16, 8),
            records,
            total: number(b, 26, 8),
        })
    }

    /// Writes the header to the front of `out`, and answers its length.
    pub fn encode(&self, out: &mut [u8]) -> usize
        requires form { IsHeader (bthd_of self.now) }
        requires room { 38 ≤ length out.old }
        ensures len { result ≡ bthd_len }
        ensures spelled { out.new ≡ bthd_bytes (bthd_of self.now) ++ drop bthd_len out.old }
        ensures reads_back { (place : ℕ) → bthd_at (bthd_bytes (bthd_of self.now)) place ≡ Ok (bthd_of self.now) }
    {
        put_bytes(out, 0, &HEAD);
        put(out, 12, 2, self.depth);
        put_bytes(out, 14, &[SPLIT, MERGE]);
        put(out, 16, 8, self.root);
        put(out, 24, 2, self.records);
        put(out, 26, 8, self.total);
        seal_front(out, Bthd::LEN);
        Bthd::LEN
    }
}
