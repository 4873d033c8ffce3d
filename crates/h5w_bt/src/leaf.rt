ghost use Rattle.std.specs.Prelude.{◌≡◌, ℕ, ◌+◌, ◌≤◌, ◌^◌, ◌++◌, length, drop, Ok};
ghost use Rattle.h5w_model.specs.Blocks.{Gives};
ghost use Rattle.h5w_model.specs.Trees.{btlf_at, btlf_bytes, btlf_len};

use crate::fields::{FRAME, check_node, seal_front};
use crate::records::{RECORD, Records};
use h5w_bytes::put_bytes;
use h5w_model::BlockFault;
use h5w_sum::check_block;
use std::alloc::Global;

const SIGNATURE: [u8; 4] = *b"BTLF";

/// Signature, version, type.
const HEAD: [u8; 6] = *b"BTLF\x00\x0a";

/// A leaf of a tree ("Version 2 B-trees").
#[derive(Debug, Drop)]
pub struct Btlf {
    pub records: Records,
}

impl Btlf {
    ghost use Rattle.h5w_bt.specs.Fields.{btlf_of};

    /// The leaf of `n` records at the front of `b`, bytes that stand at place `at` of the image, or the first refusal.
    pub fn decode(alloc: Global, b: &[u8], at: u64, n: u64) -> Result<Btlf, BlockFault>
        requires below { at + length b.now ≤ 2 ^ 64 }
        requires records { n ≤ 84 }
        ensures exact { Gives btlf_of result (btlf_at b.now at n) }
    {
        let n = n as usize;
        check_block(b, &SIGNATURE, FRAME + RECORD * n)?;
        check_node(b, at)?;
        Ok(Btlf {
            records: Records::read(alloc, b, n)?,
        })
    }

    /// Writes the leaf to the front of `out` up to its sum, and answers how many bytes that are.
    pub fn encode(&self, out: &mut [u8]) -> usize
        requires { btlf_len (length self.now.records) ≤ length out.old }
        ensures len { result ≡ btlf_len (length self.now.records) }
        ensures spelled { out.new ≡ btlf_bytes (btlf_of self.now) ++ drop (btlf_len (length self.now.records)) out.old }
        ensures reads_back { (place : ℕ) → btlf_at (btlf_bytes (btlf_of self.now)) place (length self.now.records) ≡ Ok (btlf_of self.now) }
    {
        put_bytes(out, 0, &HEAD);
        self.records.write(out);
        let len = FRAME + RECORD * self.records.as_slice().len();
        seal_front(out, len);
        len
    }
}
