ghost use Rattle.std.specs.Prelude.{◌≡◌, ℕ, ◌+◌, ◌≤◌, ◌^◌, ◌++◌, length, drop, Ok};
ghost use Rattle.h5w_model.specs.Arrays.{easb_at, easb_bytes, slots_fields, slots_len};
ghost use Rattle.h5w_model.specs.Blocks.{Gives};
ghost use Rattle.h5w_model.specs.Checked.{viewed};

use crate::fields::check_fixed;
use crate::slots::{Block, FIXED, SLOTS_FRAME, Slots, encode};
use h5w_model::BlockFault;
use h5w_sum::check_block;
use std::alloc::Global;

const SIGNATURE: [u8; 4] = *b"EASB";

/// A secondary block of an array ("The Extensible Array Index").
#[derive(Drop)]
pub struct Easb {
    /// The address of the array's header.
    pub header: u64,
    /// The number of the block's first slot, counted after the first 4 of all.
    pub offset: u32,
    /// The addresses of the data blocks.
    pub slots: Slots,
}

impl Easb {
    ghost use Rattle.h5w_ea.specs.Fields.{easb_of};

    /// The secondary block of `n` addresses at the front of `b`, bytes that stand at place `at` of the image, or the first
    /// refusal.
    pub fn decode(alloc: Global, b: &[u8], at: u64, n: u64) -> Result<Easb, BlockFault>
        requires below { at + length b.now ≤ 2 ^ 64 }
        requires slots { n ≤ 1024 }
        ensures exact { Gives easb_of result (easb_at b.now at n) }
    {
        let Block {
            header,
            offset,
            slots,
        } = Block::decode(alloc, b, at, n, &SIGNATURE)?;
        Ok(Easb {
            header,
            offset,
            slots,
        })
    }

    /// The tests of [`Easb::decode`] alone: no slot is read.
    pub fn check(b: &[u8], at: u64, n: u64) -> Result<(), BlockFault>
        requires below { at + length b.now ≤ 2 ^ 64 }
        requires slots { n ≤ 1024 }
        ensures exact { viewed (λ _. slots_fields b.now n) result ≡ easb_at b.now at n }
    {
        check_block(b, &SIGNATURE, SLOTS_FRAME + 8 * n as usize)?;
        check_fixed(b, at, &FIXED)
    }

    /// Writes the secondary block to the front of `out`, and answers its length.
    pub fn encode(&self, out: &mut [u8]) -> usize
        requires { slots_len (length self.now.slots) ≤ length out.old }
        ensures len { result ≡ slots_len (length self.now.slots) }
        ensures spelled { out.new ≡ easb_bytes (easb_of self.now) ++ drop (slots_len (length self.now.slots)) out.old }
        ensures reads_back { (place : ℕ) → easb_at (easb_bytes (easb_of self.now)) place (length self.now.slots) ≡ Ok (easb_of self.now) }
    {
        encode(
            &SIGNATURE,
            self.header,
            self.offset,
            self.slots.as_slice(),
            out,
        )
    }
}
