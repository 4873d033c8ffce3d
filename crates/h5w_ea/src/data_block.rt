ghost use Rattle.std.specs.Prelude.{◌≡◌, ℕ, ◌+◌, ◌≤◌, ◌^◌, ◌++◌, length, drop, Ok};
ghost use Rattle.h5w_model.specs.Arrays.{eadb_at, eadb_bytes, slots_fields, slots_len};
ghost use Rattle.h5w_model.specs.Blocks.{Gives};
ghost use Rattle.h5w_model.specs.Checked.{viewed};

use crate::fields::check_fixed;
use crate::slots::{Block, FIXED, SLOTS_FRAME, Slots, encode};
use h5w_model::BlockFault;
use h5w_sum::{Front, check_block_with};
use std::alloc::Global;

const SIGNATURE: [u8; 4] = *b"EADB";

/// A data block of an array ("The Extensible Array Index").
#[derive(Drop)]
pub struct Eadb {
    /// The address of the array's header.
    pub header: u64,
    /// The number of the block's first slot, counted after the first 4 of all.
    pub offset: u32,
    /// The chunk addresses.
    pub slots: Slots,
}

impl Eadb {
    ghost use Rattle.h5w_ea.specs.Fields.{eadb_of};

    /// The data block of `n` slots at the front of `b`, bytes that stand at place `at` of the image, or the first
    /// refusal.
    pub fn decode(alloc: Global, b: &[u8], at: u64, n: u64) -> Result<Eadb, BlockFault>
        requires below { at + length b.now ≤ 2 ^ 64 }
        requires slots { n ≤ 1024 }
        ensures exact { Gives eadb_of result (eadb_at b.now at n) }
    {
        let Block {
            header,
            offset,
            slots,
        } = Block::decode(alloc, b, at, n, &SIGNATURE)?;
        Ok(Eadb {
            header,
            offset,
            slots,
        })
    }

    /// The tests of [`Eadb::decode`] alone: no slot is read. The sum is gone on with behind a front that was summed before, where it
    /// is this block's. The block's front up to place `upto` comes with the answer, where that lies further on and there is memory for
    /// it.
    pub fn check(
        alloc: Global,
        b: &[u8],
        at: u64,
        n: u64,
        old: Option<&Front>,
        upto: usize,
    ) -> Result<Option<Front>, BlockFault>
        requires below { at + length b.now ≤ 2 ^ 64 }
        requires slots { n ≤ 1024 }
        ensures exact { viewed (λ _. slots_fields b.now n) result ≡ eadb_at b.now at n }
    {
        let front = check_block_with(
            alloc,
            b,
            &SIGNATURE,
            SLOTS_FRAME + 8 * n as usize,
            old,
            upto,
        )?;
        check_fixed(b, at, &FIXED)?;
        Ok(front)
    }

    /// Writes the data block to the front of `out`, and answers its length.
    pub fn encode(&self, out: &mut [u8]) -> usize
        requires { slots_len (length self.now.slots) ≤ length out.old }
        ensures len { result ≡ slots_len (length self.now.slots) }
        ensures spelled { out.new ≡ eadb_bytes (eadb_of self.now) ++ drop (slots_len (length self.now.slots)) out.old }
        ensures reads_back { (place : ℕ) → eadb_at (eadb_bytes (eadb_of self.now)) place (length self.now.slots) ≡ Ok (eadb_of self.now) }
    {
        encode(
            &SIGNATURE,
            self.header,
            self.offset,
            self.slots.as_slice(),
            out,
        )
    }
}
