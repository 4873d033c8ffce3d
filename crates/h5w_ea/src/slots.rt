ghost use Rattle.std.specs.Prelude.{◌≡◌, ◌⊎◌, ℕ, ◌+◌, ◌*◌, ◌<◌, ◌≤◌, ◌^◌, ◌++◌, List, length, drop};
ghost use Rattle.std.specs.List.{All};
ghost use Rattle.h5w_model.specs.Arrays.{slots_at, slots_bytes, slots_len};
ghost use Rattle.h5w_model.specs.Blocks.{Gives};
ghost use Rattle.h5w_model.specs.Numbers.{field};

use crate::fields::{check_fixed, put_head, put_numbers, read_numbers, seal_front};
use h5w_bytes::{number, put, word};
use h5w_model::BlockFault;
use h5w_sum::check_block;
use std::alloc::Global;
use std::marker::Model;

/// Version and client.
pub const FIXED: [u8; 2] = [0, 0];

/// Where the slots of a data block, or the names in a secondary block, begin.
pub const FIRST_SLOT: usize = 18;

/// How many bytes a block has beside its slots.
pub const SLOTS_FRAME: usize = 22;

/// A list of addresses; undefined is all ones.
#[derive(Drop)]
pub struct Slots {
    addresses: Vec<u64>,
}

impl Model for Slots {
    ghost use Rattle.std.specs.Prelude.{ℕ, List};

    ghost Value = { List ℕ };

    ghost view = { λ s. s.addresses.items };
}

impl Slots {
    /// These addresses, without a copy.
    pub fn from_vec(addresses: Vec<u64>) -> Slots
        ensures { result ≡ addresses.items }
    {
        Slots { addresses }
    }

    /// The addresses as a vector, without a copy.
    pub fn into_vec(self) -> Vec<u64>
        ensures { result.items ≡ self }
    {
        self.addresses
    }

    pub fn as_slice(&self) -> &[u64]
        ensures { result.now ≡ self.now }
    {
        self.addresses.as_slice()
    }
}

/// A block of slots of either kind.
pub struct Block {
    pub header: u64,
    pub offset: u32,
    pub slots: Slots,
}

impl Block {
    ghost use Rattle.h5w_ea.specs.Fields.{block_of};

    /// The block of `n` slots with this signature at the front of `b`, bytes that stand at place `at` of the image.
    pub fn decode(
        alloc: Global,
        b: &[u8],
        at: u64,
        n: u64,
        signature: &[u8; 4],
    ) -> Result<Block, BlockFault>
        requires below { at + length b.now ≤ 2 ^ 64 }
        requires slots { n ≤ 1024 }
        ensures exact { Gives block_of result (slots_at signature.now b.now at n) }
    {
        let n = n as usize;
        check_block(b, signature, SLOTS_FRAME + 8 * n)?;
        check_fixed(b, at, &FIXED)?;
        let mut addresses = vec![in alloc; 0; n]?;
        read_numbers(b, FIRST_SLOT, &mut addresses);
        Ok(Block {
            header: number(b, 6, 8),
            offset: word(b, 14),
            slots: Slots { addresses },
        })
    }
}

/// The address in slot `i` of a data block or a secondary block at the front of `b`.
pub fn slot(b: &[u8], i: usize) -> u64
    requires { slots_len (i + 1) ≤ length b.now }
    ensures { result ≡ field b.now (18 + 8 * i) 8 }
{
    number(b, FIRST_SLOT + 8 * i, 8)
}

/// Writes a block of slots to the front of `out`, and answers its length.
pub fn encode(signature: &[u8; 4], header: u64, offset: u32, slots: &[u64], out: &mut [u8]) -> usize
    requires { slots_len (length slots.now) ≤ length out.old }
    ensures len { result ≡ slots_len (length slots.now) }
    ensures spelled { out.new
        ≡ slots_bytes signature.now (record { header = header; offset = offset; slots = slots.now })
        ++ drop (slots_len (length slots.now)) out.old }
    ensures header_below { header < 2 ^ 64 }
    ensures offset_below { offset < 2 ^ 32 }
    ensures slots_below { All (λ n. n < 2 ^ 64) slots.now }
{
    put_head(out, signature, &FIXED);
    put(out, 6, 8, header);
    put(out, 14, 4, u64::from(offset));
    put_numbers(out, FIRST_SLOT, slots);
    let len = SLOTS_FRAME + 8 * slots.len();
    seal_front(out, len);
    len
}
