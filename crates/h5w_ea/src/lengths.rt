//! How many slots the blocks of an array have, and how many bytes.
ghost use Rattle.std.specs.Prelude.{◌≡◌, ◌≤◌};
ghost use Rattle.h5w_model.specs.Arrays.{slots_len, super_block_of};
ghost use Rattle.h5w_model.specs.Tables.{super_block_of_first};

use crate::geometry::super_block;
use crate::slots::SLOTS_FRAME;

/// How many data blocks a super block has, and how many slots each of them.
#[tactic(auto, using(crate::proofs::SizeLemmas::few_blocks, crate::proofs::SizeLemmas::few_slots))]
pub fn sizes(sblock: u32) -> (u64, u64)
    requires { sblock ≤ 12 }
    ensures blocks { result.0 ≡ (super_block_of sblock).blocks }
    ensures slots { result.1 ≡ (super_block_of sblock).slots }
    ensures few_blocks { result.0 ≤ 1024 }
    ensures few_slots { result.1 ≤ 1024 }
{
    let (blocks, slots, _) = super_block(sblock);
    (blocks, slots)
}

/// The super block of a data block that the index block names.
pub fn first_super_block(block: u64) -> u32
    ensures exact { result ≡ super_block_of_first block }
    ensures known { result ≤ 3 }
{
    if block < 2 {
        block as u32
    } else if block < 4 {
        2
    } else {
        3
    }
}

/// How many bytes a block of `n` slots has.
pub fn slots_len(n: u64) -> u64
    requires { n ≤ 1024 }
    ensures { result ≡ slots_len n }
{
    SLOTS_FRAME as u64 + 8 * n
}
