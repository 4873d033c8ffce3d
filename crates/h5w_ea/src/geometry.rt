ghost use Rattle.std.specs.Prelude.{◌≡◌, ℕ, ◌+◌, ◌-◌, ◌<◌, ◌≤◌, slice_index_or};
ghost use Rattle.h5w_model.specs.Arrays.{place_of, slot_place_of, super_block_of, super_blocks, IsSlotPlace};
ghost use Rattle.h5w_model.specs.Tables.{format_limits};

use h5w_model::Place;

/// How many chunks an array has at most whose data blocks have no pages.
pub const CHUNKS: u64 = 131_060;

/// How many super blocks have data blocks without pages.
pub const SUPER_BLOCKS: u32 = 13;

/// The first super block with a secondary block; the index block names the data blocks of those before it.
pub const FIRST_SECONDARY: u32 = 4;

/// How many slots the index block has.
const INDEX_SLOTS: u64 = 4;

/// How many slots each data block of super block 0 has.
const FIRST_SLOTS: u64 = 16;

/// How many data blocks stand before super blocks 0 to 3, which the index block names.
pub const NAMED_BEFORE: [u64; 4] = [0, 1, 2, 4];

/// The data blocks of super block `s`, the slots of each, and the number of its first slot, counted after the
/// first 4 of all ("The Extensible Array Index"; the geometry is this project's profile).
pub fn super_block(s: u32) -> (u64, u64, u64)
    requires { s ≤ 12 }
    ensures blocks { result.0 ≡ (super_block_of s).blocks }
    ensures slots { result.1 ≡ (super_block_of s).slots }
    ensures start { result.2 ≡ (super_block_of s).start }
    ensures tabled { slice_index_or super_blocks s (super_block_of 0) ≡ super_block_of s }
{
    let start = FIRST_SLOTS * ((1 << s) - 1);
    (1 << (s / 2), FIRST_SLOTS << ((s + 1) / 2), start)
}

/// Where the slot of chunk number `i` stands ("The Extensible Array Index").
pub fn place(i: u64) -> Place
    requires { i < format_limits.array }
    ensures exact { result ≡ place_of i }
    // Behind the first 4, the slot stands inside one of the super blocks 0 to 12, and its place counts to its number.
    ensures inside { IsSlotPlace (i - 4) (slot_place_of (i - 4)) }
    ensures known { (slot_place_of (i - 4)).sblock ≤ 12 }
{
    let Some(number) = i.checked_sub(INDEX_SLOTS) else {
        return Place::Index { slot: i };
    };
    let sblock = (number / FIRST_SLOTS + 1).ilog2();
    let (_, slots, start) = super_block(sblock);
    let (block, slot) = ((number - start) / slots, (number - start) % slots);
    match NAMED_BEFORE.get(sblock as usize) {
        Some(before) => Place::Direct {
            block: before + block,
            slot,
        },
        None => Place::Second {
            sblock: u64::from(sblock),
            block,
            slot,
        },
    }
}
