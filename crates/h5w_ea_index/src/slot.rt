//! In which block the address of a chunk stands, and where in it.

ghost use Rattle.std.specs.Prelude.{◌≡◌, ℕ, ◌+◌, ◌*◌, ◌<◌, ◌≤◌};
ghost use Rattle.h5w_model.specs.Tables.{format_limits};
ghost use Rattle.h5w_cache.specs.Plans.{bytes_in};
ghost use Rattle.h5w_array_laws.specs.Parts.{holder, slot_offset};
ghost use Rattle.h5w_ea_index.specs.Fresh.{part_of};

use h5w_cache::Cache;
use h5w_ea::{Eaib, FIRST_SLOT, Place, place};

/// The number of the index block, and that of the header: their turns come last.
pub const INDEX_BLOCK: u32 = 845;

pub const HEADER: u32 = 846;

/// The block that has a slot.
#[derive(Clone, Copy)]
pub enum Holder {
    /// The index block.
    Index,
    /// A data block, by its super block and its number in that.
    Data { sblock: u32, block: u32 },
}

/// The slot of a chunk: eight bytes of a block.
#[derive(Clone, Copy)]
pub struct Slot {
    pub holder: Holder,
    /// Where it begins, counted from the block's first byte.
    pub offset: usize,
}

/// Super block and number in it of the data blocks that the index block names.
const NAMED: [(u32, u32); 6] = [(0, 0), (1, 0), (2, 0), (2, 1), (3, 0), (3, 1)];

/// Where the slot of chunk number `i` stands ("The Extensible Array Index").
pub fn locate(i: u64) -> Slot
    requires { i < format_limits.array }
    ensures holder { part_of result.holder ≡ holder i }
    ensures offset { result.offset ≡ slot_offset i }
{
    let (holder, begin, slot) = match place(i) {
        Place::Index { slot } => (Holder::Index, Eaib::SLOTS, slot),
        Place::Direct { block, slot } => {
            let (sblock, block) = NAMED[block as usize];
            (Holder::Data { sblock, block }, FIRST_SLOT, slot)
        }
        Place::Second {
            sblock,
            block,
            slot,
        } => {
            let (sblock, block) = (sblock as u32, block as u32);
            (Holder::Data { sblock, block }, FIRST_SLOT, slot)
        }
    };
    Slot {
        holder,
        offset: begin + 8 * slot as usize,
    }
}

/// The bytes of the block under a number, none where none is kept.
pub fn bytes(cache: &Cache, number: u32) -> &[u8]
    ensures { result.now ≡ bytes_in cache.now.blocks number }
{
    match cache.get(number) {
        Some(block) => block.bytes(),
        None => &[],
    }
}
