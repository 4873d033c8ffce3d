//! The ranges of a packed file.
ghost use Rattle.std.specs.Prelude.{◌≡◌, ◌++◌, length, OnOk};
ghost use Rattle.h5w_chunks.specs.Grids.{dataset_of};
ghost use Rattle.h5w_packing.specs.Plans as plans;
ghost use Rattle.h5w_packing.specs.Plans.{chunk_tiles, front_tiles, move_tiles};

use crate::front::Front;
use crate::job::Copied;
use crate::ranges::{Ranges, kind};
use h5w_cache::Move;
use h5w_chunks::IndexKind;
use h5w_creation::{ARRAY_LEN, BLOCK_LEN, TREE_LEN};
use h5w_model::OutOfMemory;

/// Puts the ranges of a dataset header, and of the index's blocks in place.
pub fn put_front(front: &Front, ranges: &mut Ranges) -> Result<(), OutOfMemory>
    ensures { OnOk result (ranges.new ≡ ranges.old ++ front_tiles (length front.now.header) (dataset_of front.now.grid) front.now.place front.now.block) }
{
    ranges.push(front.place, front.header.len() as u64, kind::DATASET_HEADER)?;
    let index = front.grid.layout.address;
    match front.grid.layout.index {
        IndexKind::Array => {
            ranges.push(index, ARRAY_LEN, kind::INDEX_HEADER)?;
            ranges.push(front.block, BLOCK_LEN, kind::INDEX_BLOCK)
        }
        IndexKind::Tree => ranges.push(index, TREE_LEN, kind::INDEX_HEADER),
    }
}

/// Puts the ranges of the chunks.
pub fn put_chunks(chunks: &[Copied], ranges: &mut Ranges) -> Result<(), OutOfMemory>
    ensures { OnOk result (ranges.new ≡ ranges.old ++ chunk_tiles chunks.now) }
{
    for chunk in chunks {
        ranges.push(chunk.to, chunk.len, kind::CHUNK)?;
    }
    Ok(())
}

/// What a block is that an index of this kind keeps under a number, and that is written at a new place. An array keeps 65 numbers for each
/// super block, the last for its secondary block.
fn block_kind(index: IndexKind, number: u32) -> u8
    ensures { result ≡ plans.block_kind index number }
{
    match index {
        IndexKind::Array if number % 65 == 64 => kind::SECONDARY_BLOCK,
        IndexKind::Array => kind::DATA_BLOCK,
        IndexKind::Tree => kind::NODE,
    }
}

/// Puts the ranges of the blocks that are written at new places.
pub fn put_blocks(index: IndexKind, moves: &[Move], ranges: &mut Ranges) -> Result<(), OutOfMemory>
    ensures { OnOk result (ranges.new ≡ ranges.old ++ move_tiles index moves.now) }
{
    for block in moves {
        if !block.in_place {
            ranges.push(block.new, block.len, block_kind(index, block.number))?;
        }
    }
    Ok(())
}
