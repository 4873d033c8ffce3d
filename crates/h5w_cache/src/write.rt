//! The writes of blocks: pieces of 512 bytes and a rest.

ghost use Rattle.std.specs.Prelude.{◌≡◌, ℕ, ◌+◌, ◌/◌, ◌<◌, ◌≤◌, ◌^◌, ◌++◌, [], length, IfOk, IfSome, IsSome, vec_len, vec_capacity};
ghost use Rattle.std.specs.List.{All, sum_by};
ghost use Rattle.h5w_model.specs.Images.{pieces};
ghost use Rattle.h5w_cache.specs.Plans.{IsWritten, block_in, bytes_in, piece_count, writes_of};

use crate::block::Block;
use crate::moves::Move;
use h5w_bytes::put_pieces;
use h5w_model::{OutOfMemory, Write};
use std::alloc::Global;

/// Adds the writes of a block at its place.
fn put_block(blocks: &[Option<Block>], block_move: &Move, out: &mut Vec<Write>)
    requires written { IsWritten blocks.now block_move.now }
    requires room { vec_len out.old + piece_count block_move.now ≤ vec_capacity out.old }
    ensures items { out.new.items ≡ out.old.items ++ pieces block_move.now.new (bytes_in blocks.now block_move.now.number) }
    ensures len { vec_len out.new ≡ vec_len out.old + piece_count block_move.now }
    ensures capacity { vec_capacity out.new ≡ vec_capacity out.old }
{
    let block = blocks[block_move.number as usize].as_ref().unwrap();
    put_pieces(block_move.new, block.bytes(), out);
}

/// Adds the writes of blocks at their places.
pub fn put_all(blocks: &[Option<Block>], moves: &[Move], out: &mut Vec<Write>)
    requires written { All (IsWritten blocks.now) moves.now }
    requires room { vec_len out.old + sum_by piece_count moves.now ≤ vec_capacity out.old }
    ensures items { out.new.items ≡ out.old.items ++ writes_of blocks.now moves.now }
    ensures len { vec_len out.new ≡ vec_len out.old + sum_by piece_count moves.now }
{
    for block_move in moves {
        put_block(blocks, block_move, out);
    }
}

/// How many pieces the blocks have, where the number fits.
fn count(moves: &[Move]) -> Option<usize>
    ensures { IfSome result (λ n. n ≡ sum_by piece_count moves.now) }
{
    let mut count = 0usize;
    for block_move in moves {
        let pieces = block_move.len.checked_add(511)? / 512;
        count = count.checked_add(pieces as usize)?;
    }
    Some(count)
}

/// How many pieces these blocks have, and a list with room for their writes.
pub fn room_for(alloc: Global, moves: &[Move]) -> Result<(usize, Vec<Write>), OutOfMemory>
    ensures count { IfOk result (λ r. r.0 ≡ sum_by piece_count moves.now) }
    ensures room { IfOk result (λ r. (r.1.items ≡ []) × (r.0 ≤ vec_capacity r.1)) }
{
    let count = count(moves).ok_or(OutOfMemory)?;
    Ok((count, Vec::with_capacity(alloc, count)?))
}
