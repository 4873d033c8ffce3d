//! The bytes of a block of an index.
ghost use Rattle.std.specs.Prelude.{◌≡◌, ◌+◌, ◌≤◌, ◌^◌, length, IfOk};
ghost use Rattle.h5w_check.specs.Ran.{Ran, seen};
ghost use Rattle.h5w_check.specs.Blocks.{block_found};

use crate::error::CheckError;
use crate::ranges::{BLOCK_PAST_END, Ranges, is_past};
use crate::read::read;
use h5w_image::PieceRead;
use std::alloc::Global;

/// The `len` bytes of a block at `at` that takes `room` bytes, which end by the end-of-file address. Adds its range.
pub fn block<I: PieceRead>(
    alloc: Global,
    image: &mut I,
    end: u64,
    at: u64,
    room: u64,
    len: u64,
    ranges: &mut Ranges,
) -> Result<Vec<u8>, CheckError>
    ensures ran { Ran (I.view image.old) (I.view image.new) (block_found end at room len ranges.old) (seen (λ b. (b.items, ranges.new)) result) }
    ensures inside { IfOk result (λ b. at + length b.items ≤ 2 ^ 64) }
{
    if is_past(end, at, room) {
        return Err(CheckError::Finding {
            kind: BLOCK_PAST_END,
            at,
        });
    }
    let bytes = read(alloc, image, at, len)?;
    ranges.put_block(at, room)?;
    Ok(bytes)
}
