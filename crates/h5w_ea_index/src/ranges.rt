//! The ranges of an array's blocks, in the order in which they are looked at.

ghost use Rattle.std.specs.Prelude.{◌≡◌, ◌≤◌, ◌++◌, ℕ, IfOk, OnOk};
ghost use Rattle.h5w_cache.specs.Stores.{place_of};
ghost use Rattle.h5w_array_laws.specs.Parts.{IsPart};
ghost use Rattle.h5w_ea_index.specs.Loading.{copied_part};
ghost use Rattle.h5w_ea_index.specs.Ranges.{block_ranges, range_from, ranges_of_data, ranges_of_super_block};
ghost use Rattle.h5w_space.specs.Ranges.{range_at};

use crate::copied::{Copied, len, number, past};
use crate::slot::{HEADER, INDEX_BLOCK};
use h5w_bytes::UNDEFINED;
use h5w_cache::Cache;
use h5w_ea::{Eahd, Eaib, FIRST_SECONDARY, SUPER_BLOCKS, super_block};
use h5w_model::OutOfMemory;
use h5w_space::Extent;
use std::alloc::Global;

/// Puts the range of the block under a number behind others, if it has a place.
fn put_range(
    cache: &Cache,
    number: u32,
    len: usize,
    ranges: &mut Vec<Extent>,
) -> Result<(), OutOfMemory>
    ensures { OnOk result (ranges.new.items ≡ ranges.old.items ++ range_at (place_of cache.now number) len) }
{
    let at = cache.place(number);
    if at != UNDEFINED {
        let size = len as u64;
        ranges.push(Extent { at, size })?;
    }
    Ok(())
}

/// Puts the range of a data block or a secondary block behind others, if it has a place and leads to a chunk number from `first` on.
fn put_part(
    cache: &Cache,
    part: Copied,
    first: u64,
    ranges: &mut Vec<Extent>,
) -> Result<(), OutOfMemory>
    requires { IsPart (copied_part part) }
    ensures { OnOk result (ranges.new.items ≡ ranges.old.items ++ range_from first cache.now (copied_part part)) }
{
    if first >= past(part) {
        return Ok(());
    }
    put_range(cache, number(part), len(part), ranges)
}

/// Puts the ranges of the data blocks of a super block behind others, of those that lead to a chunk number from `first` on.
fn put_data(
    cache: &Cache,
    sblock: u32,
    first: u64,
    ranges: &mut Vec<Extent>,
) -> Result<(), OutOfMemory>
    requires { sblock ≤ 12 }
    ensures { OnOk result (ranges.new.items ≡ ranges.old.items ++ ranges_of_data first cache.now sblock) }
{
    let (blocks, _, _) = super_block(sblock);
    let blocks = blocks as u32;
    for block in 0..blocks {
        put_part(cache, Copied::Data { sblock, block }, first, ranges)?;
    }
    Ok(())
}

/// Puts the ranges of the blocks of a super block behind others, of those that lead to a chunk number from `first` on.
fn put_super_block(
    cache: &Cache,
    sblock: u32,
    first: u64,
    ranges: &mut Vec<Extent>,
) -> Result<(), OutOfMemory>
    requires { sblock ≤ 12 }
    ensures { OnOk result (ranges.new.items ≡ ranges.old.items ++ ranges_of_super_block first cache.now sblock) }
{
    if sblock >= FIRST_SECONDARY {
        put_part(cache, Copied::Secondary { sblock }, first, ranges)?;
    }
    put_data(cache, sblock, first, ranges)
}

/// The ranges of the blocks that have places: of header and index block, and of those that lead to a chunk number from `first` on.
pub fn ranges(alloc: Global, cache: &Cache, first: u64) -> Result<Vec<Extent>, OutOfMemory>
    ensures { IfOk result (λ r. r.items ≡ block_ranges first cache.now) }
{
    let mut ranges = Vec::new(alloc);
    put_range(cache, HEADER, Eahd::LEN, &mut ranges)?;
    put_range(cache, INDEX_BLOCK, Eaib::LEN, &mut ranges)?;
    for sblock in 0..SUPER_BLOCKS {
        put_super_block(cache, sblock, first, &mut ranges)?;
    }
    Ok(ranges)
}
