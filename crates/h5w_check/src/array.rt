//! The extensible array: its header, its index block, and the blocks behind it.
ghost use Rattle.std.specs.Prelude.{◌+◌, ◌*◌, ◌≤◌, ◌^◌, length};
ghost use Rattle.h5w_model.specs.Programs.{eval};
ghost use Rattle.h5w_model.specs.Findings.{array_visit, data_block_visit, first_visits, index_block_visit, second_visits, secondary_block_visit, visit_each};
ghost use Rattle.h5w_ea.specs.Fields.{eaib_of};
ghost use Rattle.h5w_check.specs.Ran.{Ran, Told, answering, seen};
ghost use Rattle.h5w_check.specs.Ranges.{after};
ghost use Rattle.h5w_check.specs.Blocks.{data_found, header_found, index_found, secondary_found};

use crate::block::block;
use crate::error::CheckError;
use crate::ranges::{Bounds, Ranges};
use h5w_bytes::UNDEFINED;
use h5w_ea::{
    Eadb, Eahd, Eaib, Easb, FIRST_SECONDARY, SUPER_BLOCKS, first_super_block, sizes, slots_len,
};
use h5w_image::PieceRead;
use h5w_model::BlockFault;
use std::alloc::Global;

/// The array's header is refused.
const INDEX_HEADER: u8 = 10;

/// The index block is refused.
const INDEX_BLOCK: u8 = 11;

/// A secondary block is refused.
const SECONDARY_BLOCK: u8 = 12;

/// A data block is refused.
const DATA_BLOCK: u8 = 13;

/// The chunks of the data block of `n` slots that these bytes at `at` are.
fn put_slots(
    alloc: Global,
    bounds: &Bounds,
    at: u64,
    n: u64,
    b: &[u8],
    ranges: &mut Ranges,
) -> Result<(), CheckError>
    requires below { at + length b.now ≤ 2 ^ 64 }
    requires slots { n ≤ 1024 }
    ensures { Told (data_found bounds.now.end bounds.now.chunk at n b.now ranges.old) (answering ranges.new result) }
{
    match Eadb::decode(alloc, b, at, n) {
        Ok(d) => ranges.put_chunks(bounds, d.slots.as_slice()),
        Err(BlockFault::OutOfMemory) => Err(CheckError::OutOfMemory),
        Err(_) => Err(CheckError::Finding {
            kind: DATA_BLOCK,
            at,
        }),
    }
}

/// Visits the data block of `n` slots at `at`, if it is there.
fn data_block<I: PieceRead>(
    alloc: Global,
    image: &mut I,
    bounds: &Bounds,
    n: u64,
    at: u64,
    ranges: &mut Ranges,
) -> Result<(), CheckError>
    requires { n ≤ 1024 }
    ensures { Ran (I.view image.old) (I.view image.new) (λ img. after ranges.old (eval img (data_block_visit bounds.now.end bounds.now.chunk n at))) (answering ranges.new result) }
{
    if at == UNDEFINED {
        return Ok(());
    }
    let len = slots_len(n);
    let b = block(alloc, image, bounds.end, at, len, len, ranges)?;
    put_slots(alloc, bounds, at, n, &b, ranges)
}

/// Visits the data blocks of `n` slots at these addresses.
fn data_blocks<I: PieceRead>(
    alloc: Global,
    image: &mut I,
    bounds: &Bounds,
    n: u64,
    addresses: &[u64],
    ranges: &mut Ranges,
) -> Result<(), CheckError>
    requires { n ≤ 1024 }
    ensures { Ran (I.view image.old) (I.view image.new)
        (λ img. after ranges.old (eval img (visit_each (data_block_visit bounds.now.end bounds.now.chunk n) addresses.now)))
        (answering ranges.new result) }
{
    for address in addresses {
        data_block(alloc, image, bounds, n, *address, ranges)?;
    }
    Ok(())
}

/// The secondary block of `n` addresses that these bytes at `at` are.
fn secondary_of(alloc: Global, at: u64, n: u64, b: &[u8]) -> Result<Easb, CheckError>
    requires below { at + length b.now ≤ 2 ^ 64 }
    requires slots { n ≤ 1024 }
    ensures { Told (secondary_found at n b.now) (seen (λ s. s.slots) result) }
{
    match Easb::decode(alloc, b, at, n) {
        Ok(s) => Ok(s),
        Err(BlockFault::OutOfMemory) => Err(CheckError::OutOfMemory),
        Err(_) => Err(CheckError::Finding {
            kind: SECONDARY_BLOCK,
            at,
        }),
    }
}

/// Visits the secondary block of a super block at `at`, if it is there.
fn secondary_block<I: PieceRead>(
    alloc: Global,
    image: &mut I,
    bounds: &Bounds,
    sblock: u32,
    at: u64,
    ranges: &mut Ranges,
) -> Result<(), CheckError>
    requires { sblock ≤ 12 }
    ensures { Ran (I.view image.old) (I.view image.new)
        (λ img. after ranges.old (eval img (secondary_block_visit bounds.now.end bounds.now.chunk sblock at)))
        (answering ranges.new result) }
{
    if at == UNDEFINED {
        return Ok(());
    }
    let (blocks, slots) = sizes(sblock);
    let len = slots_len(blocks);
    let b = block(alloc, image, bounds.end, at, len, len, ranges)?;
    let s = secondary_of(alloc, at, blocks, &b)?;
    data_blocks(alloc, image, bounds, slots, s.slots.as_slice(), ranges)
}

/// Visits the data blocks that the index block names.
fn first_blocks<I: PieceRead>(
    alloc: Global,
    image: &mut I,
    bounds: &Bounds,
    addresses: &[u64],
    ranges: &mut Ranges,
) -> Result<(), CheckError>
    ensures { Ran (I.view image.old) (I.view image.new)
        (λ img. after ranges.old (eval img (first_visits bounds.now.end bounds.now.chunk 0 addresses.now)))
        (answering ranges.new result) }
{
    for (i, address) in addresses.iter().enumerate() {
        let (_, slots) = sizes(first_super_block(i as u64));
        data_block(alloc, image, bounds, slots, *address, ranges)?;
    }
    Ok(())
}

/// Visits the secondary blocks that the index block names, up to the last that is known here.
fn second_blocks<I: PieceRead>(
    alloc: Global,
    image: &mut I,
    bounds: &Bounds,
    addresses: &[u64],
    ranges: &mut Ranges,
) -> Result<(), CheckError>
    ensures { Ran (I.view image.old) (I.view image.new)
        (λ img. after ranges.old (eval img (second_visits bounds.now.end bounds.now.chunk 4 addresses.now)))
        (answering ranges.new result) }
{
    let mut sblock = FIRST_SECONDARY;
    for address in addresses {
        if sblock >= SUPER_BLOCKS {
            return Ok(());
        }
        secondary_block(alloc, image, bounds, sblock, *address, ranges)?;
        sblock += 1;
    }
    Ok(())
}

/// The index block that these bytes at `at` are.
fn index_of(at: u64, b: &[u8]) -> Result<Eaib, CheckError>
    requires { at + length b.now ≤ 2 ^ 64 }
    ensures { Told (index_found at b.now) (seen eaib_of result) }
{
    match Eaib::decode(b, at) {
        Ok(e) => Ok(e),
        Err(_) => Err(CheckError::Finding {
            kind: INDEX_BLOCK,
            at,
        }),
    }
}

/// Visits the index block at `at`.
fn index_block<I: PieceRead>(
    alloc: Global,
    image: &mut I,
    bounds: &Bounds,
    at: u64,
    ranges: &mut Ranges,
) -> Result<(), CheckError>
    ensures { Ran (I.view image.old) (I.view image.new) (λ img. after ranges.old (eval img (index_block_visit bounds.now.end bounds.now.chunk at))) (answering ranges.new result) }
{
    let len = Eaib::LEN as u64;
    let b = block(alloc, image, bounds.end, at, len, len, ranges)?;
    let e = index_of(at, &b)?;
    ranges.put_chunks(bounds, &e.slots)?;
    first_blocks(alloc, image, bounds, &e.first, ranges)?;
    second_blocks(alloc, image, bounds, &e.second, ranges)
}

/// The address of the index block, by the header that these bytes at `at` are.
fn block_of(at: u64, b: &[u8]) -> Result<u64, CheckError>
    requires { at + length b.now ≤ 2 ^ 64 }
    ensures { Told (header_found at b.now) result }
{
    match Eahd::decode(b, at) {
        Ok(h) => Ok(h.block),
        Err(_) => Err(CheckError::Finding {
            kind: INDEX_HEADER,
            at,
        }),
    }
}

/// Visits the array whose header stands at `at`.
pub fn array<I: PieceRead>(
    alloc: Global,
    image: &mut I,
    bounds: &Bounds,
    at: u64,
    ranges: &mut Ranges,
) -> Result<(), CheckError>
    ensures { Ran (I.view image.old) (I.view image.new) (λ img. after ranges.old (eval img (array_visit bounds.now.end bounds.now.chunk at))) (answering ranges.new result) }
{
    let len = Eahd::LEN as u64;
    let b = block(alloc, image, bounds.end, at, len, len, ranges)?;
    let named = block_of(at, &b)?;
    if named == UNDEFINED {
        return Ok(());
    }
    index_block(alloc, image, bounds, named, ranges)
}
