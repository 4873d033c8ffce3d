//! A new array: its header and its index block.

ghost use Rattle.std.specs.Prelude.{◌≡◌, ℕ, ◌+◌, ◌*◌, ◌<◌, ◌≤◌, ◌^◌, IfOk, length, []};
ghost use Rattle.h5w_model.specs.Arrays.{eahd_bytes, eaib_bytes};
ghost use Rattle.h5w_ea.specs.Fields.{eahd_of, eaib_of};
ghost use Rattle.h5w_array_laws.specs.ArrayStores.{IsArray, IsCreated, IsNumbered, created_header, created_index};
ghost use Rattle.h5w_array_laws.specs.ArrayImages.{StartsArray};
ghost use Rattle.h5w_cache.specs.Stores.{FitsAddresses};
ghost use Rattle.h5w_ea_index.specs.Created.{IsBare, Keeps, links_to};

use crate::slot::{HEADER, INDEX_BLOCK};
use h5w_bytes::UNDEFINED;
use h5w_cache::{Block, Cache, Link, Placement};
use h5w_ea::{Eahd, Eaib};
use h5w_model::OutOfMemory;
use std::alloc::Global;

/// How many numbers blocks may have.
pub const NUMBERS: usize = 847;

/// The numbers of the blocks that the index block names: six data blocks, and the secondary blocks of the super blocks 4 to 12.
pub const NAMED: [u32; 15] = [
    0, 65, 130, 131, 195, 196, 324, 389, 454, 519, 584, 649, 714, 779, 844,
];

/// Links to these, whose addresses stand one after another from `from` on.
pub fn links(alloc: Global, from: usize, numbers: &[u32]) -> Result<Vec<Link>, OutOfMemory>
    requires { from + 8 * length numbers.now < 1000 }
    ensures { IfOk result (λ v. v.items ≡ links_to from numbers.now) }
{
    let mut links = Vec::new(alloc);
    for (i, child) in numbers.iter().enumerate() {
        let link = Link {
            offset: from + 8 * i,
            child: *child,
        };
        links.push(link)?;
    }
    Ok(links)
}

/// The bytes of a header.
fn header_bytes(alloc: Global, made: &Eahd) -> Result<Vec<u8>, OutOfMemory>
    ensures bytes { IfOk result (λ v. v.items ≡ eahd_bytes (eahd_of made.now)) }
{
    let mut bytes = vec![in alloc; 0; Eahd::LEN]?;
    made.encode(&mut bytes);
    Ok(bytes)
}

/// The bytes of an index block.
fn index_bytes(alloc: Global, made: &Eaib) -> Result<Vec<u8>, OutOfMemory>
    ensures bytes { IfOk result (λ v. v.items ≡ eaib_bytes (eaib_of made.now)) }
{
    let mut bytes = vec![in alloc; 0; Eaib::LEN]?;
    made.encode(&mut bytes);
    Ok(bytes)
}

/// The header of an array without chunks, whose index block stands at a place.
fn header_block(alloc: Global, place: u64) -> Result<Block, OutOfMemory>
    ensures { IfOk result (λ b. b ≡ created_header place) }
{
    let made = Eahd {
        numbers: [0, 0, 0, 0, 0, 4],
        block: place,
    };
    let bytes = header_bytes(alloc, &made)?;
    let links = links(alloc, 60, &[INDEX_BLOCK])?;
    let turn = u64::from(HEADER);
    Ok(Block::new(bytes, links, turn, Placement::InPlace, Eahd::LEN))
}

/// The index block of an array without chunks, whose header stands at a place.
fn index_block(alloc: Global, header: u64) -> Result<Block, OutOfMemory>
    ensures { IfOk result (λ b. b ≡ created_index header) }
{
    let made = Eaib {
        header,
        slots: [UNDEFINED; 4],
        first: [UNDEFINED; 6],
        second: [UNDEFINED; 25],
    };
    let bytes = index_bytes(alloc, &made)?;
    let links = links(alloc, Eaib::FIRST, &NAMED)?;
    let turn = u64::from(INDEX_BLOCK);
    Ok(Block::new(bytes, links, turn, Placement::InPlace, Eaib::LEN))
}

/// A store with room for so many numbers.
pub fn bare(alloc: Global, numbers: usize) -> Result<Cache, OutOfMemory>
    ensures { IfOk result (λ v. IsBare numbers v) }
{
    let mut cache = Cache::new(alloc);
    cache.reserve(numbers)?;
    Ok(cache)
}

/// Keeps a clean block at its place.
pub fn keep(cache: &mut Cache, number: u32, block: Block, place: u64)
    requires inside { number < length cache.old.blocks }
    requires each { length cache.old.places ≡ length cache.old.blocks }
    requires clean { cache.old.changed ≡ [] }
    requires fits { FitsAddresses place block }
    ensures { Keeps number block place cache.old cache.new }
{
    cache.put(number, block, place);
}

/// The store of an array without chunks, whose header stands at place `header`, and whose index block at place `block`.
pub fn create(alloc: Global, header: u64, block: u64) -> Result<Cache, OutOfMemory>
    requires header_ends { header + 72 < 2 ^ 64 }
    requires block_ends { block + 298 < 2 ^ 64 }
    ensures created { IfOk result (λ v. IsCreated header block v) }
    ensures array { IfOk result (λ v. IsArray v) }
    ensures numbered { IfOk result (λ v. IsNumbered v) }
    ensures starts { IfOk result (λ v. StartsArray v) }
{
    let index = index_block(alloc, header)?;
    let top = header_block(alloc, block)?;
    let mut cache = bare(alloc, NUMBERS)?;
    keep(&mut cache, INDEX_BLOCK, index, block);
    keep(&mut cache, HEADER, top, header);
    Ok(cache)
}
