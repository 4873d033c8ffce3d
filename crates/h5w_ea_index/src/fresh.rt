//! New blocks: data blocks and secondary blocks that name nothing yet.

ghost use Rattle.std.specs.Prelude.{◌≡◌, ℕ, ◌+◌, ◌*◌, ◌<◌, ◌≤◌, ◌^◌, IfOk, length, map, replicate, vec_len};
ghost use Rattle.h5w_model.specs.Numbers.{undefined};
ghost use Rattle.h5w_model.specs.Arrays.{eadb_bytes, easb_bytes, slots_len};
ghost use Rattle.h5w_ea.specs.Fields.{eadb_of, easb_of};
ghost use Rattle.std.specs.List.{range_with_len};
ghost use Rattle.h5w_array_laws.specs.Parts.{IsPart, data_of, links_from, secondary_of};
ghost use Rattle.h5w_ea_index.specs.Fresh.{IsFresh};

use h5w_bytes::UNDEFINED;
use h5w_cache::{Block, Link, Placement};
use h5w_ea::{Eadb, Easb, FIRST_SLOT, SLOTS_FRAME, Slots, super_block};
use h5w_model::OutOfMemory;
use std::alloc::Global;

/// The turn and number of a data block.
pub fn data_number(sblock: u32, block: u32) -> u32
    requires { IsPart (data_of sblock block) }
    ensures value { result ≡ 65 * sblock + block }
    ensures below { result < 845 }
{
    65 * sblock + block
}

/// The turn and number of a secondary block.
pub fn secondary_number(sblock: u32) -> u32
    requires { IsPart (secondary_of sblock) }
    ensures value { result ≡ 65 * sblock + 64 }
    ensures below { result < 845 }
{
    65 * sblock + 64
}

/// So many addresses, none of which is defined.
fn no_addresses(alloc: Global, count: usize) -> Result<Slots, OutOfMemory>
    ensures { IfOk result (λ s. s ≡ replicate count undefined) }
{
    let addresses = vec![in alloc; UNDEFINED; count]?;
    Ok(Slots::from_vec(addresses))
}

/// The bytes of a data block of `len` bytes.
fn data_bytes(alloc: Global, made: &Eadb, len: usize) -> Result<Vec<u8>, OutOfMemory>
    requires { slots_len (length made.now.slots) ≡ len }
    ensures bytes { IfOk result (λ v. v.items ≡ eadb_bytes (eadb_of made.now)) }
    ensures len { IfOk result (λ v. vec_len v ≡ len) }
{
    let mut bytes = vec![in alloc; 0; len]?;
    made.encode(&mut bytes);
    Ok(bytes)
}

/// The bytes of a secondary block of `len` bytes.
fn secondary_bytes(alloc: Global, made: &Easb, len: usize) -> Result<Vec<u8>, OutOfMemory>
    requires { slots_len (length made.now.slots) ≡ len }
    ensures bytes { IfOk result (λ v. v.items ≡ easb_bytes (easb_of made.now)) }
    ensures len { IfOk result (λ v. vec_len v ≡ len) }
{
    let mut bytes = vec![in alloc; 0; len]?;
    made.encode(&mut bytes);
    Ok(bytes)
}

/// A data block without chunks ("The Extensible Array Index") of the array whose header stands at a place.
pub fn data_block(alloc: Global, header: u64, sblock: u32, block: u32) -> Result<Block, OutOfMemory>
    requires { IsPart (data_of sblock block) }
    ensures { IfOk result (λ b. IsFresh header (data_of sblock block) b) }
{
    let (_, slots, start) = super_block(sblock);
    let offset = (start + u64::from(block) * slots) as u32;
    let len = SLOTS_FRAME + 8 * slots as usize;
    let slots = no_addresses(alloc, slots as usize)?;
    let made = Eadb {
        header,
        offset,
        slots,
    };
    let bytes = data_bytes(alloc, &made, len)?;
    let turn = u64::from(data_number(sblock, block));
    Ok(Block::new(bytes, Vec::new(alloc), turn, Placement::Copied, len))
}

/// Links to the data blocks of a super block, whose addresses stand one after another.
pub fn links_to(alloc: Global, sblock: u32, count: u32) -> Result<Vec<Link>, OutOfMemory>
    requires sblock { sblock ≤ 12 }
    requires count { count ≤ 64 }
    ensures { IfOk result (λ v. v.items ≡ links_from 18 (map (data_of sblock) (range_with_len 0 count))) }
{
    let mut links = Vec::new(alloc);
    for block in 0..count {
        let link = Link {
            offset: FIRST_SLOT + 8 * block as usize,
            child: 65 * sblock + block,
        };
        links.push(link)?;
    }
    Ok(links)
}

/// A secondary block that names no data block ("The Extensible Array Index") of the array whose header stands at a place.
pub fn secondary_block(alloc: Global, header: u64, sblock: u32) -> Result<Block, OutOfMemory>
    requires { IsPart (secondary_of sblock) }
    ensures { IfOk result (λ b. IsFresh header (secondary_of sblock) b) }
{
    let (blocks, _, start) = super_block(sblock);
    let len = SLOTS_FRAME + 8 * blocks as usize;
    let slots = no_addresses(alloc, blocks as usize)?;
    let made = Easb {
        header,
        offset: start as u32,
        slots,
    };
    let bytes = secondary_bytes(alloc, &made, len)?;
    let links = links_to(alloc, sblock, blocks as u32)?;
    let turn = u64::from(secondary_number(sblock));
    Ok(Block::new(bytes, links, turn, Placement::Copied, len))
}
