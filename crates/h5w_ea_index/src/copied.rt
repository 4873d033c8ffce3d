//! The blocks that get new places with each plan: data blocks and secondary blocks ("The Extensible Array Index"), by their numbers.

ghost use Rattle.std.specs.Prelude.{◌≡◌, ◌≢◌, ℕ, ◌+◌, ◌*◌, ◌<◌, ◌≤◌, ◌^◌, IfErr, IfOk, OnOk, None, Some, length};
ghost use Rattle.h5w_model.specs.declared.refusal.BlockFault.TheVariants.{OutOfMemory as no_memory};
ghost use Rattle.h5w_array_laws.specs.Parts.{IsPart, length_of, links_of, number_of, parent};
ghost use Rattle.h5w_ea_index.specs.Fresh.{IsFresh};
ghost use Rattle.h5w_ea_index.specs.Loading.{copied_part, name_offset};
ghost use Rattle.h5w_ea_index.specs.Opened.{IsBlockOf, past, refusal_of};

use crate::fresh::{data_block, data_number, links_to, secondary_block, secondary_number};
use crate::slot::INDEX_BLOCK;
use h5w_cache::{Block, Link, Placement};
use h5w_ea::{
    Eadb, Eaib, Easb, FIRST_SECONDARY, FIRST_SLOT, NAMED_BEFORE, SLOTS_FRAME, super_block,
};
use h5w_model::{BlockFault, OutOfMemory};
use std::alloc::Global;

/// A data block or a secondary block.
#[derive(Clone, Copy)]
pub enum Copied {
    /// A data block, by its super block and its number in that.
    Data { sblock: u32, block: u32 },
    /// The secondary block of a super block.
    Secondary { sblock: u32 },
}

/// The number under which it is kept.
pub fn number(part: Copied) -> u32
    requires { IsPart (copied_part part) }
    ensures value { result ≡ number_of (copied_part part) }
    ensures below { result < 845 }
{
    match part {
        Copied::Data { sblock, block } => data_number(sblock, block),
        Copied::Secondary { sblock } => secondary_number(sblock),
    }
}

/// The number of the block that names it.
pub fn parent_number(part: Copied) -> u32
    requires { IsPart (copied_part part) }
    ensures { result ≡ number_of (parent (copied_part part)) }
{
    match part {
        Copied::Data { sblock, .. } if sblock >= FIRST_SECONDARY => secondary_number(sblock),
        _ => INDEX_BLOCK,
    }
}

/// Where its address begins in that.
pub fn name_offset(part: Copied) -> usize
    requires { IsPart (copied_part part) }
    ensures { result ≡ name_offset (copied_part part) }
{
    match part {
        Copied::Data { sblock, block } if sblock >= FIRST_SECONDARY => FIRST_SLOT
            + 8 * block as usize,
        Copied::Data { sblock, block } => {
            Eaib::FIRST + 8 * (NAMED_BEFORE[sblock as usize] as usize + block as usize)
        }
        Copied::Secondary { sblock } => Eaib::SECOND + 8 * (sblock - FIRST_SECONDARY) as usize,
    }
}

/// How many addresses it has.
fn addresses(part: Copied) -> u64
    requires { IsPart (copied_part part) }
    ensures value { 22 + 8 * result ≡ length_of (copied_part part) }
    ensures few { result ≤ 1024 }
{
    match part {
        Copied::Data { sblock, .. } => super_block(sblock).1,
        Copied::Secondary { sblock } => super_block(sblock).0,
    }
}

/// How many bytes it has.
pub fn len(part: Copied) -> usize
    requires { IsPart (copied_part part) }
    ensures value { result ≡ length_of (copied_part part) }
    ensures few { result ≤ 10000 }
{
    SLOTS_FRAME + 8 * addresses(part) as usize
}

/// One more than the greatest chunk number to whose slot it leads.
pub fn past(part: Copied) -> u64
    requires { IsPart (copied_part part) }
    ensures { result ≡ past (copied_part part) }
{
    match part {
        Copied::Data { sblock, block } => {
            let (_, slots, start) = super_block(sblock);
            4 + start + (u64::from(block) + 1) * slots
        }
        Copied::Secondary { sblock } => {
            let (blocks, slots, start) = super_block(sblock);
            4 + start + blocks * slots
        }
    }
}

/// Whether these bytes at `at` are such a block.
pub fn look_over(alloc: Global, part: Copied, bytes: &[u8], at: u64) -> Result<(), BlockFault>
    requires part { IsPart (copied_part part) }
    requires below { at + length bytes.now ≤ 2 ^ 64 }
    ensures sound { OnOk result (refusal_of (copied_part part) bytes.now at ≡ None) }
    ensures refused { IfErr result (λ f. (f ≢ no_memory) → refusal_of (copied_part part) bytes.now at ≡ Some f) }
{
    let n = addresses(part);
    match part {
        Copied::Data { .. } => {
            Eadb::decode(alloc, bytes, at, n)?;
        }
        Copied::Secondary { .. } => {
            Easb::decode(alloc, bytes, at, n)?;
        }
    }
    Ok(())
}

/// The addresses of blocks that stand in it.
fn links(alloc: Global, part: Copied) -> Result<Vec<Link>, OutOfMemory>
    requires { IsPart (copied_part part) }
    ensures { IfOk result (λ v. v.items ≡ links_of (copied_part part)) }
{
    match part {
        Copied::Data { .. } => Ok(Vec::new(alloc)),
        Copied::Secondary { sblock } => links_to(alloc, sblock, super_block(sblock).0 as u32),
    }
}

/// The block of these bytes.
pub fn block(alloc: Global, part: Copied, bytes: Vec<u8>) -> Result<Block, OutOfMemory>
    requires part { IsPart (copied_part part) }
    requires len { length bytes.items ≡ length_of (copied_part part) }
    ensures { IfOk result (λ b. IsBlockOf (copied_part part) bytes.items b) }
{
    let links = links(alloc, part)?;
    let turn = u64::from(number(part));
    let sealed = bytes.len();
    Ok(Block::new(bytes, links, turn, Placement::Copied, sealed))
}

/// One that names nothing, of the array whose header stands at a place.
pub fn empty(alloc: Global, header: u64, part: Copied) -> Result<Block, OutOfMemory>
    requires { IsPart (copied_part part) }
    ensures { IfOk result (λ b. IsFresh header (copied_part part) b) }
{
    match part {
        Copied::Data { sblock, block } => data_block(alloc, header, sblock, block),
        Copied::Secondary { sblock } => secondary_block(alloc, header, sblock),
    }
}
