//! The addresses of chunks in the blocks that are kept.

ghost use Rattle.std.specs.Prelude.{◌≡◌, ◌≢◌, ◌⊎◌, ℕ, ◌+◌, ◌-◌, ◌*◌, ◌<◌, ◌≤◌, ◌^◌, true, IfSome, OnOk, length, max};
ghost use Rattle.h5w_model.specs.Numbers.{undefined};
ghost use Rattle.h5w_model.specs.Tables.{format_limits};
ghost use Rattle.h5w_cache.specs.Stores.{block_of, is_changed};
ghost use Rattle.h5w_array_laws.specs.Parts.{IsPart, holder, number_of};
ghost use Rattle.h5w_array_laws.specs.ArrayStores.{IsArray, IsNumbered, address_in, map_of};
ghost use Rattle.h5w_ea_index.specs.Fresh.{part_of};
ghost use Rattle.h5w_ea_index.specs.Reach.{KeepsReach, max_index_set};
ghost use Rattle.h5w_ea_index.specs.Steps.{IsHeld, IsSet, IsSlotOrHeader, IsUnset, OnWay, Touches};

use crate::fresh::data_number;
use crate::header::{max_index_set, reach, set_max_index};
use crate::slot::{Holder, INDEX_BLOCK, locate};
use crate::way::{hold_in_place, hold_way};
use h5w_bytes::{UNDEFINED, number};
use h5w_cache::Cache;
use h5w_ea::CHUNKS;
use h5w_model::OutOfMemory;
use std::alloc::Global;

/// The number under which the block that has a slot is kept.
fn holder_number(holder: Holder) -> u32
    requires { IsPart (part_of holder) }
    ensures { result ≡ number_of (part_of holder) }
{
    match holder {
        Holder::Index => INDEX_BLOCK,
        Holder::Data { sblock, block } => data_number(sblock, block),
    }
}

/// The address in eight bytes of a block, undefined where none is kept.
pub fn read(cache: &Cache, number_of_block: u32, offset: usize) -> u64
    requires { IfSome (block_of cache.now number_of_block) (λ b. offset + 8 ≤ length b.bytes) }
    ensures { result ≡ address_in (block_of cache.now number_of_block) offset }
{
    match cache.get(number_of_block) {
        Some(block) => number(block.bytes(), offset, 8),
        None => UNDEFINED,
    }
}

/// The address of chunk number `i`, undefined where it has none.
pub fn address(cache: &Cache, i: u64) -> u64
    requires below { i < format_limits.array }
    requires array { IsArray cache.now }
    ensures { result ≡ map_of cache.now i }
{
    let slot = locate(i);
    read(cache, holder_number(slot.holder), slot.offset)
}

/// The block that has a slot, and those that name it, are there, and changed from now on.
fn hold_holder(alloc: Global, cache: &mut Cache, holder: Holder) -> Result<(), OutOfMemory>
    requires part { IsPart (part_of holder) }
    requires array { IsArray cache.old }
    ensures array { IsArray cache.new }
    ensures numbered { IsNumbered cache.old → IsNumbered cache.new }
    ensures held { IsHeld cache.old cache.new }
    ensures reach { max_index_set cache.new ≡ max_index_set cache.old }
    ensures way { Touches (OnWay (part_of holder)) cache.old cache.new }
    ensures changed { OnOk result (is_changed cache.new (number_of (part_of holder)) ≡ true) }
{
    match holder {
        Holder::Index => {
            hold_in_place(cache);
            Ok(())
        }
        Holder::Data { sblock, block } => hold_way(alloc, cache, sblock, block),
    }
}

/// The blocks on the way to the slot of chunk number `i` are there, and changed from now on.
pub fn hold(alloc: Global, cache: &mut Cache, i: u64) -> Result<(), OutOfMemory>
    requires below { i < format_limits.array }
    requires array { IsArray cache.old }
    ensures array { IsArray cache.new }
    ensures numbered { IsNumbered cache.old → IsNumbered cache.new }
    ensures held { IsHeld cache.old cache.new }
    ensures reach { max_index_set cache.new ≡ max_index_set cache.old }
    ensures way { Touches (OnWay (holder i)) cache.old cache.new }
    ensures changed { OnOk result (is_changed cache.new (number_of (holder i)) ≡ true) }
{
    hold_holder(alloc, cache, locate(i).holder)
}

/// Chunk number `i` has this address from now on.
pub fn set(cache: &mut Cache, i: u64, address: u64)
    requires below { i < format_limits.array }
    requires array { IsArray cache.old }
    requires changed { is_changed cache.old (number_of (holder i)) ≡ true }
    requires defined { address ≢ undefined }
    ensures array { IsArray cache.new }
    ensures numbered { IsNumbered cache.old → IsNumbered cache.new }
    ensures set { IsSet i address cache.old cache.new }
    ensures reach { max_index_set cache.new ≡ max (max_index_set cache.old) (i + 1) }
    ensures way { Touches (IsSlotOrHeader i) cache.old cache.new }
{
    let slot = locate(i);
    cache.set_number(holder_number(slot.holder), slot.offset, address);
    reach(cache, i + 1);
}

/// The max index set is above chunk number `i`, which has an address. Where it was not, header and index block are changed from now on.
pub fn reach_chunk(cache: &mut Cache, i: u64)
    requires below { i < format_limits.array }
    requires array { IsArray cache.old }
    requires defined { map_of cache.old i ≢ undefined }
    ensures array { IsArray cache.new }
    ensures numbered { IsNumbered cache.old → IsNumbered cache.new }
    ensures held { IsHeld cache.old cache.new }
    ensures reach { max_index_set cache.new ≡ max (max_index_set cache.old) (i + 1) }
    ensures way { Touches (OnWay (holder i)) cache.old cache.new }
    ensures kept { i < max_index_set cache.old → cache.new ≡ cache.old }
{
    let count = i + 1;
    if count <= max_index_set(cache) {
        return;
    }
    hold_in_place(cache);
    reach(cache, count);
}

/// One more than the greatest chunk number below `count` that has an address, 0 where none has.
fn last_set(cache: &Cache, count: u64) -> u64
    requires below { count ≤ format_limits.array }
    requires array { IsArray cache.now }
    ensures above { (j : ℕ) → result ≤ j → j < count → map_of cache.now j ≡ undefined }
    ensures least { (result ≡ 0) ⊎ (map_of cache.now (result - 1) ≢ undefined) }
{
    let mut last = count;
    for _step in 0..count {
        if address(cache, last - 1) != UNDEFINED {
            return last;
        }
        last -= 1;
    }
    0
}

/// Chunk number `i` has no address from now on.
pub fn unset(cache: &mut Cache, i: u64)
    requires below { i < format_limits.array }
    requires array { IsArray cache.old }
    requires changed { is_changed cache.old (number_of (holder i)) ≡ true }
    ensures array { IsArray cache.new }
    ensures numbered { IsNumbered cache.old → IsNumbered cache.new }
    ensures unset { IsUnset i cache.old cache.new }
    ensures reach { KeepsReach cache.old cache.new }
    ensures way { Touches (IsSlotOrHeader i) cache.old cache.new }
{
    let slot = locate(i);
    cache.set_number(holder_number(slot.holder), slot.offset, UNDEFINED);
    let count = last_set(cache, max_index_set(cache).min(CHUNKS));
    set_max_index(cache, count);
}
