//! The blocks on the way to a slot: made where they are missing, and changed from then on.

ghost use Rattle.std.specs.Prelude.{◌≡◌, ℕ, ◌+◌, ◌*◌, ◌<◌, ◌≤◌, false, true, None, OnOk, is_some, length};
ghost use Rattle.h5w_model.specs.Numbers.{undefined};
ghost use Rattle.h5w_cache.specs.Stores.{block_of, is_changed, kept_under, marked};
ghost use Rattle.h5w_array_laws.specs.Parts.{IsPart, data_of, index_block, number_of, parent, secondary_of};
ghost use Rattle.h5w_array_laws.specs.ArrayStores.{IsArray, IsNumbered};
ghost use Rattle.h5w_ea_index.specs.Reach.{max_index_set};
ghost use Rattle.h5w_ea_index.specs.Steps.{IsHeld, OnWay, Touches};

use crate::fresh::{data_block, data_number, secondary_block, secondary_number};
use crate::header::{count_data, count_secondary};
use crate::slot::{HEADER, INDEX_BLOCK};
use h5w_bytes::UNDEFINED;
use h5w_cache::{Block, Cache};
use h5w_ea::super_block;
use h5w_model::OutOfMemory;
use std::alloc::Global;

/// Whether a block is kept under a number.
fn is_kept(cache: &Cache, number: u32) -> bool
    ensures { result ≡ is_some (block_of cache.now number) }
{
    cache.get(number).is_some()
}

/// Header and index block are changed from now on.
pub fn hold_in_place(cache: &mut Cache)
    requires array { IsArray cache.old }
    ensures array { IsArray cache.new }
    ensures numbered { IsNumbered cache.old → IsNumbered cache.new }
    ensures held { IsHeld cache.old cache.new }
    ensures reach { max_index_set cache.new ≡ max_index_set cache.old }
    ensures way { Touches (OnWay index_block) cache.old cache.new }
    ensures changed { is_changed cache.new 845 ≡ true }
{
    cache.mark(HEADER);
    cache.mark(INDEX_BLOCK);
}

/// Keeps a new block, which is changed and has no place yet.
fn add(cache: &mut Cache, number: u32, block: Block)
    requires inside { number < length cache.old.blocks }
    requires clean { is_changed cache.old number ≡ false }
    ensures { cache.new ≡ marked number (kept_under number block undefined cache.old) }
{
    cache.put(number, block, UNDEFINED);
    cache.mark(number);
}

/// Makes a secondary block that is not there.
fn make_secondary(alloc: Global, cache: &mut Cache, sblock: u32) -> Result<(), OutOfMemory>
    requires part { IsPart (secondary_of sblock) }
    requires array { IsArray cache.old }
    requires changed { is_changed cache.old 845 ≡ true }
    requires none { block_of cache.old (number_of (secondary_of sblock)) ≡ None }
    ensures array { IsArray cache.new }
    ensures numbered { IsNumbered cache.old → IsNumbered cache.new }
    ensures held { IsHeld cache.old cache.new }
    ensures reach { max_index_set cache.new ≡ max_index_set cache.old }
    ensures way { Touches (OnWay (secondary_of sblock)) cache.old cache.new }
    ensures changed { OnOk result (is_changed cache.new (number_of (secondary_of sblock)) ≡ true) }
{
    let block = secondary_block(alloc, cache.place(HEADER), sblock)?;
    let len = block.bytes().len() as u64;
    add(cache, secondary_number(sblock), block);
    count_secondary(cache, len);
    Ok(())
}

/// Makes a data block that is not there.
fn make_data(alloc: Global, cache: &mut Cache, sblock: u32, block: u32) -> Result<(), OutOfMemory>
    requires part { IsPart (data_of sblock block) }
    requires array { IsArray cache.old }
    requires changed { is_changed cache.old (number_of (parent (data_of sblock block))) ≡ true }
    requires none { block_of cache.old (number_of (data_of sblock block)) ≡ None }
    ensures array { IsArray cache.new }
    ensures numbered { IsNumbered cache.old → IsNumbered cache.new }
    ensures held { IsHeld cache.old cache.new }
    ensures reach { max_index_set cache.new ≡ max_index_set cache.old }
    ensures way { Touches (OnWay (data_of sblock block)) cache.old cache.new }
    ensures changed { OnOk result (is_changed cache.new (number_of (data_of sblock block)) ≡ true) }
{
    let made = data_block(alloc, cache.place(HEADER), sblock, block)?;
    let len = made.bytes().len() as u64;
    let (_, slots, _) = super_block(sblock);
    add(cache, data_number(sblock, block), made);
    count_data(cache, len, slots);
    Ok(())
}

/// The secondary block of a super block is there, and changed from now on.
fn hold_secondary(alloc: Global, cache: &mut Cache, sblock: u32) -> Result<(), OutOfMemory>
    requires part { IsPart (secondary_of sblock) }
    requires array { IsArray cache.old }
    requires changed { is_changed cache.old 845 ≡ true }
    ensures array { IsArray cache.new }
    ensures numbered { IsNumbered cache.old → IsNumbered cache.new }
    ensures held { IsHeld cache.old cache.new }
    ensures reach { max_index_set cache.new ≡ max_index_set cache.old }
    ensures way { Touches (OnWay (secondary_of sblock)) cache.old cache.new }
    ensures changed { OnOk result (is_changed cache.new (number_of (secondary_of sblock)) ≡ true) }
{
    let number = secondary_number(sblock);
    if is_kept(cache, number) {
        cache.mark(number);
        return Ok(());
    }
    make_secondary(alloc, cache, sblock)
}

/// A data block is there, and changed from now on.
fn hold_data(alloc: Global, cache: &mut Cache, sblock: u32, block: u32) -> Result<(), OutOfMemory>
    requires part { IsPart (data_of sblock block) }
    requires array { IsArray cache.old }
    requires changed { is_changed cache.old (number_of (parent (data_of sblock block))) ≡ true }
    ensures array { IsArray cache.new }
    ensures numbered { IsNumbered cache.old → IsNumbered cache.new }
    ensures held { IsHeld cache.old cache.new }
    ensures reach { max_index_set cache.new ≡ max_index_set cache.old }
    ensures way { Touches (OnWay (data_of sblock block)) cache.old cache.new }
    ensures changed { OnOk result (is_changed cache.new (number_of (data_of sblock block)) ≡ true) }
{
    let number = data_number(sblock, block);
    if is_kept(cache, number) {
        cache.mark(number);
        return Ok(());
    }
    make_data(alloc, cache, sblock, block)
}

/// The block that names a data block is there, and changed from now on, and so are those above it.
fn hold_above(alloc: Global, cache: &mut Cache, sblock: u32, block: u32) -> Result<(), OutOfMemory>
    requires part { IsPart (data_of sblock block) }
    requires array { IsArray cache.old }
    ensures array { IsArray cache.new }
    ensures numbered { IsNumbered cache.old → IsNumbered cache.new }
    ensures held { IsHeld cache.old cache.new }
    ensures reach { max_index_set cache.new ≡ max_index_set cache.old }
    ensures way { Touches (OnWay (data_of sblock block)) cache.old cache.new }
    ensures changed { OnOk result (is_changed cache.new (number_of (parent (data_of sblock block))) ≡ true) }
{
    hold_in_place(cache);
    if sblock < 4 {
        return Ok(());
    }
    hold_secondary(alloc, cache, sblock)
}

/// A data block and those that name it are there, and changed from now on.
pub fn hold_way(
    alloc: Global,
    cache: &mut Cache,
    sblock: u32,
    block: u32,
) -> Result<(), OutOfMemory>
    requires part { IsPart (data_of sblock block) }
    requires array { IsArray cache.old }
    ensures array { IsArray cache.new }
    ensures numbered { IsNumbered cache.old → IsNumbered cache.new }
    ensures held { IsHeld cache.old cache.new }
    ensures reach { max_index_set cache.new ≡ max_index_set cache.old }
    ensures way { Touches (OnWay (data_of sblock block)) cache.old cache.new }
    ensures changed { OnOk result (is_changed cache.new (number_of (data_of sblock block)) ≡ true) }
{
    hold_above(alloc, cache, sblock, block)?;
    hold_data(alloc, cache, sblock, block)
}
