//! The six numbers of the array's header ("The Extensible Array Index"): secondary blocks, their bytes, data blocks, their bytes, max
//! index set, number of elements.

ghost use Rattle.std.specs.Prelude.{◌≡◌, ℕ, ◌+◌, ◌*◌, ◌<◌, ◌≤◌, ◌^◌, true, length, max};
ghost use Rattle.h5w_cache.specs.Stores.{is_changed};
ghost use Rattle.h5w_array_laws.specs.ArrayStores.{IsArray};
ghost use Rattle.h5w_ea_index.specs.Counts.{IsCounted, more_at, with_at};
ghost use Rattle.h5w_ea_index.specs.Reach.{number_at, six};

use crate::slot::HEADER;
use h5w_bytes::number;
use h5w_cache::Cache;

/// Where the six numbers begin.
const NUMBERS: usize = 12;

/// The number of secondary blocks, by its place among the six, and so on.
const SECONDARY_BLOCKS: usize = 0;

const SECONDARY_BYTES: usize = 1;

const DATA_BLOCKS: usize = 2;

const DATA_BYTES: usize = 3;

const MAX_INDEX_SET: usize = 4;

const ELEMENTS: usize = 5;

/// One of the six numbers.
fn read(cache: &Cache, index: usize) -> u64
    requires array { IsArray cache.now }
    requires index { index < 6 }
    ensures { result ≡ number_at index cache.now }
{
    match cache.get(HEADER) {
        Some(block) => number(block.bytes(), NUMBERS + 8 * index, 8),
        None => 0,
    }
}

/// One of the six numbers is another from now on.
fn write(cache: &mut Cache, index: usize, value: u64)
    requires array { IsArray cache.old }
    requires changed { is_changed cache.old 846 ≡ true }
    requires index { index < 6 }
    ensures { IsCounted (with_at index value (six cache.old)) cache.old cache.new }
{
    cache.set_number(HEADER, NUMBERS + 8 * index, value);
}

/// One of the six numbers is more by so many; it stands still at its type's end, as others may have left it there.
fn raise(cache: &mut Cache, index: usize, more: u64)
    requires array { IsArray cache.old }
    requires changed { is_changed cache.old 846 ≡ true }
    requires index { index < 6 }
    ensures { IsCounted (more_at index more (six cache.old)) cache.old cache.new }
{
    let now = read(cache, index);
    write(cache, index, now.saturating_add(more));
}

/// A secondary block of `len` bytes is counted.
pub fn count_secondary(cache: &mut Cache, len: u64)
    requires array { IsArray cache.old }
    requires changed { is_changed cache.old 846 ≡ true }
    ensures { IsCounted (more_at 1 len (more_at 0 1 (six cache.old))) cache.old cache.new }
{
    raise(cache, SECONDARY_BLOCKS, 1);
    raise(cache, SECONDARY_BYTES, len);
}

/// A data block of `len` bytes with so many slots is counted.
pub fn count_data(cache: &mut Cache, len: u64, slots: u64)
    requires array { IsArray cache.old }
    requires changed { is_changed cache.old 846 ≡ true }
    ensures { IsCounted (more_at 5 slots (more_at 3 len (more_at 2 1 (six cache.old)))) cache.old cache.new }
{
    raise(cache, DATA_BLOCKS, 1);
    raise(cache, DATA_BYTES, len);
    raise(cache, ELEMENTS, slots);
}

/// The max index set is at least this many.
pub fn reach(cache: &mut Cache, count: u64)
    requires array { IsArray cache.old }
    requires changed { is_changed cache.old 846 ≡ true }
    ensures { IsCounted (with_at 4 (max (number_at 4 cache.old) count) (six cache.old)) cache.old cache.new }
{
    let now = read(cache, MAX_INDEX_SET);
    write(cache, MAX_INDEX_SET, now.max(count));
}

/// The max index set.
pub fn max_index_set(cache: &Cache) -> u64
    requires array { IsArray cache.now }
    ensures { result ≡ number_at 4 cache.now }
{
    read(cache, MAX_INDEX_SET)
}

/// The max index set is this many.
pub fn set_max_index(cache: &mut Cache, count: u64)
    requires array { IsArray cache.old }
    requires changed { is_changed cache.old 846 ≡ true }
    ensures { IsCounted (with_at 4 count (six cache.old)) cache.old cache.new }
{
    write(cache, MAX_INDEX_SET, count);
}
