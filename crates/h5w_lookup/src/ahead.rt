//! The addresses of chunks whose slots stand one behind another in a data block that is kept.
ghost use Rattle.std.specs.Prelude.{◌≡◌, ◌≤◌, ◌<◌, ◌+◌, ◌⊎◌, ℕ, Result, List, length, None, IfSome, OnOk};
ghost use Rattle.h5w_model.specs.Arrays.{EaibFields, super_block_of};
ghost use Rattle.h5w_model.specs.Calls.{known_table};
ghost use Rattle.h5w_model.specs.Programs.{Prog};
ghost use Rattle.h5w_model.specs.Tables.{Reading, InPlace, array_slot, in_array, needed, secondary_slot, format_limits};
ghost use Rattle.h5w_model.specs.declared.refusal.ReadError.{ReadError};
ghost use Rattle.h5w_ea.specs.Fields.{eaib_of};
ghost use Rattle.h5w_lookup.specs.Ahead.{IsDataUsed, IsSecondUsed, IsAtHand, IsTaken, found_rest};
ghost use Rattle.h5w_lookup.specs.Attempts.{known_of};
ghost use Rattle.h5w_dataset.specs.Described.{described_of};
ghost use Rattle.h5w_lookup.specs.Indexes.{IsIndexOf, in_place_of};
ghost use Rattle.h5w_lookup.specs.Seeking.{store_rest};
ghost use Rattle.h5w_lookup.specs.Stores.{kept};
ghost use Rattle.h5w_lookup.specs.Unknown.{unknown_at};

use crate::block::{DATA, SECOND};
use crate::index::Index;
use crate::known::Known;
use crate::lookup::address_at;
use crate::recall::{all_unknown, unknown};
use crate::store::Store;
use crate::wait::DataWait;
use h5w_bytes::UNDEFINED;
use h5w_dataset::Dataset;
use h5w_ea::{Eaib, Place, first_super_block, place, sizes, slots_len};
use h5w_model::OutOfMemory;

/// A slot of the data block of `n` slots at `at`, where that is kept. It is the last used then.
fn data(store: &mut Store, at: u64, n: u64, slot: u64) -> Option<DataWait>
    requires { n ≤ 1024 }
    ensures none { result ≡ None → kept store.new ≡ kept store.old }
    ensures some { IfSome result (IsDataUsed at n slot (kept store.old) (kept store.new)) }
{
    if at == UNDEFINED {
        return None;
    }
    let len = slots_len(n);
    let Some(_) = store.look(DATA, at, len) else {
        return None;
    };
    store.touch(DATA, at, len);
    Some(DataWait { at, n, slot })
}

/// A slot of data block `block` of the secondary block at `at`, where both are kept.
fn second(store: &mut Store, at: u64, sblock: u32, block: u64, slot: u64) -> Option<DataWait>
    requires { sblock ≤ 12 }
    ensures none { result ≡ None → (next : ℕ → Prog (Result Reading ReadError)) → store_rest (kept store.new) (secondary_slot at sblock block slot) next ≡ store_rest (kept store.old) (secondary_slot at sblock block slot) next }
    ensures some { IfSome result (IsSecondUsed at sblock block slot (kept store.old) (kept store.new)) }
{
    if at == UNDEFINED {
        return None;
    }
    let (blocks, slots) = sizes(sblock);
    let len = slots_len(blocks);
    let address = match store.look(SECOND, at, len) {
        Some(content) => content.slot(block as usize),
        None => return None,
    };
    store.touch(SECOND, at, len);
    data(store, address, slots, slot)
}

/// The slot of chunk number `i`, where it stands in a data block that is kept, behind blocks that are kept.
fn at_hand(store: &mut Store, index: &Eaib, i: u64) -> Option<DataWait>
    requires { i < format_limits.array }
    ensures same { (next : ℕ → Prog (Result Reading ReadError)) → store_rest (kept store.new) (array_slot (eaib_of index.now) i) next ≡ store_rest (kept store.old) (array_slot (eaib_of index.now) i) next }
    ensures some { IfSome result (IsAtHand (kept store.new) (eaib_of index.now) i) }
{
    match place(i) {
        Place::Index { .. } => None,
        Place::Direct { block, slot } => {
            let (_, slots) = sizes(first_super_block(block));
            data(store, address_at(&index.first, block as usize), slots, slot)
        }
        Place::Second {
            sblock,
            block,
            slot,
        } => {
            let at = address_at(&index.second, (sblock - 4) as usize);
            second(store, at, sblock as u32, block, slot)
        }
    }
}

/// Takes the addresses of chunks from number `i` on, at most `most`, out of the data block that has them.
fn take(store: &Store, w: &DataWait, most: usize, found: &mut Vec<u64>) -> Result<(), OutOfMemory>
    ensures { OnOk result ((e : EaibFields) (i : ℕ) → IsAtHand (kept store.now) e i w.now → IsTaken (kept store.now) e i most found.old.items found.new.items) }
{
    let Some(content) = store.look(DATA, w.at, slots_len(w.n)) else {
        return Ok(());
    };
    let (end, first) = (content.slots().min(w.n as usize), w.slot as usize);
    if first < end {
        content.put_slots(first, (end - first).min(most), found)?;
    }
    Ok(())
}

/// Goes on with the addresses of the next chunks, as far as they stand in the data block of the first of them, where that is kept.
pub fn go_ahead(
    store: &mut Store,
    index: &Index,
    known: &Option<Known>,
    d: &Dataset,
    found: &mut Vec<u64>,
) -> Result<(), OutOfMemory>
    requires few { needed (described_of d.now) ≤ 1000000 }
    requires indexed { IsIndexOf (needed (described_of d.now)) index.now }
    ensures same { OnOk result ((place : ℕ) → found_rest place (known_table (known_of known.now) (described_of d.now)) (described_of d.now) (in_place_of index.now) (kept store.new) found.new.items ≡ found_rest place (known_table (known_of known.now) (described_of d.now)) (described_of d.now) (in_place_of index.now) (kept store.old) found.old.items) }
    ensures more { OnOk result (length found.old.items ≤ length found.new.items) }
{
    let Index::Array(block) = index else {
        return Ok(());
    };
    let (needed, i) = (d.needed() as usize, unknown(known, d, found.len()));
    if needed <= i || d.keys_across() != 1 || !all_unknown(known, d, found.len()) {
        return Ok(());
    }
    match at_hand(store, block, i as u64) {
        Some(w) => take(store, &w, needed - i, found),
        None => Ok(()),
    }
}
