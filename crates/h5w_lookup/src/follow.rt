//! The addresses of the next chunks, where a block that is kept has them.
ghost use Rattle.std.specs.Prelude.{◌≡◌, ◌≤◌, ℕ, length, IfSome, OnOk};
ghost use Rattle.h5w_model.specs.Calls.{known_table};
ghost use Rattle.h5w_model.specs.Tables.{InPlace, needed};
ghost use Rattle.h5w_lookup.specs.Ahead.{found_rest};
ghost use Rattle.h5w_lookup.specs.Attempts.{known_of};
ghost use Rattle.h5w_dataset.specs.Described.{described_of};
ghost use Rattle.h5w_lookup.specs.Indexes.{IsIndexOf, in_place_of};
ghost use Rattle.h5w_lookup.specs.Spans.{IsSpan};
ghost use Rattle.h5w_lookup.specs.Stores.{kept};

use crate::ahead::go_ahead;
use crate::block::node_kind;
use crate::content::among_from;
use crate::index::Index;
use crate::known::Known;
use crate::probe::key_of;
use crate::recall::unknown;
use crate::span::Span;
use crate::store::Store;
use h5w_bt::{is_below, node_len};
use h5w_dataset::Dataset;
use h5w_model::OutOfMemory;

/// Takes the addresses of the next chunks, as far as their keys are in the span.
fn take(
    store: &Store,
    span: &Span,
    known: &Option<Known>,
    d: &Dataset,
    found: &mut Vec<u64>,
) -> Result<(), OutOfMemory>
    requires few { needed (described_of d.now) ≤ 1000000 }
    ensures same { (p : InPlace) → IsSpan (kept store.now) p span.now → OnOk result ((place : ℕ) → found_rest place (known_table (known_of known.now) (described_of d.now)) (described_of d.now) p (kept store.now) found.new.items ≡ found_rest place (known_table (known_of known.now) (described_of d.now)) (described_of d.now) p (kept store.now) found.old.items) }
    ensures more { OnOk result (length found.old.items ≤ length found.new.items) }
{
    let Some(content) = store.look(node_kind(0), span.at, node_len(0, span.n)) else {
        return Ok(());
    };
    let needed = d.needed() as usize;
    let across = d.keys_across();
    let records = content.records();
    let mut last = span.key;
    let mut from = 0;
    for _turn in 0..needed {
        let i = unknown(known, d, found.len());
        if needed <= i {
            return Ok(());
        }
        let key = key_of(across, i);
        let behind = is_below(&last, &key);
        let before = is_below(&key, &span.bound);
        if !behind || !before {
            return Ok(());
        }
        let (next, address) = among_from(records, from, &key);
        found.push(address)?;
        last = key;
        from = next;
    }
    Ok(())
}

/// Goes on with the addresses of the next chunks, as far as one block that is kept has them: the leaf of a span, or a data block.
pub fn follow(
    store: &mut Store,
    index: &Index,
    known: &Option<Known>,
    d: &Dataset,
    span: Option<Span>,
    found: &mut Vec<u64>,
) -> Result<(), OutOfMemory>
    requires few { needed (described_of d.now) ≤ 1000000 }
    requires indexed { IsIndexOf (needed (described_of d.now)) index.now }
    requires ahead { IfSome span (IsSpan (kept store.old) (in_place_of index.now)) }
    ensures same { OnOk result ((place : ℕ) → found_rest place (known_table (known_of known.now) (described_of d.now)) (described_of d.now) (in_place_of index.now) (kept store.new) found.new.items ≡ found_rest place (known_table (known_of known.now) (described_of d.now)) (described_of d.now) (in_place_of index.now) (kept store.old) found.old.items) }
    ensures more { OnOk result (length found.old.items ≤ length found.new.items) }
{
    match span {
        Some(span) => take(store, &span, known, d, found),
        None => go_ahead(store, index, known, d, found),
    }
}
