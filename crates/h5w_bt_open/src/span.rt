//! The keys that lead to a node.

ghost use Rattle.std.specs.Prelude.{◌≡◌, List, drop, IfSome};
ghost use Rattle.h5w_bt.specs.declared.records.Record.{Record as the_record};
ghost use Rattle.h5w_bt_open.specs.Spans.{IsKey, after, before, high_of, low_behind, low_of, next_key, span_here, span_of};

use h5w_bt::{Key, Record, is_below};

/// Keys from one on, up to another.
#[derive(Clone, Copy, Debug)]
pub struct Span {
    pub from: Key,
    /// The first behind them; None where all later ones belong to them.
    pub to: Option<Key>,
}

/// The next key; None after the greatest.
fn next(key: Key) -> Option<Key>
    ensures exact { result ≡ next_key key }
    ensures fits { IfSome result IsKey }
{
    if key.j < u64::MAX {
        Some(Key {
            i: key.i,
            j: key.j + 1,
        })
    } else if key.i < u64::MAX {
        Some(Key { i: key.i + 1, j: 0 })
    } else {
        None
    }
}

/// The least key behind a key, of those from another on.
fn after(low: Option<Key>, key: Key) -> Option<Key>
    ensures exact { result ≡ after low key }
    ensures fits { IfSome low IsKey → IfSome result IsKey }
{
    match low {
        Some(low) => match next(key) {
            Some(next) => Some(if is_below(&low, &next) { next } else { low }),
            None => None,
        },
        None => None,
    }
}

/// Up to the lesser of two.
fn before(high: Option<Key>, key: Key) -> Option<Key>
    ensures { result ≡ before high key }
{
    match high {
        Some(high) => Some(if is_below(&key, &high) { key } else { high }),
        None => Some(key),
    }
}

/// The keys between; None where there are none.
fn between(low: Option<Key>, high: Option<Key>) -> Option<Span>
    ensures { result ≡ span_of low high }
{
    match low {
        Some(low) => match high {
            Some(to) => {
                if is_below(&low, &to) {
                    Some(Span {
                        from: low,
                        to: Some(to),
                    })
                } else {
                    None
                }
            }
            None => Some(Span {
                from: low,
                to: None,
            }),
        },
        None => None,
    }
}

/// The first of some keys.
pub fn low_of(span: Option<Span>) -> Option<Key>
    ensures { result ≡ low_of span }
{
    match span {
        Some(span) => Some(span.from),
        None => None,
    }
}

/// The first behind some keys.
pub fn high_of(span: Option<Span>) -> Option<Key>
    ensures { result ≡ high_of span }
{
    match span {
        Some(span) => span.to,
        None => None,
    }
}

/// The keys that lead to the child before the record at a place of a node, of those from `low` on; behind the last, all.
pub fn span_at(low: Option<Key>, high: Option<Key>, records: &[Record], at: usize) -> Option<Span>
    ensures { result ≡ span_here low high (drop at records.now) }
{
    if at < records.len() {
        between(low, before(high, records[at].key))
    } else {
        between(low, high)
    }
}

/// The least key that leads to what is behind the record at a place of a node.
pub fn low_behind(low: Option<Key>, records: &[Record], at: usize) -> Option<Key>
    ensures exact { result ≡ low_behind low (drop at records.now) }
    ensures fits { IfSome low IsKey → IfSome result IsKey }
{
    if at < records.len() {
        after(low, records[at].key)
    } else {
        low
    }
}
