//! What is known of the keys under a node of a tree.
ghost use Rattle.std.specs.Prelude.{◌≡◌, ◌∷◌, [], ℕ};
ghost use Rattle.h5w_check.specs.Spans.{ends_joined, in_order, joined_spans, span_of};

use h5w_bt::is_below;
use h5w_model::Key;

/// How many keys there are, at most 2^128 - 1 of them counted, the first and the last, and whether they rise.
#[derive(Clone, Copy)]
pub struct Span {
    pub count: u128,
    pub ends: Option<(Key, Key)>,
    pub rising: bool,
}

/// Whether the last key of the one stands before the first of the other.
fn in_order(a: Option<(Key, Key)>, b: Option<(Key, Key)>) -> bool
    ensures { result ≡ in_order a b }
{
    match a {
        None => true,
        Some((_, last)) => match b {
            None => true,
            Some((first, _)) => is_below(&last, &first),
        },
    }
}

/// The first and the last key of both.
fn ends_joined(a: Option<(Key, Key)>, b: Option<(Key, Key)>) -> Option<(Key, Key)>
    ensures { result ≡ ends_joined a b }
{
    match a {
        None => b,
        Some((first, last)) => match b {
            None => Some((first, last)),
            Some((_, end)) => Some((first, end)),
        },
    }
}

impl Span {
    /// No key.
    pub fn none() -> Span
        ensures { result ≡ span_of [] }
    {
        Span {
            count: 0,
            ends: None,
            rising: true,
        }
    }

    /// One key.
    pub fn one(key: Key) -> Span
        ensures { result ≡ span_of (key ∷ []) }
    {
        Span {
            count: 1,
            ends: Some((key, key)),
            rising: true,
        }
    }

    /// These keys, and others behind them.
    pub fn join(&self, next: &Span) -> Span
        ensures { result ≡ joined_spans self.now next.now }
    {
        Span {
            count: self.count.saturating_add(next.count),
            ends: ends_joined(self.ends, next.ends),
            rising: self.rising && in_order(self.ends, next.ends) && next.rising,
        }
    }
}
