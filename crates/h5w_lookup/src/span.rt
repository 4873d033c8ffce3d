//! The keys of a tree whose addresses one leaf has.
ghost use Rattle.std.specs.Prelude.{◌≤◌};

use h5w_bt::Key;

/// The keys behind one that was looked up in a tree, up to another: their addresses stand in one leaf, if anywhere.
#[derive(Clone, Copy)]
pub struct Span {
    /// Where the leaf stands.
    pub at: u64,
    /// How many records it has.
    pub n: u64,
    /// The key that was looked up.
    pub key: Key,
    /// The first key that may stand elsewhere.
    pub bound: Key,
    ghost few: { n ≤ 84 },
}

impl Span {
    ghost use Rattle.std.specs.Prelude.{IfSome};
    ghost use Rattle.h5w_lookup.specs.Spans.{IsSpanOf};

    /// The keys from one on up to a bound, where the node of a depth at `at` with `n` records is a leaf.
    pub fn of(depth: u64, key: Key, at: u64, n: u64, bound: Key) -> Option<Span>
        requires { n ≤ 84 }
        ensures { IfSome result (IsSpanOf depth key at n bound) }
    {
        if depth == 0 {
            Some(Span { at, n, key, bound })
        } else {
            None
        }
    }
}
