//! The order of keys.
ghost use Rattle.std.specs.Prelude.{◌≡◌};
ghost use Rattle.h5w_model.specs.Tables.{key_below, key_equal};

use h5w_model::Key;

/// Whether a key comes before another: by dimension 0, then 1.
pub fn is_below(a: &Key, b: &Key) -> bool
    ensures { result ≡ key_below a.now b.now }
{
    a.i < b.i || (a.i == b.i && a.j < b.j)
}

/// Whether two keys are the same.
pub fn is_same(a: &Key, b: &Key) -> bool
    ensures { result ≡ key_equal a.now b.now }
{
    a.i == b.i && a.j == b.j
}
