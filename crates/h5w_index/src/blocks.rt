ghost use Rattle.std.specs.Prelude.{◌≡◌};
ghost use Rattle.h5w_index.specs.Blocks.{has_no_block};
ghost use Rattle.h5w_index.specs.Held.{view_of};

use crate::index::Index;

impl Index {
    /// Whether it is an array whose index block is not made yet, which is told by a place of 0.
    pub fn has_no_block(&self) -> bool
        ensures { result ≡ has_no_block (view_of self.now) }
    {
        match self {
            Index::Array(index) => index.has_no_block(),
            Index::Tree(_) => false,
        }
    }
}
