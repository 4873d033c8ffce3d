ghost use Rattle.std.specs.Prelude.{◌≡◌};
ghost use Rattle.h5w_index.specs.Steps.{copy_pieces, in_place_pieces};

/// A flush of an index that is begun: its plan has all places and memory that it needs, and no block has changed yet.
#[derive(Drop)]
pub enum IndexFlush {
    Array(h5w_cache::BlockFlush),
    Tree(h5w_bt_index::NodeFlush),
}

impl IndexFlush {
    /// How many pieces the writes of the copies will be.
    pub fn copies(&self) -> usize
        ensures { result ≡ copy_pieces self.now }
    {
        match self {
            IndexFlush::Array(begun) => begun.copies(),
            IndexFlush::Tree(begun) => begun.copies(),
        }
    }

    /// How many pieces the writes of the blocks in place will be.
    pub fn in_place(&self) -> usize
        ensures { result ≡ in_place_pieces self.now }
    {
        match self {
            IndexFlush::Array(begun) => begun.in_place(),
            IndexFlush::Tree(begun) => begun.in_place(),
        }
    }
}
