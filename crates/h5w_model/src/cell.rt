/// The bytes of one integer, 1 to 8 of them, in the type's order.
#[derive(Clone, Copy, Debug, PartialEq, Eq)]
pub struct Cell {
    pub bytes: [u8; 8],
    /// How many of them count.
    pub size: u8,
}

/// A chunk's place in the grid of chunks: `i` along the rows, `j` along the columns (0 in rank 1).
#[derive(Clone, Copy, Debug, PartialEq, Eq)]
pub struct Key {
    pub i: u64,
    pub j: u64,
}

/// Where the slot of a chunk's number stands in an extensible array.
#[derive(Clone, Copy, Debug, PartialEq, Eq)]
pub enum Place {
    /// In the index block.
    Index { slot: u64 },
    /// In data block `block` of the six that the index block names.
    Direct { block: u64, slot: u64 },
    /// In data block `block` of super block `sblock`, which a secondary block names.
    Second { sblock: u64, block: u64, slot: u64 },
}

/// By what a dataset's chunks are found.
#[derive(Clone, Copy, Debug, PartialEq, Eq)]
pub enum IndexKind {
    /// An extensible array: one unlimited dimension.
    Array,
    /// A version 2 B-tree: two unlimited dimensions.
    Tree,
}
