//! What the blocks in place of a dataset's index say.
use h5w_bt::Bthd;
use h5w_ea::Eaib;

/// What the blocks in place of an index say: those that are written again where they stand.
#[derive(Drop)]
pub enum Index {
    /// No chunk has an address: there is no index, no index block, or no root.
    Nowhere,
    /// The index block of an array.
    Array(Eaib),
    /// The header of a tree.
    Tree(Bthd),
}
