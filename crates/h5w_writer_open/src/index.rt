//! Why a session has no index to begin with.

/// Why no index is there to which rows are appended.
#[derive(Clone, Copy, Debug, PartialEq, Eq)]
pub enum NoIndex {
    /// The layout names none yet: the first flush makes it.
    Unnamed,
    /// The header of the array names no index block yet: the first flush makes it.
    Empty,
    /// A node of the tree does not say how many records are under it.
    WrongTotals,
    /// Each node of the tree does, and its keys do not rise.
    Unordered,
}
