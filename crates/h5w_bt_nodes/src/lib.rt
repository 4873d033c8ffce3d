//! The nodes of a version 2 B-tree in memory: leaves, inner nodes over any kind of child, and what both have in common. A node knows
//! whether it changed since it was written.
//!
//! HDF5 File Format Specification 3.0, "Version 2 B-trees"; docs/FORMAT.md, "Version 2 B-tree".
#![tactic(auto)]

mod bytes;
mod growth;
mod inner;
mod leaf;
mod lists;
mod search;
mod subtree;

pub use bytes::PIECES;
pub use growth::put_at_root;
pub use inner::{Inner, count};
pub use leaf::Leaf;
pub use subtree::Subtree;
