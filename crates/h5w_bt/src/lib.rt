//! The blocks of a version 2 B-tree whose records are the chunks of a dataset: the tree's header, leaves and inner nodes, read and
//! written, and how many records there is room for.
//!
//! docs/FORMAT.md, "Version 2 B-tree" (HDF5 File Format Specification 3.0, "Version 2 B-trees"). Records are of type 10, for chunks without
//! filters in two dimensions; nodes have 2,048 bytes, and a tree has a depth of at most 3.
#![tactic(auto)]

mod children;
mod fields;
mod geometry;
mod header;
mod inner;
mod keys;
mod leaf;
mod records;

pub use children::{Child, Children};
pub use geometry::{NODE, capacity, node_len, subtree};
pub use h5w_model::{BlockFault, Key};
pub use header::Bthd;
pub use inner::Btin;
pub use keys::{is_below, is_same};
pub use leaf::Btlf;
pub use records::{Record, Records};
