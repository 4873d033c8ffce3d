//! The index of a dataset's chunks as a version 2 B-tree: a finite map from chunk keys to addresses, in nodes that know whether they
//! changed since they were written.
//!
//! HDF5 File Format Specification 3.0, "Version 2 B-trees"; docs/FORMAT.md, "Version 2 B-tree".
#![tactic(auto)]

mod error;
mod index;
mod plan;
mod root;

pub use error::InsertError;
pub use h5w_bt::Key;
pub use index::TreeIndex;
pub use plan::NodeFlush;
pub use root::Root;
