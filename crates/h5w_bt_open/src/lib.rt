//! A version 2 B-tree of a file that is there already, opened: its nodes are read into memory, from the root down.
//!
//! HDF5 File Format Specification 3.0, "Version 2 B-trees"; docs/FORMAT.md, "Version 2 B-tree".
#![tactic(auto)]

mod error;
mod kept;
mod laws;
mod load;
mod node;
mod span;
mod tree;
mod walk;

pub use error::OpenTreeError;
pub use kept::{Kept, open_kept, ranges, records};
pub use laws::{opened_finds, opened_is_index};
pub use span::Span;
