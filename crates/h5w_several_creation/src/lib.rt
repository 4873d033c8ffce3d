//! A new file of several datasets, each by a form of its own: its blocks one behind the other, as bytes, and the pieces in the order in which
//! they become visible (HDF5 File Format Specification 3.0, "Format Signature and Superblock", "Data Object Header Prefix (Version 2)", "The
//! Link Message", "The Extensible Array Index" and "Version 2 B-trees"; docs/FORMAT.md, "A new file").
#![tactic(auto)]

mod file;
mod index;
mod root;
mod set;

pub use file::{Creations, closing, create_files};
pub use h5w_creation::{Fill, Form, IndexKind, IntType};
pub use root::first_place;
