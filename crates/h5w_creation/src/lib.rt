//! A new file: its blocks one behind the other, as bytes, and the pieces in the order in which they become visible (HDF5 File Format
//! Specification 3.0, "Format Signature and Superblock", "Data Object Header Prefix (Version 2)", "The Extensible Array Index" and
//! "Version 2 B-trees"; docs/FORMAT.md, "A new file"). Two dimensions that grow are indexed by a version 2 B-tree; one dimension, and two of
//! which the second is fixed, by an extensible array.
//!
//! What of a new file the options say: its type, fill, shape, chunk and index.
#![tactic(auto)]

mod file;
mod form;
mod headers;
mod index;
mod laws;
mod options;

pub use file::{Creation, OPEN, create_file, super_write, superblock};
pub use form::{ARRAY_LEN, BLOCK_LEN, Form, ROOT_PLACE, TREE_LEN, index_len};
pub use h5w_chunks::{Fill, IndexKind, IntType};
pub use h5w_options::Options;
pub use headers::{dataset_header, link_message, root_header, root_start};
pub use index::{array_header, index_block, new_index, tree_header};
pub use laws::created_rests;
pub use options::form_of;
