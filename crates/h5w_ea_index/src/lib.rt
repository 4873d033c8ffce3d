//! The extensible array of a session as a finite map from chunk numbers to addresses, over the store of the blocks that the session
//! holds (HDF5 File Format Specification 3.0, "The Extensible Array Index").
//!
//! Data blocks and secondary blocks are made when a slot in them is held, and get new places with each plan; the index block and the
//! header stay where they are. What holds of each block, and what a reader and a check find on an image, stands in h5w_array_laws.
#![tactic(auto)]

mod address;
mod copied;
mod create;
mod error;
mod fresh;
mod header;
mod index;
mod laws;
mod load;
mod open;
mod plan;
mod ranges;
mod slot;
mod way;

pub use error::OpenArrayError;
pub use index::ArrayIndex;
pub use laws::{opened_finds, opened_stands};
