//! The blocks of an extensible array: where the slot of a chunk stands, and the four kinds of block, read and
//! written.
//!
//! docs/FORMAT.md, "Extensible array" (HDF5 File Format Specification 3.0, "The Extensible Array Index").
//! Arrays whose data blocks are split into pages are not known here, so an array has up to 131,060 chunks.
#![tactic(auto)]

mod data_block;
mod fields;
mod geometry;
mod header;
mod index_block;
mod lengths;
mod secondary_block;
mod slots;

pub use data_block::Eadb;
pub use geometry::{CHUNKS, FIRST_SECONDARY, NAMED_BEFORE, SUPER_BLOCKS, place, super_block};
pub use h5w_model::{BlockFault, Place};
pub use header::Eahd;
pub use index_block::Eaib;
pub use lengths::{first_super_block, sizes, slots_len};
pub use secondary_block::Easb;
pub use slots::{FIRST_SLOT, SLOTS_FRAME, Slots, slot};
