//! Rows in chunks: where a cell stands, cells of values, and the writes of new rows.
//!
//! docs/FORMAT.md, "Layout" (HDF5 File Format Specification 3.0, "The Data Layout Message": a chunk holds
//! its cells row by row, each row of the chunk's columns).
#![tactic(auto)]

mod cells;
mod early;
mod grid;
mod rows;
mod share;

pub use early::{early_joins, rows_stand};
pub use grid::{ChunkPlace, Grid};
pub use h5w_layout::{Fill, IndexKind, Layout};
pub use h5w_model::{Cell, Key, OutOfMemory, PIECE, Piece, Write};
pub use h5w_types::{IntType, Shape};
