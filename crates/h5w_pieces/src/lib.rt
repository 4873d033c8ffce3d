//! The cells of rows that wait, and the pieces of a flush in order: those of new rows' cells, and all parts of a flush in one list.
//!
//! docs/ARCHITECTURE.md has the order of a flush's pieces.
#![tactic(auto)]

mod cells;
mod joining;
mod rows;

pub use cells::Cells;
pub use h5w_cache::Plan;
pub use h5w_chunks::{ChunkPlace, Grid};
pub use h5w_model::{OutOfMemory, Write};
pub use h5w_types::IntType;
pub use joining::{end_at, end_with, join, join_first, naming};
pub use rows::{alone_pieces, put_behind};
