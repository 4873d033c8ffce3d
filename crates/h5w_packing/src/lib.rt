//! A fresh file of what datasets of a file have, without lost places: the chunks that are there, each copied whole, and an index of theirs.
//!
//! The blocks stand one behind the other: superblock, root header, each dataset's header with its index's blocks in place, and then for each
//! dataset the chunks in rising order of their keys, and the other blocks of the index, each behind those that it names (docs/FORMAT.md,
//! "A packed file"). First all is planned; then the chunks are copied, in pieces, and the blocks are written behind them, the superblock last.
#![tactic(auto)]

mod adding;
mod front;
mod gathering;
mod job;
mod laws;
mod packing;
mod placing;
mod planning;
mod ranges;
mod source;
mod tiling;
mod writing;

pub use h5w_cache::PlanError;
pub use job::{Copied, Job};
pub use laws::packed_whole;
pub use packing::Packing;
pub use planning::plan;
pub use ranges::{Range, Ranges, kind, tiles};
pub use source::Source;
