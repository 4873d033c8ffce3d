//! The store of the blocks that a session holds: what each block's bytes are, where they stand, and which blocks
//! changed since they were written.
#![tactic(auto)]

mod block;
mod moves;
mod plan;
mod settle;
mod store;
mod write;

pub use block::{Block, Link, Placement, copied};
pub use moves::{Move, retire_all, take_place};
pub use plan::{BlockFlush, Plan, PlanError};
pub use store::Cache;
