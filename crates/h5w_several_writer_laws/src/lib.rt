//! A session of several datasets in one file, as sessions of one dataset each, with one superblock and the places of one file between them.
//! Each law is the clause of a function without parameters; its statement is a definition in specs/. Nothing here runs.
#![tactic(auto)]

mod calls;
mod seen;

pub use calls::{all_names, bounds_stand, calls_stand, standing_all};
pub use seen::part_seen;
