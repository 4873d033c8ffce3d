//! A file whose superblock says that it is written, for a session that writes it. Each law is the clause of a function
//! without parameters; its statement is a definition in specs/. Nothing here runs.
#![tactic(auto)]

mod fronts;

pub use fronts::{calls_keep_all, calls_keep_front, front_stays, new_fronts};
