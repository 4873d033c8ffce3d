//! The names of datasets of one file, in the order given.
#![tactic(auto)]

mod names;

pub use names::Names;
