//! The edge to the system: the standard streams as a source and a sink, and the files as a disk.
#![tactic(auto)]

mod disk;
mod streams;

pub use disk::FileDisk;
pub use streams::{StdSink, StdSource};
