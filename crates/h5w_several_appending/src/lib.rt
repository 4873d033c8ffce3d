//! The command that appends to several datasets of one file, over any disk, any source and any sink.
#![tactic(auto)]

mod appending;
mod batching;
mod counting;
mod opening;
mod putting;

pub use appending::append;
