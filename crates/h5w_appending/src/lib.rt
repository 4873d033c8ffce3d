//! The commands that make a file grow, over any disk and any sink: a new file, and an append.
#![tactic(auto)]

mod appending;
mod batching;
mod creating;
mod putting;
mod target;
mod terms;

pub use appending::append;
pub use creating::create;
pub use target::Target;
pub use terms::Terms;
