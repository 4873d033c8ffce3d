//! What the messages of headers say: where each was found, which come next, and what those of a dataset's header describe.
//!
//! docs/FORMAT.md, "Messages". No image is looked at: the messages were read before.
#![tactic(auto)]

mod chunks;
mod dataset;
mod described;
mod found;
mod listing;
mod refusal;
mod stack;

pub use dataset::Dataset;
pub use described::{describe, first};
pub use found::FoundMessage;
pub use listing::listed;
pub use refusal::{header_refusal, super_refusal};
pub use stack::put_before;
