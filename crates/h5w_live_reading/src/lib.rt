//! The readers of a run in threads. Each makes its calls through a seat of its own at an image that threads share; [`read_all`] runs them,
//! and leaves the lines that tell of the calls, and a note of what each seat had seen in the end.
#![tactic(auto)]

mod actors;
mod call;
mod reading;

pub use actors::{AllEnded, Calls, Cut, Seated, read_all};
