//! The addresses of the chunks that a dataset's rows need, from the messages of its header on. No image is held: a
//! [`Lookup`] says the next look, and goes on with the piece that the look gave.
//!
//! What an unfinished lookup waits for, and what the look makes of it:
//!
//! | state | the next look | then |
//! |---|---|---|
//! | `Array` | the next piece of the array's header | `Array`, `Index`, `Block`, or the end |
//! | `Index` | the next piece of the array's index block | `Index`, `Block`, or the end |
//! | `Tree` | the next piece of the tree's header | `Tree`, `Block`, or the end |
//! | `Block` | the next piece of a secondary or data block, or of a node of the tree, that is not kept | `Block`, or the end |
//!
//! The end is the dataset with the addresses that were found, or a refusal.
#![tactic(auto)]

mod addresses;
mod ahead;
mod block;
mod content;
mod descent;
mod descent_steps;
mod follow;
mod gather;
mod index;
mod known;
mod learning;
mod look;
mod lookup;
mod news;
mod outcome;
mod probe;
mod recall;
mod settling;
mod span;
mod store;
mod wait;

pub use gather::Gather;
pub use known::{Known, Rules};
pub use learning::learn;
pub use look::{Look, look_at};
pub use lookup::{Lookup, address_at};
pub use news::News;
pub use outcome::{Outcome, Progress};
pub use recall::rows_seen;
pub use settling::settle;
