//! One writer and its readers in threads over a file in memory that they share. [`live`] runs them, and reports what each flush and each
//! reader's call came to.
//!
//! Each actor has a seat of its own at the shared image. All readers' seats come of the writer's once the creation is visible. When all have
//! ended, the writer's seat takes in a note of each reader's, so that what each reader has seen begins what the writer wrote.
#![tactic(auto)]

mod batch;
mod creating;
mod following;
mod joining;
mod lists;
mod readers;
mod release;
mod report;
mod running;
mod seated;
mod seats;
mod seconds;
mod threads;
mod writer;
mod writing;

pub use lists::{Batches, FlushLines, PollLines};
pub use readers::Readers;
pub use report::{LiveError, LiveReport};
pub use running::live;
