//! Files and a log from outside, and what the definitions say of them: each is the clause of a function with an empty
//! body, proved by computing. So the definitions are known to hold of something, and of the right things.
#![tactic(auto)]

mod damaged;
mod files;
mod logs;

pub use damaged::{bad_sum, cut_short, half_open, overlapping};
pub use files::{four_rows, new_file, three_rows, with_times};
pub use logs::{copied_block_keep, copied_block_read, two_flushes_keep, two_flushes_read};
