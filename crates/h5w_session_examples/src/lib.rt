//! Logs and files from outside, of which the laws of a session hold, proved by computing, so that their premises are known to hold of
//! something: logs as runs of safe steps, a flush by its parts, and first flushes into files of another maker; and pieces in a wrong order,
//! which are no safe steps. Each is the clause of a function with an empty body: nothing here runs.
#![tactic(auto)]

mod flushes;
mod orders;
mod runs;
mod starts;

pub use flushes::first_flush;
pub use orders::{block_too_early, header_too_early, taken_too_early};
pub use runs::{copied_block_goes, taken_again_goes, two_flushes_goes};
pub use starts::{alone_file, array_starts, block_starts, unnamed_flush};
