//! The command that runs a writer and its readers in threads: [`run_live`] reads the batches of an input, hands them to the run, and writes
//! what it reports, or why it does not.
#![tactic(auto)]

mod ended;
mod refusal;
mod running;
mod text;

pub use ended::Ended;
pub use h5w_live::Readers;
pub use running::run_live;
