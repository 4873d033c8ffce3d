//! The lines of an input of numbers of several datasets.
#![tactic(auto)]

mod line;

pub use h5w_batches::{BatchError, TextLine, Values};
pub use line::{SetLine, set_line, use_line};
