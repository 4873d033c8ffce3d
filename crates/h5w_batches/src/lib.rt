//! The batches of an input of numbers.
#![tactic(auto)]

mod error;
mod gathering;
mod reading;

pub use error::BatchError;
pub use h5w_input::TextLine;
pub use h5w_model::Values;
pub use h5w_text::Source;
pub use reading::{INPUT_LIMIT, line_values, read_batches};
