//! Scripts over several datasets of one file: which replies are lawful. Each law is the clause of a function without
//! parameters, its statement a definition in specs/. Nothing here runs.
#![tactic(auto)]

mod alone;
mod polled;
mod rows;

pub use alone::one_dataset;
pub use polled::{reader_lines, writer_lines};
pub use rows::{row_of_two, rows_come_early, rows_of_another, rows_without_pieces};
