//! The line that the program prints of a refusal of a writer's call.
#![tactic(auto)]

mod lines;

pub use lines::{WriterLine, append_line, close_line, flush_line, open_line, write_line};
