//! Text out: replies, error lines with their statuses, lines of numbers. And the sources and sinks of bytes.
#![tactic(auto)]

mod digits;
mod error;
mod memory;
mod refusal;
mod reply;
mod status;
mod streams;
mod table;
mod telling;

pub use error::{ErrorLine, write_error};
pub use h5w_image::Failed;
pub use h5w_model::{OutOfMemory, Reply};
pub use memory::{MemSink, MemSource};
pub use reply::write_reply;
pub use status::Status;
pub use streams::{Sink, Source};
pub use table::{write_numbers, write_rows, write_words};
pub use telling::{say, say_line, tell};
