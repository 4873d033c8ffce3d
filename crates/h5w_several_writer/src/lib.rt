//! A session of several datasets of one file: one writer that appends rows to them, and plans the pieces that make them
//! visible, dataset after dataset.
#![tactic(auto)]

mod appending;
mod ending;
mod flushing;
mod parts;
mod planning;
mod several;
mod showing;

pub use h5w_writer::{AppendError, CloseError, FlushError, WriterCore};
pub use parts::Parts;
pub use several::SeveralWriter;
