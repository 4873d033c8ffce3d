//! The opening of a session: a file that is there, of any maker, is looked at, and a session begins over it or the first refusal is told.
#![tactic(auto)]

mod index;
mod opening;
mod part;
mod ranges;

pub use h5w_opening::OpenError;
pub use h5w_writer::WriterCore;
pub use index::NoIndex;
pub use opening::{open, open_laws};
pub use part::{begin_over, read_at};
