//! One writer of several datasets of one file, its image and up to 16 readers in one machine: an event is one piece made
//! visible, a call of the writer or of a reader, or one look of a reader, and each is given a lawful reply.
#![tactic(auto)]

mod events;
mod laws;
mod places;
mod taking;
mod world;

pub use events::{FileEvent, FileReply};
pub use h5w_core::{Journal, Options, OutOfMemory, Reply};
pub use h5w_names::Names;
pub use h5w_several_writer::Parts;
pub use laws::{runs_lawfully, uses_lawfully};
pub use world::SeveralWorld;
