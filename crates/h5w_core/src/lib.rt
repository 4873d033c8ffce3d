//! One writer, its image and up to 16 readers in one machine: an event is one piece made visible, a call of the writer or of a
//! reader, or one look of a reader, and each is given a lawful reply.
#![tactic(auto)]

mod laws;
mod parts;
pub mod readers;
mod world;

pub use h5w_image::Journal;
pub use h5w_model::{Event, OutOfMemory, Reply};
pub use h5w_options::Options;
pub use laws::runs_lawfully;
pub use parts::WorldParts;
pub use world::World;
