//! The image between threads: one writer's seat and any number of readers' seats over one store, which a ticket lock
//! lends to one seat at a time, for one look, one piece, while room is made, or while the list of pieces is copied.
#![tactic(auto)]

mod calls;
mod image;
mod laws;
mod place;
mod seats;
mod table;
mod through;
mod worn;

pub use image::SharedImage;
pub use laws::{readers_call, through_seats, writers_log};
pub use seats::{Note, ReaderSeat, WriterSeat};
pub use through::{Reading, Writing};
pub use worn::Worn;
