//! An image in memory that does not fail, for whoever drives a session in memory.
#![tactic(auto)]

mod steady;

pub use h5w_image::Journal;
pub use h5w_model::{OutOfMemory, Piece, Write};
pub use steady::SteadyImage;
