//! What readers find in the image of a journal, wherever its writer stops.
#![tactic(auto)]

mod image;
mod outcome;
mod positions;
mod report;
mod runs;

pub use h5w_image::Journal;
pub use h5w_model::{Bytes, OutOfMemory};
pub use outcome::Outcome;
pub use positions::{image_at, sweep};
pub use report::{Report, Run};
