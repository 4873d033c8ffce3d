//! A reader's call over an image, taken to its answer: each wanted look is taken, and what it gives is given to the reader.
#![tactic(auto)]

mod call;

pub use call::answer;
pub use h5w_image::{Failed, PieceRead};
pub use h5w_reader::{ReaderCore, Step};
