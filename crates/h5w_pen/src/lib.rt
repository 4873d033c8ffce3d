//! What writes a shared image. A [`Pen`] is a seat alone, or the end of a mirror that also sends the pieces to a second image. A session that
//! writes through it need not know which.
#![tactic(auto)]

mod pen;

pub use pen::{Pen, Penned};
