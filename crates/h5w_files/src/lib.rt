//! The commands that look at a file, over any disk and any sink: a check, a poll, and the clearing of the flags of writers.
#![tactic(auto)]

mod answering;
mod checking;
mod clearing;
mod flags;
mod image;
mod polling;
mod polls;

pub use checking::check;
pub use clearing::clear;
pub use image::DiskImage;
pub use polling::poll;
pub use polls::Polls;
