//! The command that writes datasets of a file anew into another one, over any disk and any sink.
#![tactic(auto)]

mod repacking;
mod rewrite;
mod two_files;

pub use repacking::repack;
pub use rewrite::Rewrite;
pub use two_files::TwoFiles;
