//! The words of the command line, read by `clap`. Nothing of its texts is printed.
//!
//! A command has a file with its arguments and what their values ask for.
#![tactic(auto)]

mod append;
mod arguments;
mod creation;
mod file;
mod files;
mod job;
mod live;
mod make;
mod name;
mod names;
mod number;
mod play;
mod repack;
mod stop;
mod types;
mod values;
mod words;

pub use file::FileName;
pub use h5w_model::Bytes;
pub use h5w_names::Names;
pub use h5w_options::{IntType, Options};
pub use job::{Job, WordsError};
pub use words::read_words;
