//! What a file has that is opened for appending, up to the index of its chunks; or why it is not opened.
//!
//! docs/FORMAT.md. The file may be of any maker. It is looked at as a reader looks, in looks of at most 512 bytes; a message that is
//! not known here and that asks to be known where the file is written refuses it.
#![tactic(auto)]

mod error;
mod finding;
mod names;
mod written;

pub use error::OpenError;
pub use finding::{DatasetHeader, Opening, check, dataset_at, find};
pub use names::{Front, find_front};
pub use written::find_written;
