//! Small files from outside, six of them from HDF5's own library, and what a reader and a check get of each, proved of the
//! definitions by computing. Each is the clause of a function with an empty body: nothing here runs.
#![tactic(auto)]

mod damaged;
mod headers;
mod indexes;
mod library;
mod names;
mod shapes;

pub use damaged::{damaged_blocks, overlaps, past_the_end};
pub use headers::{continuations, dataset_messages, header_forms, links, superblocks};
pub use indexes::{arrays, index_blocks, trees};
pub use library::{fixed_columns, of_library};
pub use names::{one_header, one_in_another, two_datasets};
pub use shapes::{rows_and_columns, values};
