//! Object headers of version 2: what stands before the messages, the messages of chunk 0 and of continuation blocks, the one
//! spelling that is written, and the change of a dataset's rows in place.
//!
//! docs/FORMAT.md, "Object headers" (HDF5 File Format Specification 3.0, "Data Object Header Prefix (Version 2)", "Data Object
//! Header Messages" and "The Object Header Continuation Message").
#![tactic(auto)]

mod conts;
mod header;
pub mod kind;
mod known;
mod list;
mod reading;
mod rows;
mod spelling;
mod walk;

pub use conts::{BLOCKS, Conts, LEAST, MOST, continuations};
pub use h5w_model::{HeaderError, Msg, Prefix};
pub use header::prefix;
pub use list::Msgs;
pub use reading::{block, messages};
pub use rows::with_rows;
