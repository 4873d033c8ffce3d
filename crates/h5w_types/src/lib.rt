//! The shape of a dataset and the type of its integers: two messages, read and written, the values of a cell's bytes, and the
//! cells of values. Only the cells of a run of values take memory.
//!
//! docs/FORMAT.md, "Dataspace" and "Datatype" (HDF5 File Format Specification 3.0, "Disk Format:
//! Level 2A2 - Data Object Header Messages": "The Dataspace Message", "The Datatype Message").
#![tactic(auto)]

mod int_type;
mod run;
mod shape;

pub use h5w_model::{Cell, OutOfMemory, Unsupported};
pub use int_type::{IntType, bytes_of, value_of};
pub use run::{first_outside, put_cells};
pub use shape::Shape;
