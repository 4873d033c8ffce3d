//! The fill value of a dataset and the layout of its chunks: two messages, read and written. Takes no memory.
//!
//! docs/FORMAT.md, "Fill value" and "Layout" (HDF5 File Format Specification 3.0, "Disk Format:
//! Level 2A2 - Data Object Header Messages": "The Fill Value Message", "The Data Layout Message").
#![tactic(auto)]

mod fill;
mod layout;

pub use fill::Fill;
pub use h5w_model::{Cell, IndexKind, Unsupported};
pub use layout::Layout;
