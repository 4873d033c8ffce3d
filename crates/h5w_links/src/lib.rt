//! The links of the root group, which stand in messages of its object header, and the link with a name.
//!
//! docs/FORMAT.md, "Links" (HDF5 File Format Specification 3.0, "The Link Info Message", "The Link Message" and "The Group Info
//! Message").
#![tactic(auto)]

mod finding;
mod link;
mod spelling;
mod table;

pub use finding::{find, links};
pub use h5w_model::{LinkError, ReadError};
pub use link::Link;
pub use spelling::{encode_group_info, encode_link, encode_link_info};
pub use table::Links;
