//! The laws of a created file of several datasets: where their blocks stand and what they say (HDF5 File Format Specification 3.0, "Format
//! Signature and Superblock", "Data Object Headers", "The Link Message", "The Extensible Array Index" and "Version 2 B-trees"), and what the
//! file is for each of them, and for all together, once the pieces of its creation are shown. Each law is the clause of a function without
//! parameters; its statement is a definition in specs/. Nothing here runs.
#![tactic(auto)]

mod examples;
mod files;

pub use examples::several_as_outside;
pub use files::{one_dataset, several_sizes, several_stand};
