//! The laws of a created file, for each integer type, fill, chunk size and name, of one dimension, of two that grow, and of two with fixed
//! columns: where its blocks stand and what they say (HDF5 File Format Specification 3.0, "Format Signature and Superblock", "Data Object
//! Headers", "The Extensible Array Index" and "Version 2 B-trees"), what the file is once the pieces of its creation are shown, and the log
//! of a session that creates it. Each law is the clause of a function without parameters; its statement is a definition in specs/. Nothing
//! here runs.
#![tactic(auto)]

mod birth;
mod examples;
mod files;
mod logs;

pub use birth::{born, created_born};
pub use examples::as_outside;
pub use files::{
    created_array, created_known, created_places, created_sizes, created_stands, fill_given,
};
pub use logs::creation_laws;
