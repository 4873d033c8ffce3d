//! By what a session creates a file, and within which bounds (docs/FORMAT.md, "Limits").
#![tactic(auto)]

mod options;

pub use h5w_types::IntType;
pub use options::Options;
