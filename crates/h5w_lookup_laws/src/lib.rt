//! Laws over what an image shows: the program of looks for a chunk's address finds it exactly where the blocks of its index say it,
//! in the standard's own words, and a whole reading exactly where the plain relation of it holds; and files with trees from
//! outside, and what the definitions say of them, proved by computing. Each is the clause of a function with an empty body:
//! nothing here runs.
#![tactic(auto)]

mod files;
mod relations;

pub use files::{five_keys, miscounted_leaf, swapped_keys, tree_of_depth_1, tree_of_depth_2};
pub use relations::{chunk_addresses, readings, tree_slots};
