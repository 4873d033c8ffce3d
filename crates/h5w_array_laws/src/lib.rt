//! An extensible array as a store of blocks (HDF5 File Format Specification 3.0, "The Extensible Array Index"): what holds of each block, the map of
//! chunk numbers to addresses, the ranges that it uses, and what a reader and a check find on the image of a file. Each law is the clause
//! of a function without parameters; its statement is a definition in specs/. Nothing here runs.
#![tactic(auto)]

mod images;
mod naming;
mod plans;
mod tables;
mod writes;

pub use images::{
    all_stand, array_is_read, array_stays, copies_stand, created_stands, created_starts,
    in_place_says, standing_says,
};
pub use naming::{
    copies_steps, file_tells, fresh_apart, fresh_unseen, in_place_steps, more_apart, table_stays,
};
pub use plans::{plans_array, plans_numbers};
pub use tables::{array_table, header_looks, plan_is_read, standing_index};
pub use writes::{copies_miss, in_place_stands, plan_copies, writes_leave};
