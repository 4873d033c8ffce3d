//! The index of a session's chunks, whichever its kind: an extensible array or a version 2 B-tree, under one contract.
//!
//! HDF5 File Format Specification 3.0, "The Extensible Array Index" and "Version 2 B-trees".
#![tactic(auto)]

mod blocks;
mod flush;
mod index;
mod laws;

pub use flush::IndexFlush;
pub use h5w_bt_index::{InsertError, Key};
pub use index::Index;
pub use laws::{
    behind_laws, depth_laws, full_bounds, held_tells, index_begins, index_is_flush, index_part,
    index_rests_then, like_laws, mark_laws, naming_laws, own_laws, placing_laws, plan_bounds,
    plan_tells, rests_forgotten, rests_freed, rests_held, rests_missed, same_ranges, set_tells,
    unset_tells,
};
