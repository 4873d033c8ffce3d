//! The first flush of an index: until its pieces are shown no chunk has an address (HDF5 File Format Specification 3.0, "Data Layout
//! Message"). Other makers leave such files, with rows that have no chunk. The new blocks come at new places, which no reader reaches until
//! a piece that is written in place names them, with the rows. What holds of an index of either kind is said once, by the flush's rows, its
//! places and what its new blocks say. Beside it stands a file whose layout names no extensible array ("The Extensible Array Index"): its first
//! flush makes one; and a file whose array is a header alone: the layout names it, and it names no index block, which the first flush makes, while
//! the header stays where it stands. Each law is the clause of a function without parameters; its statement is a definition in specs/. Nothing here runs.
#![tactic(auto)]

mod alone;
mod alone_calls;
mod alone_flushes;
mod calls;
mod first;
mod flushes;
mod starting;

pub use alone::{alone_begins, alone_ends, alone_freed, alone_nowhere};
pub use alone_calls::{block_calls, block_pending};
pub use alone_flushes::{block_is_flush, block_leads, block_pieces, block_runs};
pub use calls::{start_calls, start_pending, two_taken};
pub use first::{
    first_is_flush, first_pieces, first_runs, first_taken, unnamed_begins, unnamed_nowhere,
};
pub use flushes::{
    holder_changed, named_changed, start_is_flush, start_leads, start_part, start_pieces,
    start_runs,
};
pub use starting::{
    blank_held, blank_map, created_blank, rests_stay, start_begins, start_ends, start_freed,
    start_of, start_takes, taken_again,
};
