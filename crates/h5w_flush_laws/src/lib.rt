//! The laws of a flush, whatever the index: given what a session knows of its file when nothing is pending, and the parts of a flush, the
//! pieces in the writer's order (the bytes of new rows, copies of index blocks, the superblock, the blocks in place, the header) are safe
//! steps from this file to the next, and the session knows that one as well. Each premise is one that a call gives. Each law is the
//! clause of a function without parameters; its statement is a definition in specs/. Nothing here runs.
#![tactic(auto)]

mod flushes;
mod rows;
mod spaces;

pub use flushes::{
    begin_knows, early_blocks, end_known, file_once, flush_safe, freed_known, knows_again,
    knows_then, rows_alone_flush, session_laws, unseen_known,
};
pub use rows::{early_rows, new_chunks_more, places_apart, rows_anywhere, rows_flush};
pub use spaces::{committed_live, copy_laws, move_laws, taken_laws};
