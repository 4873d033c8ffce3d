//! One theory of safe steps for all sessions: what a session's pieces do to a file that readers poll. A file at a moment is what the
//! check of it finds, step by step, whoever made it; one piece is one of four steps (bytes that no reader reaches, the superblock again,
//! a block in place, the dataset header); and of the past one list of ranges is kept, those that were reached behind the blocks in
//! place since the last header piece. Nothing of this names a kind of index, a spelling or a number of chunks.
//!
//! Beside it stands what the check of a file tells of its headers and its index: where their ranges lie, that what is looked at lies in
//! them, that each key of the index is answered, and that a write that misses the blocks leaves all of it. It holds of every valid file,
//! whoever made it, for arrays of up to 131,060 chunks and trees of depth 0 to 3.
//!
//! The third part is what a commit does to the header of a dataset, for any chunk 0 of any maker (times, phase values, creation orders,
//! other messages, and continuation blocks elsewhere): the header is read as the same messages, with another number of rows and, where one
//! is given, another index address.
//!
//! Each law is the clause of a function without parameters; its statement is a definition in specs/. Nothing here runs.
#![tactic(auto)]

mod commits;
mod counts;
mod files;
mod headers;
mod indexes;
mod logs;
mod needed;
mod places;
mod plans;
mod ranges;
mod sessions;
mod spelled;
mod steps;
mod writers;

pub use commits::{index_written, rows_written};
pub use counts::disjoint_part;
pub use files::{
    growing_header, header_writable, index_committed, layout_missed, rows_committed,
    starting_header,
};
pub use headers::{header_missed, header_tells, root_missed, root_tells};
pub use indexes::{
    behind_missed, checked_index, index_by_end, index_missed, index_of_parts, visited_behind,
};
pub use logs::{begin_goes, event_goes, moment_found, piece_goes};
pub use needed::{needed_named, table_laws};
pub use places::{free_place, own_cells, past_end, retired_place, unseen_pieces};
pub use plans::{flush_from, flush_leads, plan_leads, plans_join};
pub use ranges::{missed_stay, overlap_laws};
pub use sessions::{
    append_runs, flush_runs, goes_runs, opened_goes, opens, other_laws, piece_runs, runs_lead,
};
pub use spelled::{spelled_read, spelled_stands};
pub use steps::{growing_step, starting_step};
pub use writers::{growing_commits, naming_switches, starting_commits};
