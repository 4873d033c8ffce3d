//! A writer that a handle of h5w_handles holds: the calls of a session, each with a code in place of its answer. What a session of several datasets
//! needs too is public.
#![tactic(auto)]

mod given;
mod opening;
mod options;
mod room;
mod telling;
mod writer;
mod writing;

pub use given::Given;
pub use opening::{create, open, refuse_file};
pub use options::{H5wOptions, is_budget, is_limit};
pub use room::Room;
pub use telling::{append_told, close_told, flush_told, refuse};
pub use writer::{LINE, put_piece, refuse_memory, refuse_rows, signed_values, unsigned_values};
pub use writing::{
    append, append_unsigned, close, columns, failed, flush, keep_retired, next, rows, written,
};
