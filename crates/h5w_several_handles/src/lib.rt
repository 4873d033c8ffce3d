//! A writer of up to eight datasets of one file that a handle of h5w_handles holds: the calls of a session, each with a code in place of its answer.
#![tactic(auto)]

mod bounds;
mod calls;
mod counting;
mod names;
mod opening;
mod several;
mod showing;

pub use calls::{
    append, append_unsigned, close, columns, count, failed, flush, keep_retired, next, rows,
    written,
};
pub use opening::{create, open};
