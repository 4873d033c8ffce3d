//! Several datasets in one file, and a session that goes on where another one stopped. A piece of one dataset's flush changes nothing for
//! another but the end of the file, so a flush of several, part after part, takes the log of each from one rest to the next. Each law is the
//! clause of a function without parameters; its statement is a definition in specs/. Nothing here runs.
#![tactic(auto)]

mod beside;
mod logs;
mod together;
mod turns;

pub use beside::{
    apart_beside, beside_flush, beside_held, beside_stays, disjoint_joined, flush_untold,
    others_know, settled_apart,
};
pub use logs::{piece_due, plan_due, seen_laws, settled_goes, settled_laws, takes_over};
pub use together::{all_found, flush_stays_valid};
pub use turns::{own_between, turn_between, turn_known, turn_runs, turns_follow};
