//! A reader that polls within a script of one writer: how what it knows, and what is left of its call, goes with what the
//! script keeps of it, from its call's beginning over each event of the log to its answer. Each law is the clause of a
//! function without parameters, its statement a definition in specs/, and the lemmas in proofs/ are for the crates above
//! to cite. Nothing here runs.
#![tactic(auto)]

mod attempts;
mod calls;
mod endings;
mod looks;
mod lookups;
mod one_by_one;
mod scripts;

pub use attempts::looks_of_attempts;
pub use calls::{call_begins, other_events};
pub use endings::calls_end;
pub use looks::looks_reply;
pub use lookups::lookups_visit;
pub use one_by_one::looks_one_by_one;
pub use scripts::{begin_lines, look_lines, writer_lines};
