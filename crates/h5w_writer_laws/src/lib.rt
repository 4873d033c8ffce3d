//! What readers get of the log of every session, also of one that began over a file, what a session knows that is one of several, and what a
//! piece that becomes visible leaves of its session.
//! Each law is the clause of a function without parameters, its statement a definition in specs/. Nothing here runs.
#![tactic(auto)]

mod leaves;
mod served;
mod sessions;
mod told;

pub use leaves::piece_leaves;
pub use served::session_serves;
pub use sessions::{over_laws, room_stays, shown_laws, standing_laws};
pub use told::told_laws;
