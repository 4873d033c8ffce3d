//! Another writer goes on with the file of a session, wherever that stopped. Each law is the clause of a function without
//! parameters; its statement is a definition in specs/. Nothing here runs.
#![tactic(auto)]

mod one;
mod several;

pub use one::{
    answers_one, answers_session, begun_reopens, carries, carries_one, created_told, never_refused,
    taken_is_begun, taken_runs,
};
pub use several::{answers_all, carries_all, never_refused_all, stays_alike, taken_anew};
