//! A session of several datasets that creates its file: the pieces of the creation, the session that goes on behind
//! them, of which log it is the session, and what the file is once these pieces are shown.
#![tactic(auto)]

mod creation;
mod laws;
mod parts;

pub use creation::{NewSession, create};
pub use laws::{creates_each, creates_empty, creates_one, creates_standing};
