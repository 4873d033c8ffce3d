//! A script over several datasets beside the session that carries it out: what each line makes of both. Each law is the
//! clause of a function without parameters, its statement a definition in specs/. Nothing here runs.
#![tactic(auto)]

mod steps;

pub use steps::{
    append_steps, flush_steps, full_flush, logs_hold, reader_steps, refused_flush, refused_steps,
    take_steps, writer_steps,
};
