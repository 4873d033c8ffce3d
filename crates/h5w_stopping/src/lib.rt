//! What readers find wherever a writer stops: the lines of a writer's script are done on a file in memory, each piece becomes visible at
//! once, and the report of the log is written.
#![tactic(auto)]

mod stopping;
mod writing;

pub use stopping::stop;
