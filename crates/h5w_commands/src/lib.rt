//! The commands of the program, over any source, sink and disk: [`run`] does what words ask for. Each command has a file of its name, which
//! hands what the words give to its engine.
#![tactic(auto)]

mod append;
mod check;
mod clear;
mod live;
mod make;
mod new;
mod plain;
mod play;
mod poll;
mod program;
mod repack;
mod stop;

pub use program::run;
