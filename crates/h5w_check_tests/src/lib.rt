//! Trials of the check of a file and of a session that is opened, on files byte by byte: how many looks it takes, and memory that is
//! refused. There are only tests here, so that no crate is proved once more for them.
#![tactic(auto)]

#[cfg(test)]
mod files;
#[cfg(test)]
mod looks;
#[cfg(test)]
mod packed;
#[cfg(test)]
mod refused;
