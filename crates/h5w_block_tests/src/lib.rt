//! Trials of what no run of the program shows of low crates: what waits for what, an image that many threads share, and a ring that is
//! full. There are only tests here, so that no crate is proved once more for them.
#![tactic(auto)]

#[cfg(test)]
mod mirrors;
#[cfg(test)]
mod sharing;
#[cfg(test)]
mod waiting;
