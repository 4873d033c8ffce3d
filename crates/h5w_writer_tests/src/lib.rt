//! Trials of a session, and of a world of one writer and its readers, whose calls fail: an image that fails, and memory that is refused.
//! There are only tests here, so that no crate is proved once more for them.
#![tactic(auto)]

#[cfg(test)]
mod endings;
#[cfg(test)]
mod steps;
