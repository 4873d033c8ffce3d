//! Trials of runs in threads: through gates that hold an actor until another has come, and with a second image. There are only tests here,
//! so that no crate is proved once more for them.
#![tactic(auto)]

#[cfg(test)]
mod gates;
#[cfg(test)]
mod helpers;
#[cfg(test)]
mod mirrors;
#[cfg(test)]
mod successors;
