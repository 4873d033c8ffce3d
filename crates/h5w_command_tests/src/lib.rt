//! Trials of the whole program in memory, row by row, and of files that change between looks. There are only tests here, so that no crate
//! is proved once more for them.
#![tactic(auto)]

#[cfg(test)]
mod appends;
#[cfg(test)]
mod early;
#[cfg(test)]
mod files;
#[cfg(test)]
mod fixed;
#[cfg(test)]
mod halves;
#[cfg(test)]
mod lives;
#[cfg(test)]
mod named;
#[cfg(test)]
mod new_files;
#[cfg(test)]
mod reopened;
#[cfg(test)]
mod repacks;
#[cfg(test)]
mod restless;
#[cfg(test)]
mod rows;
#[cfg(test)]
mod scripts;
#[cfg(test)]
mod several;
#[cfg(test)]
mod steps;
#[cfg(test)]
mod stops;
#[cfg(test)]
mod successors;
#[cfg(test)]
mod takes;
#[cfg(test)]
mod trees;
#[cfg(test)]
mod types;
