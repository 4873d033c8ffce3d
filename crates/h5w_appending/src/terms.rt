//! On which terms an append begins.

use h5w_several_open::Beginning;

/// How an append begins over its file, and what it keeps to.
#[derive(Clone, Copy)]
pub struct Terms<'f> {
    pub by: Beginning,
    pub file: &'f str,
    /// How many bytes the file may grow to.
    pub limit: u64,
    /// How many bytes of rows may wait.
    pub budget: u64,
    /// No place that is let go is used again.
    pub keeps: bool,
}
