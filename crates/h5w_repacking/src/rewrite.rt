//! What a repack makes of a file.

/// Which file is written anew, into which one, and what is told of that.
#[derive(Clone, Copy)]
pub struct Rewrite<'f> {
    pub file: &'f str,
    /// The name of the new file.
    pub to: &'f str,
    /// How many bytes the new file may have.
    pub limit: u64,
    /// Whether the new file's ranges are told.
    pub ranges: bool,
}
