//! What stays the same through an append.

use std::alloc::Global;

/// The file that an append writes, where its lines take memory, and how often its disk had failed before.
#[derive(Clone, Copy)]
pub struct Target<'f> {
    pub alloc: Global,
    pub file: &'f str,
    /// The disk's count of faults at the beginning: where it is another one later, nothing more is put.
    pub faults: u64,
}
