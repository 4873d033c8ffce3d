//! How a file is polled.

/// How often a poll calls its reader, and what it writes of each call.
#[derive(Clone, Copy)]
pub struct Polls {
    /// How many calls, the open among them, 1 at least.
    pub times: u64,
    /// How many attempts a call makes at most.
    pub attempts: u32,
    /// Whether each new row is written behind the count.
    pub values: bool,
}
