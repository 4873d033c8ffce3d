use crate::memory::Bytes;

/// What an object header says before its messages
/// (HDF5 File Format Specification 3.0, "Data Object Header Prefix (Version 2)").
#[derive(Clone, Copy, Debug, PartialEq, Eq)]
pub struct Prefix {
    /// The length of chunk 0 in bytes, prefix and sum included, at most 2^64-1.
    pub total: u64,
    /// Where the messages begin, in bytes from the header's first.
    pub at: usize,
    /// How many bytes the messages and the gap take.
    pub len: u64,
    /// Whether each message has a creation order.
    pub tracked: bool,
}

/// A header message ("Data Object Header Messages").
#[derive(Debug, Drop)]
pub struct Msg {
    pub kind: u8,
    pub flags: u8,
    /// The place of the message's type byte, in bytes from the first that was handed in.
    pub at: u64,
    /// Its data.
    pub body: Bytes,
}
