use crate::memory::Values;

/// What is answered to an event. Rows, pieces and chunks are counted; places and sizes are in bytes.
#[derive(Debug, Drop)]
pub enum Reply {
    /// The rows appended in all, and the pieces that are pending: those that this append wrote before their flush.
    Appended {
        rows: u64,
        pending: u64,
    },
    /// The pieces that a flush planned.
    Flushing {
        pieces: u64,
    },
    /// How many pieces became visible, and how many are left.
    Written {
        pieces: u64,
        pending: u64,
    },
    /// Pieces are pending, of a flush or of an append.
    Busy {
        pending: u64,
    },
    Stopped,
    /// The first value outside the type, by its index in the append.
    OutOfRange {
        index: u64,
        value: i128,
    },
    FullChunks {
        chunks: u64,
        limit: u64,
    },
    FullSpace {
        at: u64,
        size: u64,
        limit: u64,
    },
    Deep,
    Opening {
        reader: u64,
    },
    Refreshing {
        reader: u64,
    },
    Reading {
        reader: u64,
    },
    Rows {
        reader: u64,
        rows: u64,
    },
    Values {
        reader: u64,
        values: Values,
    },
    Again {
        reader: u64,
        attempts: u32,
    },
    Looking {
        reader: u64,
    },
    Idle {
        reader: u64,
    },
    ReaderBusy {
        reader: u64,
    },
    NoReader {
        reader: u64,
    },
    ReaderExists {
        reader: u64,
    },
    OutOfRows {
        reader: u64,
        from: u64,
        count: u64,
        rows: u64,
    },
}
