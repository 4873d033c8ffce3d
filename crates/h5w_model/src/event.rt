use crate::memory::Values;

/// What is asked of a world of one writer, one image and readers 1 to 16.
#[derive(Debug, Drop)]
pub enum Event {
    /// The writer appends these values, rows one after another.
    Append(Values),
    /// The writer plans the pieces of all unflushed rows.
    Flush,
    /// The oldest pending piece becomes visible.
    Visible,
    /// The writer stops, and drops what is pending.
    Stop,
    /// A reader opens.
    Open { reader: u64 },
    /// A reader refreshes.
    Refresh { reader: u64 },
    /// A reader reads `count` rows from row `from` on.
    Read { reader: u64, from: u64, count: u64 },
    /// A reader takes one look.
    Look { reader: u64 },
}
