//! What is asked of the machine, and what it answers.
use h5w_model::{Reply, Values};
use h5w_several_writer::Parts;

/// What is asked of a machine of one writer, one image and readers 1 to 16. Datasets are counted from 0.
#[derive(Drop)]
pub enum FileEvent {
    /// The writer appends these values to a dataset, rows one after another.
    Append { dataset: usize, values: Values },
    /// The writer plans the pieces of all unflushed rows, of all datasets.
    Flush,
    /// The oldest pending piece becomes visible.
    Visible,
    /// The writer stops, and drops what is pending.
    Stop,
    /// Another writer takes the file over from one that was stopped.
    Takeover,
    /// A reader opens a dataset.
    Open { reader: u64, dataset: usize },
    /// A reader refreshes.
    Refresh { reader: u64 },
    /// A reader reads `count` rows from row `from` on.
    Read { reader: u64, from: u64, count: u64 },
    /// A reader takes one look.
    Look { reader: u64 },
}

/// What is answered to an event.
#[derive(Drop)]
pub enum FileReply {
    /// How many pieces a flush planned for each dataset, in their order.
    Flushing { pieces: Parts },
    /// The writer was not stopped, so that nobody takes the file over.
    Running,
    /// How many rows of each dataset were flushed, in their order: with these another writer goes on.
    TakenOver { rows: Parts },
    /// A reply as a machine of one dataset gives it.
    Says(Reply),
}
