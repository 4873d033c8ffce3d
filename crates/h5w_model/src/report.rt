/// What a flush of a run in threads came to: how many pieces were visible right after the dataset header's, and the rows flushed then.
#[derive(Clone, Copy)]
pub struct FlushLine {
    pub pieces: u64,
    pub rows: u64,
}

/// What a reader's call was answered in such a run.
#[derive(Clone, Copy)]
pub enum Poll {
    /// How many rows, and the sum of all values in them.
    Rows { rows: u64, sum: i128 },
    /// The dataset header changed in each of so many attempts.
    Again { attempts: u32 },
}

/// One call of one reader of such a run, both counted from 1: how many pieces the reader had seen before the call and after it, and
/// what it was answered.
#[derive(Clone, Copy)]
pub struct PollLine {
    pub reader: u32,
    pub poll: u32,
    pub before: u64,
    pub after: u64,
    pub answer: Poll,
}
