//! A flush that is planned and only has to be carried out: it has all memory and all places that it needs.
use crate::backlog::Rows;
use h5w_index::{Index, IndexFlush, Key};
use h5w_model::Write;
use h5w_space::Places;

/// The writes of the rows, and the plan of the index's blocks.
#[derive(Drop)]
pub struct Prepared {
    /// The writes of the rows, with room for all pieces behind them.
    pub writes: Vec<Write>,
    pub begun: IndexFlush,
    /// How many pieces follow the writes of the rows at most: copies, superblock, blocks in place, header.
    pub after: usize,
    /// The file's end, in bytes, once the places are taken.
    pub end: u64,
}

/// A flush into an index that is there. The session's index names the chunks already, and its places are taken.
#[derive(Drop)]
pub struct Growing {
    pub prepared: Prepared,
    /// The rows that waited, the places before, and the keys of the chunks that the index names since.
    pub rows: Rows,
    pub before: Places,
    pub added: Vec<Key>,
}

/// A flush that makes the index, or an array's index block. Nothing of the session has changed.
#[derive(Drop)]
pub struct Starting {
    pub prepared: Prepared,
    /// The index that is made, which names the chunks, the place of its header, and the places once all are taken.
    pub index: Index,
    pub at: u64,
    pub places: Places,
}

/// A flush between its two halves.
#[derive(Drop)]
pub enum Planned {
    /// Into one chunk that has its place, with no block of the index: the writes of the rows, with room for a superblock and a header.
    Alone(Vec<Write>),
    Grows(Growing),
    Starts(Starting),
}
