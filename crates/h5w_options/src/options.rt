use h5w_model::Bytes;
use h5w_types::IntType;

/// By what a session creates a file with a dataset, of one dimension or of two.
#[derive(Debug, Drop)]
pub struct Options {
    /// The dataset's name, 1 to 64 bytes.
    pub name: Bytes,
    /// The type of its integers, of 1, 2, 4 or 8 bytes.
    pub int_type: IntType,
    /// How many rows a chunk has, 1 to 65,536.
    pub chunk_rows: u64,
    /// How many columns a row has, and how many of them a chunk, 1 to 65,536 each: the dataset has two dimensions then. Without them it has
    /// one dimension, and a row is one value. A chunk has at most 16,777,216 bytes.
    pub columns: Option<(u64, u64)>,
    /// The second dimension's size is its maximum; else it may grow. Only with columns, and a chunk no wider than the columns.
    pub fixed: bool,
    /// The value of the type that cells have which no row was written to; without one it is 0, and the file says no fill.
    pub fill: Option<i128>,
    /// The most bytes of the file, 1,024 to 2^40.
    pub limit: u64,
    /// The most bytes of chunks and headers that may wait unwritten after an append, 1,024 to 2^30.
    pub budget: u64,
}
