use h5w_model::Write;

/// Where a chunk stands in the source, and where in the new file.
#[derive(Clone, Copy)]
pub struct Copied {
    pub from: u64,
    pub to: u64,
    /// How many bytes it has.
    pub len: u64,
}

/// One piece of the new file, of at most 512 bytes.
#[derive(Drop)]
pub enum Job {
    /// `len` bytes of the source from place `from` on are written at place `to`: a piece of a chunk.
    Chunk { from: u64, to: u64, len: usize },
    /// These bytes are written there: a piece of a block.
    Block(Write),
}
