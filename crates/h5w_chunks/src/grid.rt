//! A dataset's grid of chunks.
ghost use Rattle.std.specs.Prelude.{◌≡◌, ◌+◌, ◌*◌, ◌/◌, ◌^◌, ◌<◌, ◌≤◌};
ghost use Rattle.h5w_model.specs.Tables.{cell_offset, chunks_across};

use h5w_layout::{Fill, Layout};
use h5w_model::Key;
use h5w_types::{IntType, Shape};

/// What decides where the cells of a dataset stand: its shape, its type, its fill and its chunks.
#[derive(Clone, Copy)]
pub struct Grid {
    pub shape: Shape,
    pub int_type: IntType,
    pub fill: Fill,
    pub layout: Layout,
}

/// A chunk that new rows go into.
#[derive(Clone, Copy)]
pub struct ChunkPlace {
    /// The address of its first byte.
    pub address: u64,
    /// Whether it was written before: then its other cells stay as they are. Else it is written whole.
    pub stored: bool,
}

impl Grid {
    ghost use Rattle.h5w_chunks.specs.Grids.{IsGrid, chunk_len, dataset_of, key_of, row_len};

    /// The place in the grid of the chunk of a row and a column, and where their cell stands in it, in bytes.
    pub fn locate(&self, row: u64, column: u64) -> (Key, u64)
        requires { IsGrid self.now }
        ensures key { result.0 ≡ key_of (dataset_of self.now) row column }
        ensures offset { result.1 ≡ cell_offset (dataset_of self.now) row column }
        ensures inside { result.1 + self.now.int_type.size ≤ chunk_len (dataset_of self.now) }
    {
        let (rows, cols) = self.layout.chunk;
        let key = Key {
            i: row / rows,
            j: column / cols,
        };
        (key, (row % rows * cols + column % cols) * self.size())
    }

    /// How many bytes a chunk has.
    pub fn chunk_len(&self) -> u64
        requires { IsGrid self.now }
        ensures exact { result ≡ chunk_len (dataset_of self.now) }
        ensures small { result < 2 ^ 32 }
    {
        self.layout.chunk.0 * self.row_len()
    }

    /// How many bytes a row of a chunk has.
    pub(crate) fn row_len(&self) -> u64
        requires { IsGrid self.now }
        ensures { result ≡ row_len (dataset_of self.now) }
    {
        self.layout.chunk.1 * self.size()
    }

    /// How many bytes a cell has.
    pub(crate) fn size(&self) -> u64
        ensures { result ≡ self.now.int_type.size }
    {
        u64::from(self.int_type.size)
    }

    /// How many chunks stand side by side.
    pub fn across(&self) -> u64
        requires { IsGrid self.now }
        ensures { result ≡ chunks_across (dataset_of self.now) }
    {
        self.shape.cols.div_ceil(self.layout.chunk.1)
    }
}
