//! A file that is made of a generator's values.
ghost use Rattle.std.specs.Prelude.{◌≤◌, IfOk};
ghost use Rattle.h5w_make.specs.Makes.{IsMade};

use crate::batch::write;
use crate::reading::{blocks, read_back};
use h5w_model::OutOfMemory;
use std::alloc::Global;

/// What is told of a file that was made.
#[derive(Clone, Copy, Debug, PartialEq, Eq)]
pub struct Made {
    /// The rows that a reader finds.
    pub rows: u64,
    /// The sum of the values that it reads.
    pub sum: u64,
    /// The pieces that became visible.
    pub pieces: u64,
    /// The blocks that are no chunks, the superblock among them.
    pub blocks: u64,
}

/// Makes a file in memory: a dataset `data` of integers of 4 bytes, 64 in a chunk, of at most 2^40 bytes. The first `n` numbers of the
/// generator that begins with the seed are appended, with a flush after each 1,000 and at the end, and the session is closed. Then the
/// file is checked, and a reader reads all values, part by part. Nothing but memory can be wanting.
pub fn make(alloc: Global, n: u64, seed: u64) -> Result<Made, OutOfMemory>
    requires { n ≤ 1000000 }
    ensures { IfOk result (IsMade n seed) }
{
    let mut image = write(alloc, n, seed)?;
    let pieces = image.journal().len();
    let blocks = blocks(alloc, &mut image)?;
    let (rows, sum) = read_back(alloc, &mut image)?;
    Ok(Made {
        rows,
        sum,
        pieces,
        blocks,
    })
}
