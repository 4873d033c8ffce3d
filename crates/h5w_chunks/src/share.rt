//! The shares that chunks have in new rows.
ghost use Rattle.std.specs.Prelude.{◌≡◌, ◌-◌, ◌*◌, ◌/◌, ◌^◌, ◌<◌, ◌≤◌, ℕ};
ghost use Rattle.h5w_model.specs.Logs.{div_up};

use crate::grid::Grid;
use h5w_layout::IndexKind;
use h5w_model::Key;

/// What a chunk has of some new rows.
#[derive(Clone, Copy)]
pub struct Share {
    /// The first of the chunk's rows that it has, counted in the chunk.
    pub first: u64,
    /// How many rows.
    pub rows: u64,
    /// How many of the chunk's columns the dataset has.
    pub columns: u64,
    /// Where its first cell stands among the cells of the new rows, in bytes.
    pub at: u64,
}

impl Grid {
    ghost use Rattle.h5w_chunks.specs.Grids.{IsGrid, cell_key, dataset_of};
    ghost use Rattle.h5w_chunks.specs.Shares.{chunk_number, first_line, share_of, touched, touched_band, touched_key};

    /// How many chunks the rows `from` up to but not including `to` touch.
    pub fn touched(&self, from: u64, to: u64) -> u64
        requires grid { IsGrid self.now }
        requires room { (to - from) * self.now.shape.cols < 2 ^ 64 }
        ensures { result ≡ touched (dataset_of self.now) from to }
    {
        if from < to {
            let rows = self.layout.chunk.0;
            (to.div_ceil(rows) - from / rows) * self.across()
        } else {
            0
        }
    }

    /// The key by which the index has touched chunk `k` of the rows from `from` up to but not including `to`: they are
    /// numbered in rising order of keys. An array counts all chunks, so their number must be one of 64 bits.
    pub fn touched_key(&self, from: u64, to: u64, k: u64) -> Key
        requires grid { IsGrid self.now }
        requires known { k < touched (dataset_of self.now) from to }
        requires lines { first_line (dataset_of self.now) (div_up to self.now.layout.chunk.0) < 2 ^ 64 }
        ensures exact { result ≡ touched_key (dataset_of self.now) from k }
        ensures cells { (row column : ℕ) → from / self.now.layout.chunk.0 ≤ row / self.now.layout.chunk.0 → k ≡ chunk_number (dataset_of self.now) from row column
            → result ≡ cell_key (dataset_of self.now) row column }
    {
        let band = from / self.layout.chunk.0;
        let across = self.across();
        match self.layout.index {
            IndexKind::Array => Key {
                i: band * across + k,
                j: 0,
            },
            IndexKind::Tree => Key {
                i: band + k / across,
                j: k % across,
            },
        }
    }

    /// The band of rows of touched chunk `k` of the rows from `from` up to but not including `to`.
    pub fn touched_band(&self, from: u64, to: u64, k: u64) -> u64
        requires grid { IsGrid self.now }
        requires known { k < touched (dataset_of self.now) from to }
        ensures { result ≡ touched_band (dataset_of self.now) from k }
    {
        from / self.layout.chunk.0 + k / self.across()
    }

    /// The share of touched chunk `k` in the rows `from` up to but not including `to`.
    pub(crate) fn share(&self, from: u64, to: u64, k: u64) -> Share
        requires grid { IsGrid self.now }
        requires order { from ≤ to }
        requires known { k < touched (dataset_of self.now) from to }
        requires room { (to - from) * self.now.shape.cols * self.now.int_type.size < 2 ^ 64 }
        ensures { result ≡ share_of (dataset_of self.now) from to k }
    {
        let (rows, cols) = self.layout.chunk;
        let across = self.across();
        let row = from.max((from / rows + k / across) * rows);
        let column = k % across * cols;
        Share {
            first: row % rows,
            rows: (to - row).min(rows - row % rows),
            columns: cols.min(self.shape.cols - column),
            at: ((row - from) * self.shape.cols + column) * self.size(),
        }
    }
}
