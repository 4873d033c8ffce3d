//! The writes of new rows.
ghost use Rattle.std.specs.Prelude.{◌≡◌, ◌+◌, ◌-◌, ◌*◌, ◌<◌, ◌≤◌, ◌^◌, ◌++◌, [], ◌∷◌, length, Some, OnOk, ℕ, true, false};
ghost use Rattle.std.specs.List.{slice_get};
ghost use Rattle.h5w_model.specs.Images.{pieces};
ghost use Rattle.h5w_model.specs.Numbers.{range};
ghost use Rattle.h5w_chunks.specs.declared.grid.ChunkPlace.{ChunkPlace};
ghost use Rattle.h5w_chunks.specs.Grids.{IsGrid, chunk_len, copies, dataset_of, fill_cell, row_len};
ghost use Rattle.h5w_chunks.specs.Shares.{new_chunk, new_writes, own_row, row_blocks, share_blocks, share_of, share_rows, touched, writes_of};
ghost use Rattle.h5w_chunks.specs.Rows.{IsShare, RowsWritten};

use crate::grid::{ChunkPlace, Grid};
use crate::share::Share;
use h5w_bytes::put_pieces;
use h5w_model::{OutOfMemory, PIECE, Write};

/// Adds the writes that put some bytes at a place, and makes room for them.
fn push_pieces(place: u64, bytes: &[u8], out: &mut Vec<Write>) -> Result<(), OutOfMemory>
    requires { place + length bytes.now < 2 ^ 64 }
    ensures { OnOk result (out.new.items ≡ out.old.items ++ pieces place bytes.now) }
{
    out.reserve(bytes.len().div_ceil(PIECE))?;
    put_pieces(place, bytes, out);
    Ok(())
}

impl Grid {
    /// Adds the writes of the rows `from` up to but not including `to`, in rising order of their chunks' keys.
    ///
    /// `cells` are these rows' cells, row by row; `places` names each chunk that they touch, in that order.
    /// A stored chunk gets its new cells alone, a new one is written whole, with the fill in all other cells.
    /// After a refusal `out` may have some of the writes.
    pub fn new_bytes(
        &self,
        cells: &[u8],
        from: u64,
        to: u64,
        places: &[ChunkPlace],
        out: &mut Vec<Write>,
    ) -> Result<(), OutOfMemory>
        requires grid { IsGrid self.now }
        requires order { from ≤ to }
        requires count { length cells.now ≡ (to - from) * self.now.shape.cols * self.now.int_type.size }
        requires places { length places.now ≡ touched (dataset_of self.now) from to }
        requires ends { (k : ℕ) (p : ChunkPlace) → slice_get places.now k ≡ Some p → p.address + chunk_len (dataset_of self.now) < 2 ^ 64 }
        ensures exact { OnOk result (out.new.items ≡ out.old.items ++ new_writes (dataset_of self.now) cells.now from to places.now) }
        ensures does { RowsWritten (dataset_of self.now) cells.now from to places.now (new_writes (dataset_of self.now) cells.now from to places.now) }
    {
        for (k, place) in places.iter().enumerate() {
            let share = self.share(from, to, k as u64);
            self.put_share(cells, &share, place, out)?;
        }
        Ok(())
    }

    /// Adds the writes of a share.
    fn put_share(
        &self,
        cells: &[u8],
        share: &Share,
        place: &ChunkPlace,
        out: &mut Vec<Write>,
    ) -> Result<(), OutOfMemory>
        requires grid { IsGrid self.now }
        requires share { IsShare (dataset_of self.now) cells.now share.now }
        requires ends { place.now.address + chunk_len (dataset_of self.now) < 2 ^ 64 }
        ensures { OnOk result (out.new.items ≡ out.old.items ++ writes_of (share_blocks (dataset_of self.now) cells.now share.now place.now)) }
    {
        if !place.stored {
            return self.put_new(cells, share, place.address, out);
        }
        let at = place.address + share.first * self.row_len();
        if share.columns == self.layout.chunk.1 {
            self.put_whole_rows(cells, share, at, out)
        } else {
            self.put_each_row(cells, share, at, out)
        }
    }

    /// Adds the writes of a new chunk.
    fn put_new(
        &self,
        cells: &[u8],
        share: &Share,
        address: u64,
        out: &mut Vec<Write>,
    ) -> Result<(), OutOfMemory>
        requires grid { IsGrid self.now }
        requires share { IsShare (dataset_of self.now) cells.now share.now }
        requires ends { address + chunk_len (dataset_of self.now) < 2 ^ 64 }
        ensures { OnOk result (out.new.items ≡ out.old.items ++ pieces address (new_chunk (dataset_of self.now) cells.now share.now)) }
    {
        let (rows, cols) = self.layout.chunk;
        let mut bytes = Vec::with_capacity(*out.allocator(), self.chunk_len() as usize)?;
        self.put_fill(share.first * cols, &mut bytes)?;
        self.put_rows(cells, share, &mut bytes)?;
        self.put_fill((rows - share.first - share.rows) * cols, &mut bytes)?;
        push_pieces(address, &bytes, out)
    }

    /// Adds the writes of rows that have all columns of a chunk.
    fn put_whole_rows(
        &self,
        cells: &[u8],
        share: &Share,
        at: u64,
        out: &mut Vec<Write>,
    ) -> Result<(), OutOfMemory>
        requires grid { IsGrid self.now }
        requires share { IsShare (dataset_of self.now) cells.now share.now }
        requires whole { share.now.columns ≡ self.now.layout.chunk.1 }
        requires ends { at + share.now.rows * row_len (dataset_of self.now) < 2 ^ 64 }
        ensures { OnOk result (out.new.items ≡ out.old.items ++ pieces at (share_rows (dataset_of self.now) cells.now share.now)) }
    {
        if share.columns == self.shape.cols {
            return push_pieces(at, self.run(cells, share), out);
        }
        let mut bytes = Vec::with_capacity(
            *out.allocator(),
            (share.rows * self.row_len()) as usize,
        )?;
        self.put_rows(cells, share, &mut bytes)?;
        push_pieces(at, &bytes, out)
    }

    /// Adds the writes of rows that have a part of a chunk's columns.
    fn put_each_row(
        &self,
        cells: &[u8],
        share: &Share,
        at: u64,
        out: &mut Vec<Write>,
    ) -> Result<(), OutOfMemory>
        requires grid { IsGrid self.now }
        requires share { IsShare (dataset_of self.now) cells.now share.now }
        requires ends { at + share.now.rows * row_len (dataset_of self.now) < 2 ^ 64 }
        ensures { OnOk result (out.new.items ≡ out.old.items ++ writes_of (row_blocks (own_row (dataset_of self.now) cells.now share.now) at (row_len (dataset_of self.now)) 0 share.now.rows)) }
    {
        let mut place = at;
        for t in 0..share.rows {
            push_pieces(place, self.row(cells, share, t), out)?;
            place += self.row_len();
        }
        Ok(())
    }

    /// Adds the rows of a share as a chunk has them, with the fill in the cells past the last column.
    fn put_rows(&self, cells: &[u8], share: &Share, out: &mut Vec<u8>) -> Result<(), OutOfMemory>
        requires grid { IsGrid self.now }
        requires share { IsShare (dataset_of self.now) cells.now share.now }
        requires bound { length out.old.items + share.now.rows * row_len (dataset_of self.now) ≤ 2 ^ 32 }
        ensures { OnOk result (out.new.items ≡ out.old.items ++ share_rows (dataset_of self.now) cells.now share.now) }
    {
        if share.columns == self.layout.chunk.1 && share.columns == self.shape.cols {
            out.extend_from_slice(self.run(cells, share))?;
            return Ok(());
        }
        for t in 0..share.rows {
            out.extend_from_slice(self.row(cells, share, t))?;
            self.put_fill(self.layout.chunk.1 - share.columns, out)?;
        }
        Ok(())
    }

    /// The cells of a share of all columns, which stand one behind the other.
    fn run<'a>(&self, cells: &'a [u8], share: &Share) -> &'a [u8]
        requires grid { IsGrid self.now }
        requires share { IsShare (dataset_of self.now) cells.now share.now }
        requires whole { share.now.columns ≡ self.now.layout.chunk.1 }
        requires all { share.now.columns ≡ self.now.shape.cols }
        ensures { result.now ≡ share_rows (dataset_of self.now) cells.now share.now }
    {
        let at = share.at as usize;
        &cells[at..at + (share.rows * self.row_len()) as usize]
    }

    /// The cells of row `t` of a share.
    fn row<'a>(&self, cells: &'a [u8], share: &Share, t: u64) -> &'a [u8]
        requires grid { IsGrid self.now }
        requires share { IsShare (dataset_of self.now) cells.now share.now }
        requires inside { t < share.now.rows }
        ensures exact { result.now ≡ own_row (dataset_of self.now) cells.now share.now t }
        ensures sized { length result.now ≡ share.now.columns * self.now.int_type.size }
    {
        let at = (share.at + t * (self.shape.cols * self.size())) as usize;
        &cells[at..at + (share.columns * self.size()) as usize]
    }
}
