//! The pieces of new rows' cells.
ghost use Rattle.std.specs.Prelude.{◌≡◌, ℕ, ◌+◌, ◌*◌, ◌-◌, ◌^◌, ◌<◌, ◌≤◌, ◌∷◌, ◌++◌, [], List, length, IfNone, IfOk, IfSome, Some, vec_len, vec_capacity};
ghost use Rattle.std.specs.List.{slice_get};
ghost use Rattle.h5w_model.specs.Tables.{chunks_across};
ghost use Rattle.h5w_chunks.specs.Grids.{IsGrid, chunk_len, dataset_of};
ghost use Rattle.h5w_chunks.specs.declared.grid.ChunkPlace.{ChunkPlace};
ghost use Rattle.h5w_chunks.specs.Early.{shift_of};
ghost use Rattle.h5w_chunks.specs.Rows.{RowsWritten};
ghost use Rattle.h5w_chunks.specs.Shares.{new_writes, share_of, touched};
ghost use Rattle.h5w_pieces.specs.NextPlaces.{next_from, next_places, writes_behind};
ghost use Rattle.h5w_pieces.specs.RowPieces.{chunk_pieces, most_pieces, own_pieces};

use h5w_chunks::{ChunkPlace, Grid};
use h5w_model::{OutOfMemory, PIECE, Write};
use std::alloc::Global;

/// How many pieces the rows `from` up to but not including `to` have at most in a stored chunk, of whose columns the dataset has so many.
fn own_pieces(grid: &Grid, from: u64, to: u64, columns: u64) -> u64
    requires grid { IsGrid grid.now }
    requires order { from ≤ to }
    requires columns { columns ≤ grid.now.layout.chunk.1 }
    ensures { result ≡ own_pieces (dataset_of grid.now) from to columns }
{
    let rows = (to - from).min(grid.layout.chunk.0);
    let line = columns * u64::from(grid.int_type.size);
    if columns == grid.layout.chunk.1 {
        (rows * line).div_ceil(PIECE as u64)
    } else {
        rows * line.div_ceil(PIECE as u64)
    }
}

/// How many of its chunk's columns the dataset has in touched chunk `k`.
fn columns_of(grid: &Grid, from: u64, to: u64, k: u64) -> u64
    requires grid { IsGrid grid.now }
    requires known { k < touched (dataset_of grid.now) from to }
    ensures exact { result ≡ (share_of (dataset_of grid.now) from to k).columns }
    ensures bound { result ≤ grid.now.layout.chunk.1 }
{
    let columns = grid.shape.cols;
    let width = grid.layout.chunk.1;
    let across = grid.across();
    let column = k % across * width;
    width.min(columns - column)
}

/// How many pieces the writes of the rows have at most in touched chunk `k`, which has this place.
fn chunk_pieces(grid: &Grid, from: u64, to: u64, k: u64, place: &ChunkPlace) -> u64
    requires grid { IsGrid grid.now }
    requires order { from ≤ to }
    requires known { k < touched (dataset_of grid.now) from to }
    ensures { result ≡ chunk_pieces (dataset_of grid.now) from to k place.now }
{
    if place.stored {
        own_pieces(grid, from, to, columns_of(grid, from, to, k))
    } else {
        grid.chunk_len().div_ceil(PIECE as u64)
    }
}

/// How many pieces the writes of rows behind the dataset's, up to but not including `to`, have at most that all go into a chunk with this
/// place: it has all columns of the dataset.
pub fn alone_pieces(grid: &Grid, to: u64, place: &ChunkPlace) -> u64
    requires grid { IsGrid grid.now }
    requires order { grid.now.shape.rows ≤ to }
    requires all { touched (dataset_of grid.now) grid.now.shape.rows to ≡ 1 }
    ensures exact { result ≡ chunk_pieces (dataset_of grid.now) grid.now.shape.rows to 0 place.now }
{
    if place.stored {
        own_pieces(grid, grid.shape.rows, to, grid.shape.cols)
    } else {
        grid.chunk_len().div_ceil(PIECE as u64)
    }
}

/// How many pieces the writes of the rows have at most, whose chunks have these places. None where no list has so many.
fn most_pieces(grid: &Grid, from: u64, to: u64, places: &[ChunkPlace]) -> Option<usize>
    requires grid { IsGrid grid.now }
    requires order { from ≤ to }
    requires all { length places.now ≡ touched (dataset_of grid.now) from to }
    ensures sum { IfSome result (λ n. n ≡ most_pieces (dataset_of grid.now) from to 0 places.now) }
    ensures enough { IfSome result (λ n. (cells : List ℕ) → length cells ≡ (to - from) * grid.now.shape.cols * grid.now.int_type.size
        → length (new_writes (dataset_of grid.now) cells from to places.now) ≤ n) }
    ensures none { IfNone result (2 ^ 64 ≤ most_pieces (dataset_of grid.now) from to 0 places.now) }
{
    let mut count = 0_usize;
    for (k, place) in places.iter().enumerate() {
        count = count.checked_add(chunk_pieces(grid, from, to, k as u64, place) as usize)?;
    }
    Some(count)
}

/// The writes of the rows `from` up to but not including `to`, whose chunks have these places, with room for so many behind them.
fn put_rows(
    alloc: Global,
    grid: &Grid,
    cells: &[u8],
    from: u64,
    to: u64,
    places: &[ChunkPlace],
    after: usize,
) -> Result<Vec<Write>, OutOfMemory>
    requires grid { IsGrid grid.now }
    requires order { from ≤ to }
    requires count { length cells.now ≡ (to - from) * grid.now.shape.cols * grid.now.int_type.size }
    requires all { length places.now ≡ touched (dataset_of grid.now) from to }
    requires ends { (k : ℕ) (p : ChunkPlace) → slice_get places.now k ≡ Some p → p.address + chunk_len (dataset_of grid.now) < 2 ^ 64 }
    ensures exact { IfOk result (λ ws. ws.items ≡ new_writes (dataset_of grid.now) cells.now from to places.now) }
    ensures does { IfOk result (λ ws. RowsWritten (dataset_of grid.now) cells.now from to places.now ws.items) }
    ensures room { IfOk result (λ ws. vec_len ws + after ≤ vec_capacity ws) }
{
    let most = most_pieces(grid, from, to, places).ok_or(OutOfMemory)?;
    let room = most.checked_add(after).ok_or(OutOfMemory)?;
    let mut writes = Vec::with_capacity(alloc, room)?;
    grid.new_bytes(cells, from, to, places, &mut writes)?;
    writes.reserve(after)?;
    Ok(writes)
}

/// By which places the rows from `mid` on are written, of all chunks that the rows behind the dataset's touch: a chunk that has rows before
/// `mid` counts as stored.
fn next_places(
    alloc: Global,
    grid: &Grid,
    mid: u64,
    chunks: &[ChunkPlace],
) -> Result<Vec<ChunkPlace>, OutOfMemory>
    requires grid { IsGrid grid.now }
    requires order { grid.now.shape.rows < mid }
    requires inside { shift_of (dataset_of grid.now) grid.now.shape.rows mid ≤ length chunks.now }
    requires some { 0 < length chunks.now → 0 < chunks_across (dataset_of grid.now) }
    requires few { length chunks.now ≤ 1000000 }
    ensures exact { IfOk result (λ ps. ps.items ≡ next_places (dataset_of grid.now) grid.now.shape.rows mid chunks.now) }
{
    let rows = grid.layout.chunk.0;
    let across = grid.across() as usize;
    let skip = (mid / rows - grid.shape.rows / rows) as usize * across;
    // chunks of a band that has rows before `mid` already
    let begun = if mid % rows > 0 { across } else { 0 };
    let mut places = Vec::with_capacity(alloc, chunks.len() - skip)?;
    for (k, place) in chunks[skip..].iter().enumerate() {
        places.push_reserved(ChunkPlace {
            address: place.address,
            stored: place.stored || k < begun,
        });
    }
    Ok(places)
}

/// The writes of the rows from `mid` on, up to but not including `to`, of rows behind the dataset's whose chunks have these places; those
/// before `mid` were written early. With room for so many behind them. OutOfMemory is for want of memory, or where no list has so many.
pub fn put_behind(
    alloc: Global,
    grid: &Grid,
    cells: &[u8],
    mid: u64,
    to: u64,
    chunks: &[ChunkPlace],
    after: usize,
) -> Result<Vec<Write>, OutOfMemory>
    requires grid { IsGrid grid.now }
    requires first { grid.now.shape.rows ≤ mid }
    requires order { mid ≤ to }
    requires count { length cells.now ≡ (to - mid) * grid.now.shape.cols * grid.now.int_type.size }
    requires all { length chunks.now ≡ touched (dataset_of grid.now) grid.now.shape.rows to }
    requires few { length chunks.now ≤ 1000000 }
    requires ends { (k : ℕ) (p : ChunkPlace) → slice_get chunks.now k ≡ Some p → p.address + chunk_len (dataset_of grid.now) < 2 ^ 64 }
    ensures exact { IfOk result (λ ws. ws.items ≡ writes_behind (dataset_of grid.now) cells.now grid.now.shape.rows mid to chunks.now) }
    ensures does { IfOk result (λ ws. mid < to → RowsWritten (dataset_of grid.now) cells.now mid to (next_places (dataset_of grid.now) grid.now.shape.rows mid chunks.now) ws.items) }
    ensures room { IfOk result (λ ws. vec_len ws + after ≤ vec_capacity ws) }
{
    if mid == to {
        return Ok(Vec::with_capacity(alloc, after)?);
    }
    if mid == grid.shape.rows {
        return put_rows(alloc, grid, cells, mid, to, chunks, after);
    }
    let later = next_places(alloc, grid, mid, chunks)?;
    put_rows(alloc, grid, cells, mid, to, &later, after)
}
