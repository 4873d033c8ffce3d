//! Rows that are written before their flush, so that what waits is within the budget.
ghost use Rattle.std.specs.Prelude.{◌≡◌, ◌≢◌, ◌⊎◌, ℕ, ◌+◌, ◌-◌, ◌*◌, ◌/◌, ◌%◌, ◌^◌, ◌<◌, ◌≤◌, [], ◌∷◌, ◌++◌, List, length, take, drop, Some, Err, IfErr, IfNone, IfOk, IfSome, OnErr, OnOk, IsFalse, IsTrue, vec_len, vec_capacity};
ghost use Rattle.std.specs.List.{slice_get};
ghost use Rattle.h5w_model.specs.Causes.{Rose};
ghost use Rattle.h5w_model.specs.Logs.{div_up};
ghost use Rattle.h5w_model.specs.Tables.{chunks_across};
ghost use Rattle.h5w_model.specs.declared.cell.Key.{Key};
ghost use Rattle.h5w_chunks.specs.Grids.{IsGrid, chunk_len, dataset_of};
ghost use Rattle.h5w_chunks.specs.Rows.{RowsWritten};
ghost use Rattle.h5w_chunks.specs.Shares.{first_line, touched};
ghost use Rattle.h5w_chunks.specs.declared.grid.ChunkPlace.{ChunkPlace};
ghost use Rattle.h5w_flush_laws.specs.EarlyRows.{IsEarlyPlace};
ghost use Rattle.h5w_image.specs.View.{Same};
ghost use Rattle.h5w_image.specs.declared.fault.ImageError.{ImageError};
ghost use Rattle.h5w_index.specs.Held.{view_of};
ghost use Rattle.h5w_index.specs.Naming.{AreTakenBehind};
ghost use Rattle.h5w_index.specs.Placing.{AreInside, Fits};
ghost use Rattle.h5w_index.specs.Views.{IsSound, TakesKey, address_in};
ghost use Rattle.h5w_pieces.specs.NextPlaces.{next_places, writes_behind};
ghost use Rattle.h5w_writer.specs.ChunkPlaces.{AreBandsPlaced, AreEarlyWrites, CanPlace, IsBandPlaced, IsGrown};
ghost use Rattle.h5w_writer.specs.Early.{IsBandFull, IsEarlyRow, IsPlaceFull, IsWithin, WrittenEarly, band_bytes, dirty_of, unwritten};
ghost use Rattle.h5w_writer.specs.Room.{HasRoomFor};
ghost use Rattle.h5w_writer.specs.Sessions.{AllEndBy, ArePieces, most_lines, next_row, row_bytes};

use crate::state::WriterCore;
use h5w_chunks::{ChunkPlace, Grid};
use h5w_image::{ImageError, PieceWrite};
use h5w_index::Index;
use h5w_model::{OutOfMemory, Write};
use h5w_pieces::put_behind;
use h5w_space::Places;

/// How many bytes the chunks of a band of rows have.
fn band_bytes(grid: &Grid) -> u64
    requires grid { IsGrid grid.now }
    requires few { chunks_across (dataset_of grid.now) ≤ 1000000 }
    ensures exact { result ≡ band_bytes (dataset_of grid.now) }
    ensures small { result < 2 ^ 52 }
{
    grid.across() * grid.chunk_len()
}

/// What the writes of the rows `from` up to but not including `to` are counted as, in bytes: in a band that has rows already their own cells,
/// else its chunks whole.
fn unwritten(grid: &Grid, from: u64, to: u64) -> u64
    requires grid { IsGrid grid.now }
    requires some { 0 < chunks_across (dataset_of grid.now) }
    requires few { div_up to grid.now.layout.chunk.0 * chunks_across (dataset_of grid.now) ≤ 1000000 }
    ensures exact { result ≡ unwritten (dataset_of grid.now) from to }
    ensures small { result < 2 ^ 54 }
{
    if to <= from {
        return 0;
    }
    let rows = grid.layout.chunk.0;
    let bands = to.div_ceil(rows) - from / rows;
    if from % rows == 0 {
        return bands * band_bytes(grid);
    }
    let own = to.min((from / rows + 1) * rows) - from;
    own * grid.shape.cols * u64::from(grid.int_type.size) + (bands - 1) * band_bytes(grid)
}

/// The place of the next chunk: that which the index names, or a new one. None where the file has no place for it.
fn next_place(
    grid: &Grid,
    index: &Index,
    to: u64,
    places: &mut Places,
    chunks: &[ChunkPlace],
) -> Option<ChunkPlace>
    requires grid { IsGrid grid.now }
    requires can { CanPlace (dataset_of grid.now) (view_of index.now) to places.old }
    requires behind { length chunks.now < touched (dataset_of grid.now) grid.now.shape.rows to }
    ensures taken { IfSome result (λ p. AreTakenBehind (dataset_of grid.now) (λ key. address_in (view_of index.now) key) chunks.now places.old (chunks.now ++ p ∷ []) places.new) }
    ensures placed { IfSome result (λ p. IsEarlyPlace (dataset_of grid.now) (λ key. address_in (view_of index.now) key) grid.now.shape.rows (length chunks.now) p) }
    ensures grown { IfSome result (λ p. IsGrown places.old places.new) }
    ensures full { IfNone result (IsPlaceFull (dataset_of grid.now) (λ key. address_in (view_of index.now) key) chunks.now places.old) }
    ensures same { IfNone result (places.new ≡ places.old) }
{
    let from = grid.shape.rows;
    let k = chunks.len() as u64;
    if let Some(address) = index.get(grid.touched_key(from, to, k)) {
        let stored = grid.touched_band(from, to, k) * grid.layout.chunk.0 < from;
        return Some(ChunkPlace { address, stored });
    }
    match places.take(grid.chunk_len()) {
        Ok(address) => Some(ChunkPlace {
            address,
            stored: false,
        }),
        Err(_) => None,
    }
}

/// Gives the next chunks, those of a band, their places. False where the file has no place for one of them: the list is as before then, and
/// what was taken for them is to be dropped.
fn place_band(
    grid: &Grid,
    index: &Index,
    to: u64,
    places: &mut Places,
    chunks: &mut Vec<ChunkPlace>,
) -> Result<bool, OutOfMemory>
    requires grid { IsGrid grid.now }
    requires can { CanPlace (dataset_of grid.now) (view_of index.now) to places.old }
    requires behind { length chunks.old.items + chunks_across (dataset_of grid.now) ≤ touched (dataset_of grid.now) grid.now.shape.rows to }
    ensures placed { IfOk result (λ yes. IsTrue yes → IsBandPlaced (dataset_of grid.now) (λ key. address_in (view_of index.now) key) chunks.old.items places.old chunks.new.items places.new) }
    ensures full { IfOk result (λ yes. IsFalse yes → (chunks.new.items ≡ chunks.old.items) × IsBandFull (dataset_of grid.now) (λ key. address_in (view_of index.now) key) chunks.old.items places.old) }
    ensures kept { OnErr result (take (length chunks.old.items) chunks.new.items ≡ chunks.old.items) }
{
    let begun = chunks.len();
    for _ in 0..grid.across() {
        match next_place(grid, index, to, places, chunks) {
            Some(place) => chunks.push(place)?,
            None => {
                chunks.truncate(begun);
                return Ok(false);
            }
        }
    }
    Ok(true)
}

/// Gives chunks their places, band after band, for the rows behind the dataset's up to `to`; those of the rows before `mid` have theirs. Answers
/// the row before which all have them, which is before `to` only where the file has no place for the next band.
fn place_bands(
    grid: &Grid,
    index: &Index,
    mid: u64,
    to: u64,
    places: &mut Places,
    chunks: &mut Vec<ChunkPlace>,
) -> Result<u64, OutOfMemory>
    requires grid { IsGrid grid.now }
    requires can { CanPlace (dataset_of grid.now) (view_of index.now) to places.old }
    requires first { grid.now.shape.rows ≤ mid }
    requires order { mid < to }
    requires known { length chunks.old.items ≡ touched (dataset_of grid.now) grid.now.shape.rows mid }
    ensures placed { IfOk result (λ row. AreBandsPlaced (dataset_of grid.now) (λ key. address_in (view_of index.now) key) mid to chunks.old.items places.old row chunks.new.items places.new) }
    ensures kept { OnErr result (take (length chunks.old.items) chunks.new.items ≡ chunks.old.items) }
{
    let rows = grid.layout.chunk.0;
    let first = grid.shape.rows / rows + chunks.len() as u64 / grid.across();
    for band in first..to.div_ceil(rows) {
        let mut next = places.copy()?;
        if !place_band(grid, index, to, &mut next, chunks)? {
            return Ok(mid.max(band * rows));
        }
        *places = next;
    }
    Ok(to)
}

/// Rows that only have to be written early: up to which row, the places once their chunks have theirs, their pieces, and how many bytes their
/// cells have.
#[derive(Drop)]
struct Early {
    to: u64,
    places: Places,
    writes: Vec<Write>,
    bytes: usize,
}

/// Takes all places and all memory for rows that are to be written early, from `mid` on, up to `to` or as far as the file has places: the cells of
/// all rows that wait are these. Chunks of rows before `mid` have their places.
fn plan_early<W: PieceWrite>(
    grid: &Grid,
    index: &Index,
    before: &Places,
    cells: &[u8],
    mid: u64,
    to: u64,
    chunks: &mut Vec<ChunkPlace>,
    image: &mut W,
) -> Result<Early, ImageError>
    requires grid { IsGrid grid.now }
    requires can { CanPlace (dataset_of grid.now) (view_of index.now) to before.now }
    requires first { grid.now.shape.rows ≤ mid }
    requires order { mid < to }
    requires chunks { div_up to grid.now.layout.chunk.0 * chunks_across (dataset_of grid.now) ≤ 1000000 }
    requires count { (to - mid) * row_bytes (dataset_of grid.now) ≤ length cells.now }
    requires known { length chunks.old.items ≡ touched (dataset_of grid.now) grid.now.shape.rows mid }
    requires ends { (k : ℕ) (p : ChunkPlace) → slice_get chunks.old.items k ≡ Some p → p.address + chunk_len (dataset_of grid.now) ≤ before.now.end }
    ensures placed { IfOk result (λ e. AreBandsPlaced (dataset_of grid.now) (λ key. address_in (view_of index.now) key) mid to chunks.old.items before.now e.to chunks.new.items e.places) }
    ensures writes { IfOk result (λ e. AreEarlyWrites (dataset_of grid.now) cells.now mid e.to chunks.new.items e.places.end e.bytes e.writes.items) }
    ensures list { IfOk result (λ e. 1 ≤ vec_capacity e.writes) }
    ensures kept { OnErr result (take (length chunks.old.items) chunks.new.items ≡ chunks.old.items) }
    ensures image { Same (W.view image.old) (W.view image.new) }
    ensures pieces { IfOk result (λ e. vec_len e.writes + 1 ≤ (W.view image.new).pieces) }
    ensures reserved { IfOk result (λ e. e.places.end ≤ (W.view image.new).end) }
    ensures fault { result ≡ Err ImageError.Failed → Rose (W.view image.old).faults (W.view image.new).faults }
{
    let alloc = *chunks.allocator();
    let mut places = before.copy()?;
    let row = place_bands(grid, index, mid, to, &mut places, chunks)?;
    let bytes = ((row - mid) * grid.shape.cols) as usize * usize::from(grid.int_type.size);
    let writes = put_behind(alloc, grid, &cells[..bytes], mid, row, chunks, 1)?;
    image.reserve(writes.len() as u64 + 1, places.end())?;
    Ok(Early {
        to: row,
        places,
        writes,
        bytes,
    })
}

impl WriterCore {
    /// The first row whose cells wait.
    pub(crate) fn next_row(&self) -> u64
        ensures exact { result ≡ next_row self.now }
        ensures bound { result < 2 ^ 52 }
    {
        self.grid.shape.rows + self.backlog.early
    }

    /// Up to which row rows are written early, so that what waits behind them is within the budget: the first of a band, or behind all. None
    /// where all that waits is within it.
    pub(crate) fn early_row(&self) -> Option<u64>
        ensures row { IfSome result (IsEarlyRow self.now) }
        ensures none { IfNone result (dirty_of self.now ≤ self.now.budget) }
    {
        let to = self.rows();
        let header = self.header.len() as u64;
        if unwritten(&self.grid, self.next_row(), to) + header <= self.budget {
            return None;
        }
        let bands = (self.budget - header) / band_bytes(&self.grid);
        if bands == 0 {
            return Some(to);
        }
        let rows = self.grid.layout.chunk.0;
        Some((to.div_ceil(rows) - bands) * rows)
    }

    /// Writes rows early where more bytes wait than the budget has. Room is reserved in the image for their pieces and one more. After a refusal all
    /// is as before.
    pub(crate) fn write_early<W: PieceWrite>(&mut self, image: &mut W) -> Result<(), ImageError>
        requires idle { self.old.pending ≡ [] }
        ensures written { OnOk result (WrittenEarly self.old self.new) }
        ensures ends { OnOk result (AllEndBy self.new.places.end self.new.pending) }
        ensures within { OnOk result (IsWithin self.new) }
        ensures early { OnOk result (self.new.pending ≢ [] → (self.old.budget < dirty_of self.old) × (length self.old.header ≤ 512)) }
        ensures fault { result ≡ Err ImageError.Failed → Rose (W.view image.old).faults (W.view image.new).faults }
        ensures kept { OnErr result (self.new ≡ self.old) }
        ensures image { Same (W.view image.old) (W.view image.new) }
        ensures room { OnOk result (HasRoomFor self.new (W.view image.new)) }
    {
        match self.early_row() {
            Some(to) => self.write_up_to(to, image),
            None => image.reserve(1, self.places.end()),
        }
    }

    /// Writes rows early up to this row, or as far as the file has places.
    fn write_up_to<W: PieceWrite>(&mut self, to: u64, image: &mut W) -> Result<(), ImageError>
        requires idle { self.old.pending ≡ [] }
        requires row { IsEarlyRow self.old to }
        ensures written { OnOk result (WrittenEarly self.old self.new) }
        ensures ends { OnOk result (AllEndBy self.new.places.end self.new.pending) }
        ensures within { OnOk result (IsWithin self.new) }
        ensures fault { result ≡ Err ImageError.Failed → Rose (W.view image.old).faults (W.view image.new).faults }
        ensures kept { OnErr result (self.new ≡ self.old) }
        ensures image { Same (W.view image.old) (W.view image.new) }
        ensures room { OnOk result (HasRoomFor self.new (W.view image.new)) }
    {
        let mid = self.next_row();
        let known = self.backlog.chunks.len();
        match plan_early(
            &self.grid,
            &self.index,
            &self.places,
            self.backlog.waiting.as_slice(),
            mid,
            to,
            &mut self.backlog.chunks,
            image,
        ) {
            Ok(early) => {
                if mid < early.to {
                    self.places = early.places;
                    self.backlog.plan = early.writes;
                    self.backlog.shown = 0;
                    self.backlog.waiting.let_go(early.bytes);
                    self.backlog.early = early.to - self.grid.shape.rows;
                }
                Ok(())
            }
            Err(e) => {
                self.backlog.chunks.truncate(known);
                Err(e)
            }
        }
    }
}
