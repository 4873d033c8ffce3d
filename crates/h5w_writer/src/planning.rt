//! The first half of a flush: all memory and all places are taken, or the session stays as it was.
ghost use Rattle.std.specs.Prelude.{◌≡◌, ◌≢◌, ◌⊎◌, ℕ, ◌+◌, ◌*◌, ◌-◌, ◌^◌, ◌<◌, ◌≤◌, [], ◌∷◌, length, IfOk, IfErr, IfNone, IfSome, IsSome, OnOk, OnErr, IsTrue, IsFalse, Some, Err, vec_len, vec_capacity};
ghost use Rattle.h5w_model.specs.Logs.{div_up};
ghost use Rattle.h5w_model.specs.declared.cell.IndexKind.TheVariants.{Array, Tree};
ghost use Rattle.h5w_model.specs.declared.cell.Key.{Key};
ghost use Rattle.h5w_index.specs.Depths.{AreWithin};
ghost use Rattle.h5w_index.specs.Held.{view_of};
ghost use Rattle.h5w_index.specs.Marks.{IsRaised};
ghost use Rattle.h5w_index.specs.Full.{IsFullPart};
ghost use Rattle.h5w_index.specs.Placing.{AreInside, Fits, IsPartly, IsPlacing};
ghost use Rattle.h5w_index.specs.Steps.{IsPlan, copy_pieces, in_place_pieces};
ghost use Rattle.h5w_index.specs.Views.{IsClean, IsReached, IsSound, TakesKey, address_in, kind_of};
ghost use Rattle.std.specs.List.{slice_get};
ghost use Rattle.h5w_chunks.specs.Grids.{IsGrid, chunk_len, dataset_of};
ghost use Rattle.h5w_chunks.specs.declared.grid.ChunkPlace.{ChunkPlace};
ghost use Rattle.h5w_chunks.specs.Rows.{RowsWritten};
ghost use Rattle.h5w_chunks.specs.Shares.{first_line, new_writes, touched};
ghost use Rattle.h5w_flush_laws.specs.EarlyRows.{IsEarlyPlace};
ghost use Rattle.h5w_space.specs.declared.Full.{Full};
ghost use Rattle.h5w_pieces.specs.NextPlaces.{next_places, writes_behind};
ghost use Rattle.h5w_writer.specs.ChunkPlaces.{CanPrepare};
ghost use Rattle.h5w_writer.specs.Flushes.{IsPrepared, SameBut, first_key, first_place, touched_by};
ghost use Rattle.h5w_writer.specs.Starts.{IsStartedAt, TookTops, TookTwo};
ghost use Rattle.h5w_model.specs.Arrays.{eahd_len, eaib_len};
ghost use Rattle.h5w_model.specs.Numbers.{undefined};
ghost use Rattle.h5w_writer.specs.Refusals.{IsArrayUnplaced, IsDeepFor, IsDeepPart, IsFullFor, IsSpace, IsStartFull, IsUnplaced};
ghost use Rattle.h5w_writer.specs.Sessions.{IsRoomy, IsSession, IsUnmade, IsWhole, most_lines, rows_of};
ghost use Rattle.h5w_writer.specs.declared.refusal.FlushError.{FlushError};
ghost use Rattle.h5w_writer.specs.Halves.{IsHalf, PlansGrowth, PlansStart, ShowsPrepared};

use crate::planned::{Growing, Planned, Prepared, Starting};
use crate::refusal::FlushError;
use crate::state::WriterCore;
use crate::taking::{Taking, name_chunks, named_chunk, place_chunks, unset};
use h5w_bytes::UNDEFINED;
use h5w_chunks::{ChunkPlace, Grid, IndexKind};
use h5w_creation::{ARRAY_LEN, BLOCK_LEN, TREE_LEN};
use h5w_index::{Index, IndexFlush};
use h5w_model::{OutOfMemory, Write};
use h5w_pieces::{alone_pieces, put_behind};
use h5w_space::{Full, Places};
use std::alloc::Global;
use std::mem;

/// How many pieces follow the writes of the rows at most: copies, superblock, blocks in place, header. None where no list has so many.
fn pieces_after(begun: &IndexFlush) -> Option<usize>
    ensures sum { IfSome result (λ n. n ≡ copy_pieces begun.now + in_place_pieces begun.now + 2) }
    ensures none { IfNone result (2 ^ 64 ≤ copy_pieces begun.now + in_place_pieces begun.now + 2) }
{
    begun.copies().checked_add(begun.in_place())?.checked_add(2)
}

/// Takes all places and all memory of a flush of these cells, those of the rows from `mid` on up to but not including `to`. The rows before
/// `mid` were written early, into chunks that have these places. After a refusal some of the new chunks have an address.
fn prepare(
    grid: &Grid,
    cells: &[u8],
    early: &[ChunkPlace],
    mid: u64,
    to: u64,
    taking: &mut Taking,
    index: &mut Index,
) -> Result<Prepared, FlushError>
    requires grid { IsGrid grid.now }
    requires can { CanPrepare (dataset_of grid.now) (view_of index.old) mid to cells.now early.now taking.old.places }
    requires no_chunks { taking.old.chunks.items ≡ [] }
    requires none_added { taking.old.added.items ≡ [] }
    ensures sound { IsSound (view_of index.new) }
    ensures roomy { IsRoomy (dataset_of grid.now) (view_of index.old) → IsRoomy (dataset_of grid.now) (view_of index.new) }
    ensures prepared { IfOk result (λ p. ShowsPrepared (dataset_of grid.now) (view_of index.old) mid to cells.now early.now taking.old.places p taking.new.chunks.items taking.new.added.items (view_of index.new) taking.new.places) }
    ensures partly { OnErr result (IsPartly (dataset_of grid.now) to (view_of index.old) taking.new.added.items (view_of index.new)) }
    ensures full { (full : Full) → result ≡ Err (FlushError.Space full) → IsFullPart (dataset_of grid.now) to (view_of index.old) early.now taking.old.places full }
    ensures deep { result ≡ Err FlushError.Deep → IsDeepPart (dataset_of grid.now) to (view_of index.old) }
    ensures causes { IfErr result (λ e. IsSpace e ⊎ ((e ≡ FlushError.Deep) ⊎ (e ≡ FlushError.OutOfMemory))) }
{
    name_chunks(grid, early, to, taking, index)?;
    place_chunks(grid, to, taking, index)?;
    let begun = index.begin(&mut taking.places)?;
    let after = pieces_after(&begun).ok_or(OutOfMemory)?;
    let alloc = *taking.chunks.allocator();
    let writes = put_behind(alloc, grid, cells, mid, to, &taking.chunks, after)?;
    Ok(Prepared {
        writes,
        begun,
        after,
        end: taking.places.end(),
    })
}

/// The writes of rows that all go into this chunk, in place of those of the list, with room for a superblock and a header behind them.
fn put_chunk(
    grid: &Grid,
    cells: &[u8],
    to: u64,
    place: ChunkPlace,
    mut writes: Vec<Write>,
) -> Result<Vec<Write>, OutOfMemory>
    requires grid { IsGrid grid.now }
    requires order { grid.now.shape.rows < to }
    requires count { length cells.now ≡ (to - grid.now.shape.rows) * grid.now.shape.cols * grid.now.int_type.size }
    requires all { touched (dataset_of grid.now) grid.now.shape.rows to ≡ 1 }
    requires ends { place.address + chunk_len (dataset_of grid.now) < 2 ^ 64 }
    ensures exact { IfOk result (λ ws. ws.items ≡ new_writes (dataset_of grid.now) cells.now grid.now.shape.rows to (place ∷ [])) }
    ensures does { IfOk result (λ ws. RowsWritten (dataset_of grid.now) cells.now grid.now.shape.rows to (place ∷ []) ws.items) }
    ensures room { IfOk result (λ ws. vec_len ws + 2 ≤ vec_capacity ws) }
{
    writes.clear();
    let most = alone_pieces(grid, to, &place) as usize;
    let room = most.checked_add(2).ok_or(OutOfMemory)?;
    writes.reserve_exact(room)?;
    grid.new_bytes(cells, grid.shape.rows, to, &[place], &mut writes)?;
    writes.reserve(2)?;
    Ok(writes)
}

/// Takes a place for an array's index block, and then one for its header: the header's, and the index block's.
fn take_two(places: &mut Places) -> Result<(u64, u64), Full>
    requires small { places.old.end < 2 ^ 64 }
    requires limit { places.old.limit ≤ 2 ^ 40 }
    ensures taken { IfOk result (λ x. TookTwo places.old x.0 x.1 places.new) }
    ensures raised { OnOk result (IsRaised places.old places.new (eahd_len + eaib_len)) }
    ensures header { IfOk result (λ x. x.0 + eahd_len ≤ places.new.end) }
    ensures block { IfOk result (λ x. x.1 + eaib_len ≤ places.new.end) }
    ensures full { IfErr result (λ full. IsArrayUnplaced undefined places.old full) }
{
    let block = places.take(BLOCK_LEN)?;
    let header = places.take(ARRAY_LEN)?;
    Ok((header, block))
}

/// Takes a place for the index block of an array whose header is there.
fn take_block(header: u64, places: &mut Places) -> Result<(u64, u64), Full>
    requires small { places.old.end < 2 ^ 64 }
    requires limit { places.old.limit ≤ 2 ^ 40 }
    requires named { header ≢ undefined }
    requires head { header + eahd_len ≤ places.old.end }
    ensures taken { IfOk result (λ x. TookTops header places.old x.0 x.1 places.new) }
    ensures raised { OnOk result (IsRaised places.old places.new (eahd_len + eaib_len)) }
    ensures header { IfOk result (λ x. x.0 + eahd_len ≤ places.new.end) }
    ensures block { IfOk result (λ x. x.1 + eaib_len ≤ places.new.end) }
    ensures full { IfErr result (λ full. IsArrayUnplaced header places.old full) }
{
    let block = places.take(BLOCK_LEN)?;
    Ok((header, block))
}

/// Takes the places of an array's blocks in place that are not there; the layout has its header at an address, or names none.
fn take_tops(address: u64, places: &mut Places) -> Result<(u64, u64), Full>
    requires small { places.old.end < 2 ^ 64 }
    requires limit { places.old.limit ≤ 2 ^ 40 }
    requires head { address ≢ undefined → address + eahd_len ≤ places.old.end }
    ensures taken { IfOk result (λ x. TookTops address places.old x.0 x.1 places.new) }
    ensures raised { OnOk result (IsRaised places.old places.new (eahd_len + eaib_len)) }
    ensures header { IfOk result (λ x. x.0 + eahd_len ≤ places.new.end) }
    ensures block { IfOk result (λ x. x.1 + eaib_len ≤ places.new.end) }
    ensures full { IfErr result (λ full. IsArrayUnplaced address places.old full) }
{
    if address == UNDEFINED {
        take_two(places)
    } else {
        take_block(address, places)
    }
}

/// An array without chunks, for whose blocks places are taken as far as they are not there, and the place of its header.
fn start_array(alloc: Global, address: u64, places: &mut Places) -> Result<(Index, u64), FlushError>
    requires small { places.old.end < 2 ^ 64 }
    requires limit { places.old.limit ≤ 2 ^ 40 }
    requires head { address ≢ undefined → address + eahd_len ≤ places.old.end }
    ensures started { IfOk result (λ x. IsStartedAt address places.old x.1 (view_of x.0) places.new) }
    ensures kind { IfOk result (λ x. kind_of (view_of x.0) ≡ Array) }
    ensures within { IfOk result (λ x. (lines across : ℕ) → AreWithin lines across (view_of x.0)) }
    ensures full { (full : Full) → result ≡ Err (FlushError.Space full) → IsUnplaced Array address places.old full }
    ensures causes { IfErr result (λ e. IsSpace e ⊎ (e ≡ FlushError.OutOfMemory)) }
{
    let (header, block) = take_tops(address, places)?;
    let index = Index::new_array(alloc, header, block)?;
    Ok((index, header))
}

/// A tree without chunks, for whose header a place is taken, and that place.
fn start_tree(alloc: Global, places: &mut Places) -> Result<(Index, u64), Full>
    requires small { places.old.end < 2 ^ 64 }
    requires limit { places.old.limit ≤ 2 ^ 40 }
    ensures started { IfOk result (λ x. IsStartedAt undefined places.old x.1 (view_of x.0) places.new) }
    ensures kind { IfOk result (λ x. kind_of (view_of x.0) ≡ Tree) }
    ensures within { IfOk result (λ x. (lines across : ℕ) → AreWithin lines across (view_of x.0)) }
    ensures full { IfErr result (λ full. IsUnplaced Tree undefined places.old full) }
{
    let header = places.take(TREE_LEN)?;
    Ok((Index::new_tree(alloc, header), header))
}

/// An index without chunks, for whose blocks in place places are taken as far as they are not there, and the place of its header, which the
/// layout has at an address, or names none.
fn start_index(
    alloc: Global,
    kind: IndexKind,
    address: u64,
    places: &mut Places,
) -> Result<(Index, u64), FlushError>
    requires small { places.old.end < 2 ^ 64 }
    requires limit { places.old.limit ≤ 2 ^ 40 }
    requires head { address ≢ undefined → address + eahd_len ≤ places.old.end }
    requires tree { kind ≡ Tree → address ≡ undefined }
    ensures started { IfOk result (λ x. IsStartedAt address places.old x.1 (view_of x.0) places.new) }
    ensures kind { IfOk result (λ x. kind ≡ kind_of (view_of x.0)) }
    ensures within { IfOk result (λ x. (lines across : ℕ) → AreWithin lines across (view_of x.0)) }
    ensures full { (full : Full) → result ≡ Err (FlushError.Space full) → IsUnplaced kind address places.old full }
    ensures causes { IfErr result (λ e. IsSpace e ⊎ (e ≡ FlushError.OutOfMemory)) }
{
    match kind {
        IndexKind::Array => start_array(alloc, address, places),
        IndexKind::Tree => Ok(start_tree(alloc, places)?),
    }
}

impl WriterCore {
    /// The first half of a flush of the rows that wait: takes all memory and all places that it needs. Where the file has no place, or the
    /// index no room, it is refused as a flush is. After a refusal no more than places are held in the index, which the next flush writes in
    /// any case.
    ///
    /// Until the second half the session has all rows and none waits, or it is as it was: `carry_out` or `give_up` is the next call, but that
    /// it may be told of another superblock before.
    pub fn plan_rows(&mut self) -> Result<Planned, FlushError>
        requires waits { 0 < self.old.waits }
        requires idle { self.old.pending ≡ [] }
        ensures half { IfOk result (λ p. IsHalf self.old self.new p) }
        ensures kept { OnErr result (SameBut self.old self.new) }
        ensures full { (full : Full) → result ≡ Err (FlushError.Space full) → IsFullFor self.old full }
        ensures deep { result ≡ Err FlushError.Deep → IsDeepFor self.old }
        ensures causes { IfErr result (λ e. IsSpace e ⊎ ((e ≡ FlushError.Deep) ⊎ (e ≡ FlushError.OutOfMemory))) }
    {
        if !self.is_unmade() {
            if let Some(place) = self.chunk_alone() {
                return Ok(Planned::Alone(self.plan_alone(place)?));
            }
        }
        self.plan_taking()
    }

    /// The first half, as `plan_rows` plans it where no chunk that is named already takes all rows that wait. It does not ask whether one does.
    pub(crate) fn plan_taking(&mut self) -> Result<Planned, FlushError>
        requires waits { 0 < self.old.waits }
        requires idle { self.old.pending ≡ [] }
        ensures half { IfOk result (λ p. IsHalf self.old self.new p) }
        ensures kept { OnErr result (SameBut self.old self.new) }
        ensures full { (full : Full) → result ≡ Err (FlushError.Space full) → IsFullFor self.old full }
        ensures deep { result ≡ Err FlushError.Deep → IsDeepFor self.old }
        ensures causes { IfErr result (λ e. IsSpace e ⊎ ((e ≡ FlushError.Deep) ⊎ (e ≡ FlushError.OutOfMemory))) }
    {
        let unmade = self.is_unmade();
        let taking = self.taking()?;
        if unmade {
            return Ok(Planned::Starts(self.plan_starting(taking)?));
        }
        Ok(Planned::Grows(self.plan_growing(taking)?))
    }

    /// Whether something of the index is not there: the layout names none, or it is an array without an index block.
    pub fn is_unmade(&self) -> bool
        ensures yes { IsTrue result → IsUnmade self.now }
        ensures no { IsFalse result → IsWhole self.now }
        ensures session { IsSession self.now }
    {
        if self.grid.layout.address == UNDEFINED {
            return true;
        }
        self.index.has_no_block()
    }

    /// The chunk that has its place, where readers look for it, and that all rows that wait go into; where no block of the index changed, and
    /// no row was written early.
    pub(crate) fn chunk_alone(&self) -> Option<ChunkPlace>
        requires waits { 0 < self.now.waits }
        ensures exact { IfSome result (λ p. p ≡ first_place self.now.dataset self.now.index) }
        ensures none { IfNone result (self.now.early ≡ 0 → IsClean self.now.index → touched_by self.now ≡ 1 → IsReached self.now.index (first_key self.now.dataset) → (first_place self.now.dataset self.now.index).address ≡ undefined) }
        ensures placing { IfSome result (λ p. IsPlacing self.now.dataset (rows_of self.now) self.now.index self.now.places (p ∷ []) [] self.now.index self.now.places) }
        ensures all { IfSome result (λ p. touched_by self.now ≡ 1) }
        ensures early { IsSome result → self.now.early ≡ 0 }
        ensures plan { IsSome result → IsPlan self.now.index self.now.places [] [] [] self.now.index self.now.places }
    {
        if self.backlog.early > 0 || !self.index.is_clean() {
            return None;
        }
        named_chunk(&self.grid, self.rows(), &self.index)
    }

    /// Nothing is taken yet, of a copy of the places.
    fn taking(&self) -> Result<Taking, OutOfMemory>
        ensures places { IfOk result (λ t. t.places ≡ self.now.places) }
        ensures chunks { IfOk result (λ t. t.chunks.items ≡ []) }
        ensures added { IfOk result (λ t. t.added.items ≡ []) }
    {
        Ok(Taking::new(*self.backlog.plan.allocator(), self.places.copy()?))
    }

    /// The writes of the rows that wait, which all go into this chunk, with room for a superblock and a header.
    pub(crate) fn plan_alone(&mut self, place: ChunkPlace) -> Result<Vec<Write>, OutOfMemory>
        requires waits { 0 < self.old.waits }
        requires early { self.old.early ≡ 0 }
        requires placing { IsPlacing self.old.dataset (rows_of self.old) self.old.index self.old.places (place ∷ []) [] self.old.index self.old.places }
        requires all { touched_by self.old ≡ 1 }
        ensures exact { IfOk result (λ ws. ws.items ≡ new_writes self.old.dataset self.old.waiting self.old.dataset.shape.rows (rows_of self.old) (place ∷ [])) }
        ensures written { IfOk result (λ ws. RowsWritten self.old.dataset self.old.waiting self.old.dataset.shape.rows (rows_of self.old) (place ∷ []) ws.items) }
        ensures room { IfOk result (λ ws. vec_len ws + 2 ≤ vec_capacity ws) }
        ensures same { self.new ≡ self.old }
    {
        let to = self.rows();
        let spare = Vec::new(*self.backlog.plan.allocator());
        put_chunk(
            &self.grid,
            self.backlog.waiting.as_slice(),
            to,
            place,
            mem::replace(&mut self.backlog.spare, spare),
        )
    }

    /// Plans a flush into the index that is there, from the places where nothing is taken yet. The index names the chunks then, and their
    /// places are taken; after a refusal it names none of them.
    fn plan_growing(&mut self, mut taking: Taking) -> Result<Growing, FlushError>
        requires there { IsWhole self.old }
        requires waits { 0 < self.old.waits }
        requires idle { self.old.pending ≡ [] }
        requires places { taking.places ≡ self.old.places }
        requires no_chunks { taking.chunks.items ≡ [] }
        requires none_added { taking.added.items ≡ [] }
        ensures growth { IfOk result (λ p. PlansGrowth self.old self.new p) }
        ensures kept { OnErr result (SameBut self.old self.new) }
        ensures full { (full : Full) → result ≡ Err (FlushError.Space full) → IsFullPart self.old.dataset (rows_of self.old) self.old.index self.old.chunks self.old.places full }
        ensures deep { result ≡ Err FlushError.Deep → IsDeepPart self.old.dataset (rows_of self.old) self.old.index }
        ensures causes { IfErr result (λ e. IsSpace e ⊎ ((e ≡ FlushError.Deep) ⊎ (e ≡ FlushError.OutOfMemory))) }
    {
        let (mid, to) = (self.next_row(), self.rows());
        match prepare(
            &self.grid,
            self.backlog.waiting.as_slice(),
            &self.backlog.chunks,
            mid,
            to,
            &mut taking,
            &mut self.index,
        ) {
            Ok(prepared) => {
                let Taking { places, added, .. } = taking;
                let before = mem::replace(&mut self.places, places);
                let rows = self.backlog.take_rows();
                self.grid.shape.rows = to;
                Ok(Growing {
                    prepared,
                    rows,
                    before,
                    added,
                })
            }
            Err(e) => {
                unset(&taking.added, &mut self.index);
                Err(e)
            }
        }
    }

    /// Plans a flush into a file whose index is not there yet, or is the header of an array alone, from the places where nothing is taken yet.
    /// What is not there is made at new places.
    fn plan_starting(&self, mut taking: Taking) -> Result<Starting, FlushError>
        requires unmade { IsUnmade self.now }
        requires waits { 0 < self.now.waits }
        requires places { taking.places ≡ self.now.places }
        requires no_chunks { taking.chunks.items ≡ [] }
        requires none_added { taking.added.items ≡ [] }
        ensures start { IfOk result (λ p. PlansStart self.now p) }
        ensures full { (full : Full) → result ≡ Err (FlushError.Space full) → IsStartFull self.now full }
        ensures causes { IfErr result (λ e. IsSpace e ⊎ (e ≡ FlushError.OutOfMemory)) }
    {
        let (mid, to) = (self.next_row(), self.rows());
        let layout = &self.grid.layout;
        let alloc = *taking.chunks.allocator();
        let (mut index, at) = start_index(alloc, layout.index, layout.address, &mut taking.places)?;
        match prepare(
            &self.grid,
            self.backlog.waiting.as_slice(),
            &self.backlog.chunks,
            mid,
            to,
            &mut taking,
            &mut index,
        ) {
            Ok(prepared) => Ok(Starting {
                prepared,
                index,
                at,
                places: taking.places,
            }),
            Err(e) => {
                drop(index);
                Err(e)
            }
        }
    }
}
