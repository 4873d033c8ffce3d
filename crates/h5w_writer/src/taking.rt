//! The chunks that rows go into, and their places.
ghost use Rattle.std.specs.Prelude.{◌≡◌, ◌≢◌, ◌⊎◌, ℕ, ◌+◌, ◌-◌, ◌*◌, ◌^◌, ◌<◌, ◌≤◌, false, List, [], ◌∷◌, ◌++◌, length, vec_len, vec_capacity, IfErr, IfNone, IfSome, OnErr, OnOk, Err, Some};
ghost use Rattle.std.specs.List.{All, slice_get};
ghost use Rattle.h5w_model.specs.Datasets.{Described};
ghost use Rattle.h5w_model.specs.Logs.{div_up};
ghost use Rattle.h5w_model.specs.Numbers.{undefined};
ghost use Rattle.h5w_model.specs.Tables.{chunks_across};
ghost use Rattle.h5w_model.specs.declared.cell.Key.{Key};
ghost use Rattle.h5w_cache.specs.Plans.{IsRefused};
ghost use Rattle.h5w_chunks.specs.Grids.{IsGrid, chunk_len, dataset_of};
ghost use Rattle.h5w_chunks.specs.Shares.{first_line, touched, touched_band};
ghost use Rattle.h5w_chunks.specs.declared.grid.ChunkPlace.{ChunkPlace};
ghost use Rattle.h5w_space.specs.Space.{Space};
ghost use Rattle.h5w_space.specs.declared.Full.{Full};
ghost use Rattle.h5w_flush_laws.specs.EarlyRows.{IsEarlyPlace};
ghost use Rattle.h5w_index.specs.Depths.{AreWithin};
ghost use Rattle.h5w_index.specs.Held.{view_of};
ghost use Rattle.h5w_index.specs.Marks.{IsTouched};
ghost use Rattle.h5w_index.specs.Full.{IsChunkFull};
ghost use Rattle.h5w_index.specs.Naming.{AreNamed, AreTakenBehind};
ghost use Rattle.h5w_index.specs.Placing.{AreInside, Fits, IsPartly, IsPlacing, next_key};
ghost use Rattle.h5w_index.specs.Steps.{IsDeep};
ghost use Rattle.h5w_index.specs.Views.{HasSlot, IndexView, IsReached, IsSound, TakesKey, address_in};
ghost use Rattle.h5w_writer.specs.Flushes.{first_key, first_place};
ghost use Rattle.h5w_writer.specs.Refusals.{IsDeepPart, IsSpace};
ghost use Rattle.h5w_writer.specs.Sessions.{IsRoomy, most_lines};
ghost use Rattle.h5w_writer.specs.declared.refusal.FlushError.{FlushError};

use crate::refusal::FlushError;
use h5w_chunks::{ChunkPlace, Grid};
use h5w_index::{Index, Key};
use h5w_model::OutOfMemory;
use h5w_space::Places;
use std::alloc::Global;

/// What a flush takes for its chunks, in rising order of their keys.
#[derive(Drop)]
pub struct Taking {
    /// The places of the file once these are taken.
    pub places: Places,
    /// Each chunk that the rows go into, with its place.
    pub chunks: Vec<ChunkPlace>,
    /// The keys of the new ones.
    pub added: Vec<Key>,
}

impl Taking {
    /// Nothing is taken yet.
    pub fn new(alloc: Global, places: Places) -> Taking
        ensures places { result.places ≡ places }
        ensures chunks { result.chunks.items ≡ [] }
        ensures added { result.added.items ≡ [] }
    {
        Taking {
            places,
            chunks: Vec::new(alloc),
            added: Vec::new(alloc),
        }
    }
}

/// Adds an element.
fn keep<T: Copy + Drop>(items: &mut Vec<T>, item: T) -> Result<(), OutOfMemory>
    ensures added { OnOk result (items.new.items ≡ items.old.items ++ item ∷ []) }
    ensures kept { OnErr result (items.new.items ≡ items.old.items) }
{
    items.push(item)?;
    Ok(())
}

/// Makes room for a chunk more that is named.
fn make_room(taking: &mut Taking) -> Result<(), OutOfMemory>
    ensures chunks { taking.new.chunks.items ≡ taking.old.chunks.items }
    ensures added { taking.new.added.items ≡ taking.old.added.items }
    ensures places { taking.new.places ≡ taking.old.places }
    ensures room { OnOk result (vec_len taking.new.chunks < vec_capacity taking.new.chunks) }
    ensures room_added { OnOk result (vec_len taking.new.added < vec_capacity taking.new.added) }
{
    taking.chunks.reserve(1)?;
    taking.added.reserve(1)?;
    Ok(())
}

/// The index names a chunk that it does not know at the place that it has, from now on. After a refusal it names no more chunks than before.
fn name_new(
    key: Key,
    place: ChunkPlace,
    taking: &mut Taking,
    index: &mut Index,
) -> Result<(), FlushError>
    requires sound { IsSound (view_of index.old) }
    requires takes { TakesKey (view_of index.old) key }
    requires absent { address_in (view_of index.old) key ≡ undefined }
    requires defined { place.address ≢ undefined }
    ensures sound { IsSound (view_of index.new) }
    ensures takes { (other : Key) → TakesKey (view_of index.old) other → TakesKey (view_of index.new) other }
    ensures named { OnOk result ((d : Described) (to : ℕ) (v : IndexView) → Fits d v → key ≡ next_key d taking.old.chunks.items → length taking.old.chunks.items < touched d d.shape.rows to → place.stored ≡ false
        → AreNamed d to v taking.old.chunks.items taking.old.added.items (view_of index.old) → AreNamed d to v taking.new.chunks.items taking.new.added.items (view_of index.new)) }
    ensures chunks { OnOk result (taking.new.chunks.items ≡ taking.old.chunks.items ++ place ∷ []) }
    ensures places { taking.new.places ≡ taking.old.places }
    ensures partly { OnErr result ((d : Described) (to : ℕ) (v : IndexView) → IsPartly d to v taking.old.added.items (view_of index.old) → IsTouched d d.shape.rows to key → IsPartly d to v taking.new.added.items (view_of index.new)) }
    ensures within { (lines across : ℕ) → key.i < lines → key.j < across → AreWithin lines across (view_of index.old) → AreWithin lines across (view_of index.new) }
    ensures deep { result ≡ Err FlushError.Deep → IsDeep (view_of index.old) key }
    ensures causes { IfErr result (λ e. (e ≡ FlushError.Deep) ⊎ (e ≡ FlushError.OutOfMemory)) }
{
    make_room(taking)?;
    index.insert(key, place.address)?;
    taking.chunks.push_reserved(place);
    taking.added.push_reserved(key);
    Ok(())
}

/// Gives a chunk that has none a new place, by which the index names it from now on. After a refusal the index names no more chunks than
/// before.
fn place_new(
    grid: &Grid,
    key: Key,
    taking: &mut Taking,
    index: &mut Index,
) -> Result<(), FlushError>
    requires grid { IsGrid grid.now }
    requires sound { IsSound (view_of index.old) }
    requires takes { TakesKey (view_of index.old) key }
    requires absent { address_in (view_of index.old) key ≡ undefined }
    requires small { taking.old.places.end < 2 ^ 64 }
    requires limit { taking.old.places.limit ≤ 2 ^ 40 }
    ensures sound { IsSound (view_of index.new) }
    ensures takes { (other : Key) → TakesKey (view_of index.old) other → TakesKey (view_of index.new) other }
    ensures small { OnOk result (taking.new.places.end < 2 ^ 64) }
    ensures limit { OnOk result (taking.new.places.limit ≡ taking.old.places.limit) }
    ensures named { OnOk result ((to : ℕ) (v : IndexView) → Fits (dataset_of grid.now) v
        → key ≡ next_key (dataset_of grid.now) taking.old.chunks.items → length taking.old.chunks.items < touched (dataset_of grid.now) grid.now.shape.rows to
        → AreNamed (dataset_of grid.now) to v taking.old.chunks.items taking.old.added.items (view_of index.old)
        → AreNamed (dataset_of grid.now) to v taking.new.chunks.items taking.new.added.items (view_of index.new)) }
    ensures taken { OnOk result ((to : ℕ) (v : IndexView) (early : List ChunkPlace) (s : Space) → Fits (dataset_of grid.now) v → key ≡ next_key (dataset_of grid.now) taking.old.chunks.items
        → AreNamed (dataset_of grid.now) to v taking.old.chunks.items taking.old.added.items (view_of index.old)
        → AreTakenBehind (dataset_of grid.now) (address_in v) early s taking.old.chunks.items taking.old.places
        → AreTakenBehind (dataset_of grid.now) (address_in v) early s taking.new.chunks.items taking.new.places) }
    ensures count { OnOk result (length taking.new.chunks.items ≡ length taking.old.chunks.items + 1) }
    ensures partly { OnErr result ((to : ℕ) (v : IndexView) → IsPartly (dataset_of grid.now) to v taking.old.added.items (view_of index.old)
        → IsTouched (dataset_of grid.now) grid.now.shape.rows to key → IsPartly (dataset_of grid.now) to v taking.new.added.items (view_of index.new)) }
    ensures within { (lines across : ℕ) → key.i < lines → key.j < across → AreWithin lines across (view_of index.old) → AreWithin lines across (view_of index.new) }
    ensures full { (full : Full) → result ≡ Err (FlushError.Space full) → IsRefused taking.old.places (chunk_len (dataset_of grid.now)) full }
    ensures deep { result ≡ Err FlushError.Deep → IsDeep (view_of index.old) key }
    ensures causes { IfErr result (λ e. IsSpace e ⊎ ((e ≡ FlushError.Deep) ⊎ (e ≡ FlushError.OutOfMemory))) }
{
    if index.is_deep(key) {
        return Err(FlushError::Deep);
    }
    let address = taking.places.take(grid.chunk_len())?;
    let place = ChunkPlace {
        address,
        stored: false,
    };
    name_new(key, place, taking, index)?;
    Ok(())
}

/// Gives a chunk of this band of rows its place: that which the index names, or a new one, which the index names from now on. Readers look
/// for it there, as they might not have done for a chunk that a stopped writer left. After a refusal the index names no more chunks than
/// before.
fn place_chunk(
    grid: &Grid,
    key: Key,
    band: u64,
    taking: &mut Taking,
    index: &mut Index,
) -> Result<(), FlushError>
    requires grid { IsGrid grid.now }
    requires sound { IsSound (view_of index.old) }
    requires takes { TakesKey (view_of index.old) key }
    requires row { band * grid.now.layout.chunk.0 < 2 ^ 64 }
    requires small { taking.old.places.end < 2 ^ 64 }
    requires limit { taking.old.places.limit ≤ 2 ^ 40 }
    ensures sound { IsSound (view_of index.new) }
    ensures takes { (other : Key) → TakesKey (view_of index.old) other → TakesKey (view_of index.new) other }
    ensures small { OnOk result (taking.new.places.end < 2 ^ 64) }
    ensures limit { OnOk result (taking.new.places.limit ≡ taking.old.places.limit) }
    ensures named { OnOk result ((to : ℕ) (v : IndexView) → Fits (dataset_of grid.now) v
        → key ≡ next_key (dataset_of grid.now) taking.old.chunks.items → band ≡ touched_band (dataset_of grid.now) grid.now.shape.rows (length taking.old.chunks.items)
        → length taking.old.chunks.items < touched (dataset_of grid.now) grid.now.shape.rows to
        → AreNamed (dataset_of grid.now) to v taking.old.chunks.items taking.old.added.items (view_of index.old)
        → AreNamed (dataset_of grid.now) to v taking.new.chunks.items taking.new.added.items (view_of index.new)) }
    ensures taken { OnOk result ((to : ℕ) (v : IndexView) (early : List ChunkPlace) (s : Space) → Fits (dataset_of grid.now) v → AreInside (dataset_of grid.now) s.end v
        → key ≡ next_key (dataset_of grid.now) taking.old.chunks.items
        → AreNamed (dataset_of grid.now) to v taking.old.chunks.items taking.old.added.items (view_of index.old)
        → AreTakenBehind (dataset_of grid.now) (address_in v) early s taking.old.chunks.items taking.old.places
        → AreTakenBehind (dataset_of grid.now) (address_in v) early s taking.new.chunks.items taking.new.places) }
    ensures count { OnOk result (length taking.new.chunks.items ≡ length taking.old.chunks.items + 1) }
    ensures partly { OnErr result ((to : ℕ) (v : IndexView) → IsPartly (dataset_of grid.now) to v taking.old.added.items (view_of index.old)
        → IsTouched (dataset_of grid.now) grid.now.shape.rows to key → IsPartly (dataset_of grid.now) to v taking.new.added.items (view_of index.new)) }
    ensures within { (lines across : ℕ) → key.i < lines → key.j < across → AreWithin lines across (view_of index.old) → AreWithin lines across (view_of index.new) }
    ensures full { (full : Full) → result ≡ Err (FlushError.Space full)
        → (address_in (view_of index.old) key ≡ undefined) × IsRefused taking.old.places (chunk_len (dataset_of grid.now)) full }
    ensures deep { result ≡ Err FlushError.Deep → (address_in (view_of index.old) key ≡ undefined) × IsDeep (view_of index.old) key }
    ensures causes { IfErr result (λ e. IsSpace e ⊎ ((e ≡ FlushError.Deep) ⊎ (e ≡ FlushError.OutOfMemory))) }
{
    if let Some(address) = index.get(key) {
        index.reach(key);
        let stored = band * grid.layout.chunk.0 < grid.shape.rows;
        keep(&mut taking.chunks, ChunkPlace { address, stored })?;
        return Ok(());
    }
    place_new(grid, key, taking, index)
}

/// Gives each chunk that the rows up to but not including `to` go into its place, behind those that have theirs already. After a refusal some
/// of the new ones have an address.
pub fn place_chunks(
    grid: &Grid,
    to: u64,
    taking: &mut Taking,
    index: &mut Index,
) -> Result<(), FlushError>
    requires grid { IsGrid grid.now }
    requires order { grid.now.shape.rows < to }
    requires room { (to - grid.now.shape.rows) * grid.now.shape.cols < 2 ^ 64 }
    requires few { first_line (dataset_of grid.now) (div_up to grid.now.layout.chunk.0) ≤ most_lines (dataset_of grid.now) }
    requires sound { IsSound (view_of index.old) }
    requires takes { (key : Key) → key.i < first_line (dataset_of grid.now) (div_up to grid.now.layout.chunk.0) → TakesKey (view_of index.old) key }
    requires small { taking.old.places.end < 2 ^ 64 }
    requires limit { taking.old.places.limit ≤ 2 ^ 40 }
    requires known { length taking.old.chunks.items ≤ touched (dataset_of grid.now) grid.now.shape.rows to }
    ensures sound { IsSound (view_of index.new) }
    // v is the index before any of the chunks was named
    ensures named { OnOk result ((v : IndexView) → Fits (dataset_of grid.now) v
        → AreNamed (dataset_of grid.now) to v taking.old.chunks.items taking.old.added.items (view_of index.old)
        → AreNamed (dataset_of grid.now) to v taking.new.chunks.items taking.new.added.items (view_of index.new)) }
    ensures taken { OnOk result ((v : IndexView) (early : List ChunkPlace) (s : Space) → Fits (dataset_of grid.now) v → AreInside (dataset_of grid.now) s.end v
        → AreNamed (dataset_of grid.now) to v taking.old.chunks.items taking.old.added.items (view_of index.old)
        → AreTakenBehind (dataset_of grid.now) (address_in v) early s taking.old.chunks.items taking.old.places
        → AreTakenBehind (dataset_of grid.now) (address_in v) early s taking.new.chunks.items taking.new.places) }
    ensures all { OnOk result (length taking.new.chunks.items ≡ touched (dataset_of grid.now) grid.now.shape.rows to) }
    ensures partly { OnErr result ((v : IndexView) → Fits (dataset_of grid.now) v
        → AreNamed (dataset_of grid.now) to v taking.old.chunks.items taking.old.added.items (view_of index.old)
        → IsPartly (dataset_of grid.now) to v taking.new.added.items (view_of index.new)) }
    ensures roomy { IsRoomy (dataset_of grid.now) (view_of index.old) → IsRoomy (dataset_of grid.now) (view_of index.new) }
    ensures full { (full : Full) → result ≡ Err (FlushError.Space full)
        → (v : IndexView) (early : List ChunkPlace) (s : Space) → Fits (dataset_of grid.now) v → AreInside (dataset_of grid.now) s.end v
        → AreNamed (dataset_of grid.now) to v taking.old.chunks.items taking.old.added.items (view_of index.old)
        → AreTakenBehind (dataset_of grid.now) (address_in v) early s taking.old.chunks.items taking.old.places
        → IsChunkFull (dataset_of grid.now) to v early s full }
    ensures deep { result ≡ Err FlushError.Deep
        → (v : IndexView) → Fits (dataset_of grid.now) v → (IsRoomy (dataset_of grid.now) v → IsRoomy (dataset_of grid.now) (view_of index.old))
        → AreNamed (dataset_of grid.now) to v taking.old.chunks.items taking.old.added.items (view_of index.old) → IsDeepPart (dataset_of grid.now) to v }
    ensures causes { IfErr result (λ e. IsSpace e ⊎ ((e ≡ FlushError.Deep) ⊎ (e ≡ FlushError.OutOfMemory))) }
{
    let from = grid.shape.rows;
    for k in taking.chunks.len() as u64..grid.touched(from, to) {
        let key = grid.touched_key(from, to, k);
        let band = grid.touched_band(from, to, k);
        place_chunk(grid, key, band, taking, index)?;
    }
    Ok(())
}

/// The index names a chunk at the place that it has, from now on, as it may have done before; readers look for it there. After a refusal it
/// names no more chunks than before.
fn name_chunk(
    key: Key,
    place: ChunkPlace,
    taking: &mut Taking,
    index: &mut Index,
) -> Result<(), FlushError>
    requires sound { IsSound (view_of index.old) }
    requires takes { TakesKey (view_of index.old) key }
    requires defined { place.address ≢ undefined }
    ensures sound { IsSound (view_of index.new) }
    ensures named { OnOk result ((d : Described) (to : ℕ) (v : IndexView) → Fits d v → key ≡ next_key d taking.old.chunks.items → length taking.old.chunks.items < touched d d.shape.rows to
        → IsEarlyPlace d (address_in v) d.shape.rows (length taking.old.chunks.items) place
        → AreNamed d to v taking.old.chunks.items taking.old.added.items (view_of index.old) → AreNamed d to v taking.new.chunks.items taking.new.added.items (view_of index.new)) }
    ensures chunks { OnOk result (taking.new.chunks.items ≡ taking.old.chunks.items ++ place ∷ []) }
    ensures places { taking.new.places ≡ taking.old.places }
    ensures partly { OnErr result ((d : Described) (to : ℕ) (v : IndexView) → IsPartly d to v taking.old.added.items (view_of index.old) → IsTouched d d.shape.rows to key → IsPartly d to v taking.new.added.items (view_of index.new)) }
    ensures within { (lines across : ℕ) → key.i < lines → key.j < across → AreWithin lines across (view_of index.old) → AreWithin lines across (view_of index.new) }
    ensures deep { result ≡ Err FlushError.Deep → (address_in (view_of index.old) key ≡ undefined) × IsDeep (view_of index.old) key }
    ensures causes { IfErr result (λ e. (e ≡ FlushError.Deep) ⊎ (e ≡ FlushError.OutOfMemory)) }
{
    if index.get(key).is_some() {
        index.reach(key);
        keep(&mut taking.chunks, place)?;
        return Ok(());
    }
    name_new(key, place, taking, index)
}

/// The index names the first chunks that the rows up to but not including `to` go into at the places that they have: those of rows that were
/// written early. After a refusal it names some of them.
pub fn name_chunks(
    grid: &Grid,
    early: &[ChunkPlace],
    to: u64,
    taking: &mut Taking,
    index: &mut Index,
) -> Result<(), FlushError>
    requires grid { IsGrid grid.now }
    requires order { grid.now.shape.rows < to }
    requires few { first_line (dataset_of grid.now) (div_up to grid.now.layout.chunk.0) ≤ most_lines (dataset_of grid.now) }
    requires sound { IsSound (view_of index.old) }
    requires fits { Fits (dataset_of grid.now) (view_of index.old) }
    requires takes { (key : Key) → key.i < first_line (dataset_of grid.now) (div_up to grid.now.layout.chunk.0) → TakesKey (view_of index.old) key }
    requires known { length early.now ≤ touched (dataset_of grid.now) grid.now.shape.rows to }
    requires early { (k : ℕ) (p : ChunkPlace) → slice_get early.now k ≡ Some p → IsEarlyPlace (dataset_of grid.now) (address_in (view_of index.old)) grid.now.shape.rows k p }
    requires no_chunks { taking.old.chunks.items ≡ [] }
    requires none_added { taking.old.added.items ≡ [] }
    ensures sound { IsSound (view_of index.new) }
    ensures named { OnOk result (AreNamed (dataset_of grid.now) to (view_of index.old) early.now taking.new.added.items (view_of index.new)) }
    ensures chunks { OnOk result (taking.new.chunks.items ≡ early.now) }
    ensures places { taking.new.places ≡ taking.old.places }
    ensures partly { OnErr result (IsPartly (dataset_of grid.now) to (view_of index.old) taking.new.added.items (view_of index.new)) }
    ensures roomy { IsRoomy (dataset_of grid.now) (view_of index.old) → IsRoomy (dataset_of grid.now) (view_of index.new) }
    ensures deep { result ≡ Err FlushError.Deep → IsDeepPart (dataset_of grid.now) to (view_of index.old) }
    ensures causes { IfErr result (λ e. (e ≡ FlushError.Deep) ⊎ (e ≡ FlushError.OutOfMemory)) }
{
    let from = grid.shape.rows;
    for place in early {
        let key = grid.touched_key(from, to, taking.chunks.len() as u64);
        name_chunk(key, *place, taking, index)?;
    }
    Ok(())
}

/// The chunk that all rows up to but not including `to` go into, where it is one alone, the index names its place and readers look for it
/// there; None elsewhere.
pub fn named_chunk(grid: &Grid, to: u64, index: &Index) -> Option<ChunkPlace>
    requires grid { IsGrid grid.now }
    requires order { grid.now.shape.rows < to }
    requires room { (to - grid.now.shape.rows) * grid.now.shape.cols < 2 ^ 64 }
    requires few { div_up to grid.now.layout.chunk.0 * chunks_across (dataset_of grid.now) ≤ 1000000 }
    requires sound { IsSound (view_of index.now) }
    requires fits { Fits (dataset_of grid.now) (view_of index.now) }
    requires takes { (key : Key) → key.i < first_line (dataset_of grid.now) (div_up to grid.now.layout.chunk.0) → TakesKey (view_of index.now) key }
    ensures placed { IfSome result (λ p. (s : Space) → AreInside (dataset_of grid.now) s.end (view_of index.now)
        → IsPlacing (dataset_of grid.now) to (view_of index.now) s (p ∷ []) [] (view_of index.now) s) }
    ensures all { IfSome result (λ p. touched (dataset_of grid.now) grid.now.shape.rows to ≡ 1) }
    ensures exact { IfSome result (λ p. p ≡ first_place (dataset_of grid.now) (view_of index.now)) }
    ensures none { IfNone result (touched (dataset_of grid.now) grid.now.shape.rows to ≡ 1 → IsReached (view_of index.now) (first_key (dataset_of grid.now)) → (first_place (dataset_of grid.now) (view_of index.now)).address ≡ undefined) }
{
    let from = grid.shape.rows;
    let (rows, columns) = grid.layout.chunk;
    let i = from / rows;
    let first = i * rows;
    // another band, or a dataset of no or of more than one chunk side by side
    if to - first > rows || grid.shape.cols == 0 || grid.shape.cols > columns {
        return None;
    }
    let key = Key { i, j: 0 };
    let address = index.get(key)?;
    if !index.is_reached(key) {
        return None;
    }
    let stored = first < from;
    Some(ChunkPlace { address, stored })
}

/// Chunks of these keys have no address, as before.
pub fn unset(added: &[Key], index: &mut Index)
    requires sound { IsSound (view_of index.old) }
    requires slots { All (HasSlot (view_of index.old)) added.now }
    ensures sound { IsSound (view_of index.new) }
    ensures taken_back { (d : Described) (to : ℕ) (v : IndexView) → IsPartly d to v added.now (view_of index.old) → IsPartly d to v [] (view_of index.new) }
    ensures within { (lines across : ℕ) → AreWithin lines across (view_of index.old) → AreWithin lines across (view_of index.new) }
{
    for key in added {
        index.unset(*key);
    }
}
