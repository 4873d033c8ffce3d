//! Where the chunks and the blocks behind them stand, of one dataset of a packed file. Nothing is looked at here, and nothing is written.
ghost use Rattle.std.specs.Prelude.{◌≡◌, ◌+◌, ◌<◌, ◌≤◌, ◌^◌, [], ◌∷◌, ◌++◌, length, Err, IfOk, OnOk};
ghost use Rattle.h5w_model.specs.Findings.{chunk_bytes};
ghost use Rattle.h5w_model.specs.Tables.{chunks_across, format_limits, index_key, limit_of, needed};
ghost use Rattle.h5w_space.specs.declared.Full.{Full};
ghost use Rattle.h5w_chunks.specs.Grids.{IsGrid, dataset_of};
ghost use Rattle.h5w_index.specs.Held.{view_of};
ghost use Rattle.h5w_index.specs.Views.{IsSound};
ghost use Rattle.h5w_packing_laws.specs.Growing.{AreNamed, IsNamedNext, IsTight, named_from};
ghost use Rattle.h5w_packing.specs.Plans.{IsChunkOut, IsNextOut, IsOfKind, IsSettled, IsUnsettled, TakesAll, chunks_end, copied_from, packed_table};

use crate::job::Copied;
use h5w_bytes::UNDEFINED;
use h5w_cache::{Plan, PlanError};
use h5w_chunks::{Grid, IndexKind};
use h5w_index::{Index, InsertError, Key};
use h5w_model::OutOfMemory;
use h5w_space::Places;
use std::alloc::Global;

/// The key by which the index has the chunk of a number.
fn key_of(grid: &Grid, number: u64) -> Key
    requires grid { IsGrid grid.now }
    requires some { 0 < chunks_across (dataset_of grid.now) }
    ensures { result ≡ index_key (dataset_of grid.now) number }
{
    match grid.layout.index {
        IndexKind::Array => Key { i: number, j: 0 },
        IndexKind::Tree => Key {
            i: number / grid.across(),
            j: number % grid.across(),
        },
    }
}

/// Gives the chunk of a number the next place of the file, by which the index names it from then on.
fn place_chunk(
    grid: &Grid,
    number: u64,
    places: &mut Places,
    index: &mut Index,
) -> Result<u64, PlanError>
    requires grid { IsGrid grid.now }
    requires inside { number < needed (dataset_of grid.now) }
    requires few { needed (dataset_of grid.now) ≤ limit_of format_limits (dataset_of grid.now).layout.index }
    requires sound { IsSound (view_of index.old) }
    requires takes { TakesAll (dataset_of grid.now) (view_of index.old) }
    requires kind { IsOfKind (dataset_of grid.now) (view_of index.old) }
    requires tight { IsTight places.old }
    requires limit { places.old.limit ≤ 2 ^ 40 }
    ensures sound { IsSound (view_of index.new) }
    ensures takes { OnOk result (TakesAll (dataset_of grid.now) (view_of index.new)) }
    ensures kind { OnOk result (IsOfKind (dataset_of grid.now) (view_of index.new)) }
    ensures place { IfOk result (λ a. a ≡ places.old.end) }
    ensures places { OnOk result (places.new ≡ record places.old { end = places.old.end + chunk_bytes (dataset_of grid.now) }) }
    ensures fits { OnOk result (places.old.end + chunk_bytes (dataset_of grid.now) ≤ places.old.limit) }
    ensures named { IfOk result (λ a. IsNamedNext (view_of index.old) (index_key (dataset_of grid.now) number, a) (view_of index.new)) }
    ensures full { (full : Full) → result ≡ Err (PlanError.Full full) → IsNextOut (chunk_bytes (dataset_of grid.now)) places.old full }
{
    let key = key_of(grid, number);
    let address = places.take(grid.chunk_len()).map_err(PlanError::Full)?;
    match index.insert(key, address) {
        Ok(()) => Ok(address),
        Err(InsertError::Deep) => unreachable!(),
        Err(InsertError::OutOfMemory) => Err(PlanError::OutOfMemory),
    }
}

/// Puts a chunk behind others.
fn keep(chunks: &mut Vec<Copied>, chunk: Copied) -> Result<(), OutOfMemory>
    ensures { OnOk result (chunks.new.items ≡ chunks.old.items ++ chunk ∷ []) }
{
    chunks.push(chunk)?;
    Ok(())
}

/// Gives each chunk that has an address in the source a place, one behind the other. `table` has these addresses by the chunks' numbers.
fn place_chunks(
    alloc: Global,
    grid: &Grid,
    table: &[u64],
    places: &mut Places,
    index: &mut Index,
) -> Result<Vec<Copied>, PlanError>
    requires grid { IsGrid grid.now }
    requires listed { length table.now ≡ needed (dataset_of grid.now) }
    requires few { needed (dataset_of grid.now) ≤ limit_of format_limits (dataset_of grid.now).layout.index }
    requires sound { IsSound (view_of index.old) }
    requires takes { TakesAll (dataset_of grid.now) (view_of index.old) }
    requires kind { IsOfKind (dataset_of grid.now) (view_of index.old) }
    requires tight { IsTight places.old }
    requires limit { places.old.limit ≤ 2 ^ 40 }
    requires within { places.old.end ≤ places.old.limit }
    ensures sound { IsSound (view_of index.new) }
    ensures chunks { IfOk result (λ v. v.items ≡ copied_from (chunk_bytes (dataset_of grid.now)) places.old.end table.now) }
    ensures places { OnOk result (places.new ≡ record places.old { end = chunks_end (chunk_bytes (dataset_of grid.now)) places.old.end table.now }) }
    ensures within { OnOk result (places.new.end ≤ places.old.limit) }
    ensures named { OnOk result (AreNamed (view_of index.old) (named_from (dataset_of grid.now) 0 (packed_table (chunk_bytes (dataset_of grid.now)) places.old.end table.now)) (view_of index.new)) }
    ensures full { (full : Full) → result ≡ Err (PlanError.Full full) → IsChunkOut (chunk_bytes (dataset_of grid.now)) places.old.end places.old.limit table.now full }
{
    let mut chunks = Vec::new(alloc);
    for (number, from) in table.iter().enumerate() {
        if *from != UNDEFINED {
            let to = place_chunk(grid, number as u64, places, index)?;
            let len = grid.chunk_len();
            keep(
                &mut chunks,
                Copied {
                    from: *from,
                    to,
                    len,
                },
            )?;
        }
    }
    Ok(chunks)
}

/// The chunks of an index that have their places, and the plan of its blocks.
#[derive(Drop)]
pub struct Settled {
    pub chunks: Vec<Copied>,
    pub plan: Plan,
    /// Whether no chunk was named: then the plan writes nothing.
    pub clean: bool,
}

/// Gives the chunks and then the blocks of an index without chunks their places, which all are taken at the end.
pub fn settle(
    alloc: Global,
    grid: &Grid,
    table: &[u64],
    places: &mut Places,
    index: &mut Index,
) -> Result<Settled, PlanError>
    requires grid { IsGrid grid.now }
    requires listed { length table.now ≡ needed (dataset_of grid.now) }
    requires few { needed (dataset_of grid.now) ≤ limit_of format_limits (dataset_of grid.now).layout.index }
    requires sound { IsSound (view_of index.old) }
    requires takes { TakesAll (dataset_of grid.now) (view_of index.old) }
    requires kind { IsOfKind (dataset_of grid.now) (view_of index.old) }
    requires tight { IsTight places.old }
    requires limit { places.old.limit ≤ 2 ^ 40 }
    requires within { places.old.end ≤ places.old.limit }
    ensures settled { IfOk result (λ x. IsSettled (dataset_of grid.now) table.now places.old (view_of index.old) x.chunks.items x.plan.moves.items x.plan.copies.items x.plan.in_place.items x.clean (view_of index.new) places.new) }
    ensures full { (full : Full) → result ≡ Err (PlanError.Full full) → IsUnsettled (dataset_of grid.now) table.now places.old (view_of index.old) full }
{
    let chunks = place_chunks(alloc, grid, table, places, index)?;
    let clean = index.is_clean();
    let begun = index.begin(places)?;
    let plan = index.finish(begun);
    Ok(Settled {
        chunks,
        plan,
        clean,
    })
}
