//! One dataset more of a packed file.
ghost use Rattle.std.specs.Prelude.{◌≡◌, ◌+◌, ◌≤◌, ◌^◌, ◌++◌, ◌∷◌, [], length, if◌then◌else◌, Err, IfOk, IsOk, OnOk};
ghost use Rattle.h5w_space.specs.declared.Full.{Full};
ghost use Rattle.h5w_step_laws.specs.Spelled.{spelled_header};
ghost use Rattle.h5w_chunks.specs.Grids.{IsGrid, dataset_of};
ghost use Rattle.h5w_several_creation_laws.specs.Links.{link_message};
ghost use Rattle.h5w_packing.specs.Plans.{IsSetOut, chunk_tiles, front_size, front_tiles, move_tiles, wanted_of};
ghost use Rattle.h5w_packing.specs.SoFar.{HasMore, IsAdded, IsSource};

use crate::front::{Front, front_at};
use crate::gathering::Planning;
use crate::placing::{Settled, settle};
use crate::ranges::Ranges;
use crate::source::Source;
use crate::tiling::{put_blocks, put_chunks, put_front};
use h5w_cache::PlanError;
use h5w_creation::{link_message, new_index};
use h5w_model::{OutOfMemory, Piece, Write};
use h5w_space::Places;
use std::alloc::Global;

/// Puts the ranges of the chunks and of the other blocks of the index.
fn put_behinds(front: &Front, settled: &Settled, ranges: &mut Ranges) -> Result<(), OutOfMemory>
    ensures { OnOk result (ranges.new ≡ ranges.old ++ (chunk_tiles settled.now.chunks.items ++ move_tiles (dataset_of front.now.grid).layout.index settled.now.plan.moves.items)) }
{
    put_chunks(&settled.chunks, ranges)?;
    put_blocks(front.grid.layout.index, &settled.plan.moves, ranges)
}

/// Puts the header's write behind others.
fn put_header(front: &Front, headers: &mut Vec<Write>) -> Result<(), OutOfMemory>
    ensures { OnOk result (headers.new.items ≡ headers.old.items ++ record { at = front.now.place; piece = front.now.header } ∷ []) }
{
    headers.push(Write {
        at: front.place,
        piece: Piece::of(front.header.as_slice()),
    })?;
    Ok(())
}

/// Puts the pieces of the index's blocks behind others. Where nothing changed the blocks in place are these, which have no chunk.
fn put_index(
    settled: &mut Settled,
    unchanged: &mut Vec<Write>,
    copies: &mut Vec<Write>,
    tops: &mut Vec<Write>,
) -> Result<(), OutOfMemory>
    ensures copies { OnOk result (copies.new.items ≡ copies.old.items ++ settled.old.plan.copies.items) }
    ensures tops { OnOk result (tops.new.items ≡ tops.old.items ++ (if settled.old.clean then unchanged.old.items else settled.old.plan.in_place.items)) }
    ensures chunks { settled.new.chunks ≡ settled.old.chunks }
{
    copies.append(&mut settled.plan.copies)?;
    if settled.clean {
        tops.append(unchanged)?;
    } else {
        tops.append(&mut settled.plan.in_place)?;
    }
    Ok(())
}

/// Puts the link to the dataset behind others.
fn put_link(
    alloc: Global,
    name: &[u8],
    front: &Front,
    so_far: &mut Planning,
) -> Result<(), OutOfMemory>
    requires { length name.now ≤ 255 }
    ensures { OnOk result (so_far.new ≡ record so_far.old { links = so_far.old.links ++ link_message (name.now, front.now.place) ∷ [] }) }
{
    so_far.links.push(link_message(alloc, name, front.place)?)?;
    Ok(())
}

/// Puts all of a dataset behind what is planned so far. The blocks behind its chunks end at `end`.
fn add(
    alloc: Global,
    name: &[u8],
    front: &Front,
    settled: &mut Settled,
    unchanged: &mut Vec<Write>,
    end: u64,
    so_far: &mut Planning,
) -> Result<(), OutOfMemory>
    requires { length name.now ≤ 255 }
    ensures { OnOk result (IsAdded name.now front.now settled.old unchanged.old.items end so_far.old so_far.new) }
{
    put_front(front, &mut so_far.fronts)?;
    put_behinds(front, settled, &mut so_far.behinds)?;
    put_header(front, &mut so_far.headers)?;
    put_link(alloc, name, front, so_far)?;
    put_index(settled, unchanged, &mut so_far.copies, &mut so_far.tops)?;
    so_far.chunks.append(&mut settled.chunks)?;
    so_far.place = front.end;
    so_far.end = end;
    Ok(())
}

/// The same, once the places are settled, or why they are not.
fn added(
    alloc: Global,
    name: &[u8],
    front: &Front,
    settled: Result<Settled, PlanError>,
    unchanged: &mut Vec<Write>,
    end: u64,
    so_far: &mut Planning,
) -> Result<(), PlanError>
    requires { length name.now ≤ 255 }
    ensures added { OnOk result (IfOk settled (λ x. IsAdded name.now front.now x unchanged.old.items end so_far.old so_far.new)) }
    ensures ok { OnOk result (IsOk settled) }
    ensures full { (full : Full) → result ≡ Err (PlanError.Full full) → settled ≡ Err (PlanError.Full full) }
{
    let mut settled = settled?;
    match add(alloc, name, front, &mut settled, unchanged, end, so_far) {
        Ok(()) => Ok(()),
        Err(OutOfMemory) => Err(PlanError::OutOfMemory),
    }
}

/// Plans a dataset behind those that are planned so far.
pub fn put_set(
    alloc: Global,
    source: &Source,
    limit: u64,
    so_far: &mut Planning,
) -> Result<(), PlanError>
    requires source { IsSource source.now }
    requires behind { 48 ≤ so_far.old.place }
    requires small { so_far.old.place + front_size (dataset_of source.now.grid) ≤ 8192 }
    requires above { so_far.old.place + front_size (dataset_of source.now.grid) ≤ so_far.old.end }
    requires low { so_far.old.end ≤ limit }
    requires high { limit ≤ 2 ^ 40 }
    ensures more { OnOk result (HasMore limit (wanted_of source.now) so_far.old so_far.new) }
    ensures full { (full : Full) → result ≡ Err (PlanError.Full full) → IsSetOut (wanted_of source.now) limit so_far.old.place so_far.old.end full }
{
    let front = front_at(alloc, &source.grid, so_far.place)?;
    let mut unchanged = Vec::new(alloc);
    let layout = &front.grid.layout;
    let mut index = new_index(
        alloc,
        layout.index,
        layout.address,
        front.block,
        &mut unchanged,
    )?;
    let mut places = Places::new(alloc, so_far.end, limit);
    let settled = settle(alloc, &front.grid, &source.table, &mut places, &mut index);
    added(
        alloc,
        source.name.as_slice(),
        &front,
        settled,
        &mut unchanged,
        places.end(),
        so_far,
    )
}
