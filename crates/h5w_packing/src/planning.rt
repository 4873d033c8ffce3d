//! Where all of a packed file stands. Nothing is looked at here, and nothing is written.
ghost use Rattle.std.specs.Prelude.{◌≡◌, ◌+◌, ◌*◌, ◌<◌, ◌≤◌, ◌^◌, length, map, nat_le, if◌then◌else◌, Err, IfOk, IsOk, OnOk};
ghost use Rattle.std.specs.List.{All, sum_by};
ghost use Rattle.h5w_model.specs.Headers.{msgs_bytes};
ghost use Rattle.h5w_space.specs.declared.Full.{Full};
ghost use Rattle.h5w_packing.specs.Jobs.{EndsLow, IsPrepared};
ghost use Rattle.h5w_packing.specs.Plans.{IsOut, IsPlanned, first_place, fronts_end, fronts_size, wanted_names, wanted_of};
ghost use Rattle.h5w_packing.specs.SoFar.{AreAll, AreSources, IsBegun, IsPlanOf};

use crate::adding::put_set;
use crate::front::front_len;
use crate::gathering::{Planning, finished};
use crate::packing::Packing;
use crate::ranges::{Ranges, kind};
use crate::source::Source;
use h5w_cache::PlanError;
use h5w_creation::{ROOT_PLACE, root_start};
use h5w_model::OutOfMemory;
use std::alloc::Global;

/// How many bytes a link has beside the name.
const LINK: usize = 15;

/// How many bytes link info and group info have.
const INFOS: usize = 28;

/// How many bytes the links of these datasets take.
fn links_len(sources: &[Source]) -> usize
    requires { sum_by (λ (s : Source). 15 + length s.name) sources.now < 2 ^ 16 }
    ensures exact { result ≡ sum_by (λ (s : Source). 15 + length s.name) sources.now }
    ensures bound { result < 2 ^ 16 }
{
    sources
        .iter()
        .map(|source| LINK + source.name.as_slice().len())
        .sum()
}

/// How many bytes the root header has beside messages of this size.
fn head_of(size: usize) -> usize
    ensures exact { result ≡ (if nat_le size 255 then 11 else 12) }
    ensures bound { result ≤ 12 }
{
    if size <= 255 { 11 } else { 12 }
}

/// Where the first dataset header stands, behind the root header of these datasets.
fn first_place(sources: &[Source]) -> u64
    requires { AreSources sources.now }
    ensures exact { result ≡ first_place (map wanted_of sources.now) }
    ensures bound { result ≤ 88 + 270 * length sources.now }
{
    let size = INFOS + links_len(sources);
    ROOT_PLACE + (head_of(size) + size) as u64
}

/// How many bytes the blocks in place of all datasets take.
fn fronts_len(alloc: Global, sources: &[Source]) -> Result<u64, OutOfMemory>
    requires { AreSources sources.now }
    ensures exact { IfOk result (λ n. n ≡ fronts_size (map wanted_of sources.now)) }
    ensures bound { IfOk result (λ n. n ≤ 515 * length sources.now) }
{
    let mut len = 0;
    for source in sources {
        len += front_len(alloc, &source.grid)?;
    }
    Ok(len)
}

/// A file of which no dataset is planned yet: the first of its headers stands at `place`, and all blocks in place end at `top`.
fn begun(alloc: Global, place: u64, top: u64) -> Result<Planning, OutOfMemory>
    requires { 48 ≤ place }
    ensures { IfOk result (IsBegun place top) }
{
    let mut fronts = Ranges::new(alloc);
    fronts.push(0, ROOT_PLACE, kind::SUPERBLOCK)?;
    fronts.push(ROOT_PLACE, place - ROOT_PLACE, kind::ROOT_HEADER)?;
    Ok(Planning {
        place,
        end: top,
        links: root_start(alloc)?,
        chunks: Vec::new(alloc),
        copies: Vec::new(alloc),
        tops: Vec::new(alloc),
        headers: Vec::new(alloc),
        fronts,
        behinds: Ranges::new(alloc),
    })
}

/// Plans all datasets, one after another.
fn put_sets(
    alloc: Global,
    sources: &[Source],
    limit: u64,
    so_far: &mut Planning,
) -> Result<(), PlanError>
    requires sources { AreSources sources.now }
    requires begun { IsBegun (first_place (map wanted_of sources.now)) (fronts_end (map wanted_of sources.now)) so_far.old }
    requires small { fronts_end (map wanted_of sources.now) ≤ 8192 }
    requires low { fronts_end (map wanted_of sources.now) ≤ limit }
    requires high { limit ≤ 2 ^ 40 }
    ensures all { OnOk result (AreAll (map wanted_of sources.now) limit so_far.new) }
    ensures full { (full : Full) → result ≡ Err (PlanError.Full full) → IsOut (map wanted_of sources.now) limit full }
{
    for source in sources {
        put_set(alloc, source, limit, so_far)?;
    }
    Ok(())
}

/// The plan of a file, once all its datasets are planned, or why they are not.
fn planned(so_far: Planning, all: Result<(), PlanError>) -> Result<Packing, PlanError>
    requires low { OnOk all (All EndsLow so_far.chunks.items) }
    requires links { OnOk all (length (msgs_bytes so_far.links) ≤ 2188) }
    ensures plan { IfOk result (IsPlanOf so_far) }
    ensures ok { OnOk result (IsOk all) }
    ensures full { (full : Full) → result ≡ Err (PlanError.Full full) → all ≡ Err (PlanError.Full full) }
{
    match all {
        Ok(()) => Ok(finished(so_far)?),
        Err(error) => Err(error),
    }
}

/// Plans a file of these datasets under their names, which ends by `limit`. The places begin behind all blocks in place; then, of one dataset
/// after another, the chunks come in rising order of their keys, and behind them the other blocks of the index, each behind those that it
/// names.
pub fn plan(alloc: Global, sources: &[Source], limit: u64) -> Result<Packing, PlanError>
    requires sources { AreSources sources.now }
    requires low { 1024 * length sources.now ≤ limit }
    requires high { limit ≤ 2 ^ 40 }
    ensures planned { IfOk result (IsPlanned (map wanted_of sources.now) limit) }
    // what a copy rests on
    ensures prepared { IfOk result IsPrepared }
    // the first range by its place that would end past the limit
    ensures full { (full : Full) → result ≡ Err (PlanError.Full full) → IsOut (map wanted_of sources.now) limit full }
{
    let place = first_place(sources);
    let top = place + fronts_len(alloc, sources)?;
    let mut so_far = begun(alloc, place, top)?;
    let all = put_sets(alloc, sources, limit, &mut so_far);
    planned(so_far, all)
}
