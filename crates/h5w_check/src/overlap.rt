//! Whether the ranges of a file overlap, and what they come to.
ghost use Rattle.std.specs.Prelude.{◌≡◌, ◌++◌, ◌∷◌, [], List, ◌+◌, ◌-◌, map, not, count_by, sum_by, option_map, IfOk};
ghost use Rattle.h5w_model.specs.Findings.{by_place, first_overlap, overlap_of};
ghost use Rattle.h5w_check.specs.Ran.{Told, seen};
ghost use Rattle.h5w_check.specs.Ranges.{used_of};
ghost use Rattle.h5w_check.specs.Verdicts.{AreRuns, HaveSameOrder, error_of, summary_of, summary_with, verdict_with};

use crate::error::{CheckError, Summary};
use crate::ranges::{Range, Ranges};
use h5w_model::OutOfMemory;
use h5w_super::Super;
use std::alloc::Global;

/// How many chunks there are.
#[tactic(auto, using(crate::proofs::VerdictLemmas::chunks_held))]
fn chunks(ranges: &[Range]) -> u64
    ensures { result ≡ count_by (λ u. u.chunk) (map used_of ranges.now) }
{
    ranges.iter().filter(|r| r.chunk).count() as u64
}

/// How many blocks there are that are no chunks.
#[tactic(auto, using(crate::proofs::VerdictLemmas::blocks_held))]
fn blocks(ranges: &[Range]) -> u64
    ensures { result ≡ count_by (λ u. not u.chunk) (map used_of ranges.now) }
{
    ranges.iter().filter(|r| !r.chunk).count() as u64
}

/// How many bytes they have together.
fn bytes(ranges: &[Range]) -> u128
    ensures { result ≡ sum_by (λ u. u.len) (map used_of ranges.now) }
{
    let mut sum = 0;
    for r in ranges {
        sum += u128::from(r.len);
    }
    sum
}

/// How many bytes below the end are in no range.
fn lost(end: u64, bytes: u128) -> u64
    ensures { result ≡ end - bytes }
{
    u128::from(end).saturating_sub(bytes) as u64
}

/// What a file of these ranges has, of datasets with these rows.
fn summary(ranges: &[Range], s: &Super, rows: Vec<u64>) -> Summary
    ensures { summary_of result ≡ summary_with s.now rows.items (map used_of ranges.now) }
{
    Summary {
        chunks: chunks(ranges),
        blocks: blocks(ranges),
        end: s.end,
        lost: lost(s.end, bytes(ranges)),
        rows,
    }
}

/// The first byte behind a range.
fn end_of(r: &Range) -> u128
    ensures { result ≡ r.now.place + r.now.len }
{
    u128::from(r.place) + u128::from(r.len)
}

/// The first of some ranges by place that begins before the end of its neighbour before it, and that neighbour.
fn overlap_behind(first: Range, rest: &[Range]) -> Option<CheckError>
    ensures { result ≡ option_map error_of (first_overlap (used_of first) (map used_of rest.now)) }
{
    let mut before = first;
    for r in rest {
        if u128::from(r.place) < end_of(&before) {
            return Some(CheckError::Overlap {
                at: r.place,
                len: r.len,
                other: before.place,
                other_len: before.len,
            });
        }
        before = *r;
    }
    None
}

/// The first overlap of ranges by place.
fn overlap(ranges: &[Range]) -> Option<CheckError>
    ensures { result ≡ option_map error_of (overlap_of (map used_of ranges.now)) }
{
    match ranges.split_first() {
        Some((first, rest)) => overlap_behind(*first, rest),
        None => None,
    }
}

/// Puts a block that begins no earlier than `bound` in the first run, and any other range in the second, whose ranges all begin before
/// `bound`. Answers that bound for the second run as it is then.
fn put_in_run(
    runs: &mut Vec<Range>,
    others: &mut Vec<Range>,
    bound: u128,
    r: Range,
) -> Result<u128, OutOfMemory>
    ensures { IfOk result (λ t. (done : List Range) → AreRuns bound done runs.old.items others.old.items → AreRuns t (done ++ r ∷ []) runs.new.items others.new.items) }
{
    let place = u128::from(r.place);
    if r.chunk || place < bound {
        others.push(r)?;
        return Ok(bound.max(place + 1));
    }
    runs.push(r)?;
    Ok(bound)
}

/// The ranges in two runs, the blocks that begin behind all chunks before them, and the others. One flush puts its chunks before its
/// index blocks, and they are visited in between; so the chunks rise in the second run, and the sort has little left to do. Those of
/// one place keep their order: none goes to the first run while one of its place is in the second.
fn in_runs(alloc: Global, ranges: &[Range]) -> Result<Vec<Range>, OutOfMemory>
    ensures { IfOk result (λ v. HaveSameOrder v.items ranges.now) }
{
    let mut runs = Vec::new(alloc);
    let mut others = Vec::new(alloc);
    let mut bound = 0;
    for r in ranges {
        bound = put_in_run(&mut runs, &mut others, bound, *r)?;
    }
    runs.extend_from_slice(&others)?;
    Ok(runs)
}

/// The ranges by place, those of one place in the order of visit.
fn sorted(alloc: Global, ranges: &[Range]) -> Result<Vec<Range>, OutOfMemory>
    ensures { IfOk result (λ v. map used_of v.items ≡ by_place (map used_of ranges.now)) }
{
    let mut runs = in_runs(alloc, ranges)?;
    runs.sort_by_key(|r| r.place)?;
    Ok(runs)
}

/// The verdict on a file with these ranges, which has datasets with these rows.
pub fn verdict(
    alloc: Global,
    ranges: Ranges,
    s: &Super,
    rows: Vec<u64>,
) -> Result<Summary, CheckError>
    ensures { Told (verdict_with s.now rows.items ranges) (seen summary_of result) }
{
    let list = ranges.into_vec();
    let summary = summary(&list, s, rows);
    let by_place = sorted(alloc, &list)?;
    match overlap(&by_place) {
        Some(error) => Err(error),
        None => Ok(summary),
    }
}
