//! The version 2 B-tree: its header, and its nodes in the order of keys.
ghost use Rattle.std.specs.Prelude.{◌≡◌, ◌+◌, ◌<◌, ◌≤◌, ◌^◌, ◌&&◌, ◌||◌, ◌==◌, [], List, length, map, drop, not, true, IfOk, Some, IsSome, IsTrue};
ghost use Rattle.h5w_model.specs.Programs.{eval};
ghost use Rattle.h5w_model.specs.Trees.{capacity_of};
ghost use Rattle.h5w_model.specs.Findings.{Used, children_under, node_visit, tree_visit};
ghost use Rattle.h5w_bt.specs.Fields.{btin_of, bthd_of};
ghost use Rattle.h5w_bt.specs.Parts.{record_of};
ghost use Rattle.h5w_check.specs.Ran.{Ran, Told, answering, seen};
ghost use Rattle.h5w_check.specs.Ranges.{after};
ghost use Rattle.h5w_check.specs.Spans.{span_of};
ghost use Rattle.h5w_check.specs.Known.{Visits, known};
ghost use Rattle.h5w_check.specs.Nodes.{add_found, all_faded, children_after, counting, ended, faded, inner_found, leaf_found, records_after, root_found, under_after, IsInner};

use crate::block::block;
use crate::error::CheckError;
use crate::known::KnownNodes;
use crate::ranges::{Bounds, Ranges};
use crate::span::Span;
use h5w_bt::{Bthd, Btin, Btlf, Child, NODE, Record, node_len};
use h5w_bytes::UNDEFINED;
use h5w_image::PieceRead;
use h5w_model::BlockFault;
use std::alloc::Global;

/// The tree's header is refused.
const INDEX_HEADER: u8 = 10;

/// A node is refused.
const BAD_NODE: u8 = 14;

/// A child's total is not what stands under it.
const WRONG_TOTAL: u8 = 15;

/// The keys do not rise.
const KEYS_NOT_RISING: u8 = 16;

/// What was found of the children and records of a node so far.
#[derive(Clone, Copy)]
pub struct Under {
    /// Whether each child's total is what stands under it.
    pub totals: bool,
    pub span: Span,
}

impl Under {
    /// The node at `at`, of which this is all: first the totals of its children, and then its keys.
    fn end(self, at: u64) -> Result<Span, CheckError>
        ensures { (mid : List Used) → Told (ended at self.totals mid self.span) (seen (λ s. (mid, s)) result) }
    {
        if !self.totals {
            return Err(CheckError::Finding {
                kind: WRONG_TOTAL,
                at,
            });
        }
        if !self.span.rising {
            return Err(CheckError::Finding {
                kind: KEYS_NOT_RISING,
                at,
            });
        }
        Ok(self.span)
    }
}

/// The chunks of these records, and their keys.
fn put_records(bounds: &Bounds, records: &[Record], ranges: &mut Ranges) -> Result<Span, CheckError>
    ensures { Told (records_after bounds.now.end bounds.now.chunk ranges.old (span_of []) (map record_of records.now)) (seen (λ s. (ranges.new, s)) result) }
{
    let mut span = Span::none();
    for r in records {
        ranges.put_chunk(bounds, r.address)?;
        span = span.join(&Span::one(r.key));
    }
    Ok(span)
}

/// The leaf of `n` records that these bytes at `at` are.
fn leaf(
    alloc: Global,
    bounds: &Bounds,
    at: u64,
    n: u64,
    b: &[u8],
    ranges: &mut Ranges,
) -> Result<Span, CheckError>
    requires below { at + length b.now ≤ 2 ^ 64 }
    requires few { n ≤ 84 }
    ensures { Told (leaf_found bounds.now.end bounds.now.chunk at n b.now ranges.old) (seen (λ s. (ranges.new, s)) result) }
{
    match Btlf::decode(alloc, b, at, n) {
        Ok(t) => {
            let span = put_records(bounds, t.records.as_slice(), ranges)?;
            let under = Under { totals: true, span };
            under.end(at)
        }
        Err(BlockFault::OutOfMemory) => Err(CheckError::OutOfMemory),
        Err(_) => Err(CheckError::Finding { kind: BAD_NODE, at }),
    }
}

/// The inner node of a depth with `n` records that these bytes at `at` are.
fn inner_of(alloc: Global, at: u64, n: u64, depth: u64, b: &[u8]) -> Result<Btin, CheckError>
    requires below { at + length b.now ≤ 2 ^ 64 }
    requires deep { 1 ≤ depth }
    requires shallow { depth ≤ 3 }
    requires few { n ≤ capacity_of depth }
    ensures exact { Told (inner_found at n depth b.now) (seen btin_of result) }
    ensures formed { IfOk result (λ t. IsInner depth (btin_of t)) }
{
    match Btin::decode(alloc, b, at, n, depth) {
        Ok(t) => Ok(t),
        Err(BlockFault::OutOfMemory) => Err(CheckError::OutOfMemory),
        Err(_) => Err(CheckError::Finding { kind: BAD_NODE, at }),
    }
}

/// Whether all totals so far are right, and this one is the count of keys.
fn agrees(totals: bool, total: u64, count: u128) -> bool
    ensures { result ≡ (totals && (total == count)) }
{
    totals && u128::from(total) == count
}

/// Adds a child, which says that `total` records stand under it, and record `i`, where there is one.
fn add(
    bounds: &Bounds,
    under: Under,
    total: u64,
    span: &Span,
    records: &[Record],
    i: usize,
    ranges: &mut Ranges,
) -> Result<Under, CheckError>
    ensures exact { Told (add_found bounds.now.end bounds.now.chunk under.totals under.span total span.now (drop i (map record_of records.now)) ranges.old) (seen (λ u. (u.totals, (ranges.new, u.span))) result) }
    ensures fits { IfOk result (λ u. u.span.count < 2 ^ 128) }
{
    let totals = agrees(under.totals, total, span.count);
    let joined = under.span.join(span);
    if i >= records.len() {
        return Ok(Under {
            totals,
            span: joined,
        });
    }
    let r = records[i];
    ranges.put_chunk(bounds, r.address)?;
    Ok(Under {
        totals,
        span: joined.join(&Span::one(r.key)),
    })
}

/// How many records stand under a child, as its pointer says.
fn total_of(child: &Child) -> u64
    ensures exact { result ≡ child.now.total }
    ensures fits { child.now.total < 2 ^ 64 }
{
    child.total
}

/// Whether ranges no longer count: the keys so far do not rise, or have fallen at a node above.
fn falls(span: &Span, fallen: bool) -> bool
    ensures { result ≡ (not span.now.rising || fallen) }
{
    !span.rising || fallen
}

/// Visits the children of an inner node and their records, in the order of keys. `depth` is that of the children.
#[cycle(node)]
fn children<I: PieceRead>(
    alloc: Global,
    image: &mut I,
    bounds: &Bounds,
    depth: u64,
    t: &Btin,
    fallen: bool,
    nodes: &mut KnownNodes,
    ranges: &mut Ranges,
) -> Result<Under, CheckError>
    requires shallow { depth ≤ 2 }
    requires formed { IsInner (depth + 1) (btin_of t.now) }
    ensures { Visits bounds.now.end bounds.now.chunk nodes.old nodes.new (I.view image.old) (I.view image.new)
        (λ img. all_faded fallen (children_after true ranges.old (span_of []) (eval img (children_under bounds.now.end bounds.now.chunk (λ c. node_visit bounds.now.end bounds.now.chunk depth c.address c.records) t.now.records t.now.children))))
        (seen (λ u. (u.totals, (counting (not u.span.rising || fallen) ranges.new, u.span))) result) }
{
    let records = t.records.as_slice();
    let mut under = Under {
        totals: true,
        span: Span::none(),
    };
    for (i, child) in t.children.as_slice().iter().enumerate() {
        let total = total_of(child);
        let falls_here = falls(&under.span, fallen);
        let span = node(
            alloc,
            image,
            bounds,
            depth,
            child.address,
            child.records,
            falls_here,
            nodes,
            ranges,
        )?;
        under = add(bounds, under, total, &span, records, i, ranges)?;
    }
    Ok(under)
}

/// Looks at the node of a depth at `at`, with `n` records, and visits what stands under it.
#[cycle(node)]
fn look<I: PieceRead>(
    alloc: Global,
    image: &mut I,
    bounds: &Bounds,
    depth: u64,
    at: u64,
    n: u64,
    fallen: bool,
    nodes: &mut KnownNodes,
    ranges: &mut Ranges,
) -> Result<Span, CheckError>
    requires shallow { depth ≤ 3 }
    requires few { n ≤ capacity_of depth }
    ensures { Visits bounds.now.end bounds.now.chunk nodes.old nodes.new (I.view image.old) (I.view image.new)
        (λ img. faded fallen (under_after ranges.old (eval img (node_visit bounds.now.end bounds.now.chunk depth at n))))
        (seen (λ s. (counting fallen ranges.new, s)) result) }
{
    let len = node_len(depth, n);
    let b = block(alloc, image, bounds.end, at, NODE as u64, len, ranges)?;
    if depth == 0 {
        return leaf(alloc, bounds, at, n, &b, ranges);
    }
    let t = inner_of(alloc, at, n, depth, &b)?;
    let under = children(alloc, image, bounds, depth - 1, &t, fallen, nodes, ranges)?;
    under.end(at)
}

/// Visits the node of a depth at `at`, with `n` records, and what stands under it. Where the keys have `fallen` at a node above, the
/// ranges no longer count, and a node that is known is not looked at again.
#[cycle(node)]
fn node<I: PieceRead>(
    alloc: Global,
    image: &mut I,
    bounds: &Bounds,
    depth: u64,
    at: u64,
    n: u64,
    fallen: bool,
    nodes: &mut KnownNodes,
    ranges: &mut Ranges,
) -> Result<Span, CheckError>
    requires shallow { depth ≤ 3 }
    requires few { n ≤ capacity_of depth }
    ensures ran { Visits bounds.now.end bounds.now.chunk nodes.old nodes.new (I.view image.old) (I.view image.new)
        (λ img. faded fallen (under_after ranges.old (eval img (node_visit bounds.now.end bounds.now.chunk depth at n))))
        (seen (λ s. (counting fallen ranges.new, s)) result) }
    ensures once { IsTrue fallen → IsSome (known nodes.old depth at n) → I.view image.new ≡ I.view image.old }
    ensures kept { IfOk result (λ s. known nodes.new depth at n ≡ Some s) }
{
    if fallen {
        if let Some(span) = nodes.get(depth, at, n) {
            return Ok(span);
        }
    }
    let span = look(alloc, image, bounds, depth, at, n, fallen, nodes, ranges)?;
    nodes.put(depth, at, n, span)?;
    Ok(span)
}

/// The header of a tree that these bytes at `at` are.
fn header_of(at: u64, b: &[u8]) -> Result<Bthd, CheckError>
    requires { at + length b.now ≤ 2 ^ 64 }
    ensures exact { Told (root_found at b.now) (seen bthd_of result) }
    ensures shallow { IfOk result (λ t. t.depth ≤ 3) }
    ensures few { IfOk result (λ t. t.records ≤ capacity_of t.depth) }
{
    match Bthd::decode(b, at) {
        Ok(t) => Ok(t),
        Err(_) => Err(CheckError::Finding {
            kind: INDEX_HEADER,
            at,
        }),
    }
}

/// Visits the tree whose header stands at `at`.
pub fn tree<I: PieceRead>(
    alloc: Global,
    image: &mut I,
    bounds: &Bounds,
    at: u64,
    ranges: &mut Ranges,
) -> Result<(), CheckError>
    ensures { Ran (I.view image.old) (I.view image.new) (λ img. after ranges.old (eval img (tree_visit bounds.now.end bounds.now.chunk at))) (answering ranges.new result) }
{
    let len = Bthd::LEN as u64;
    let b = block(alloc, image, bounds.end, at, len, len, ranges)?;
    let t = header_of(at, &b)?;
    if t.root == UNDEFINED {
        return Ok(());
    }
    let mut nodes = KnownNodes::new(alloc);
    node(
        alloc, image, bounds, t.depth, t.root, t.records, false, &mut nodes, ranges,
    )?;
    Ok(())
}
