//! The ranges of a file that is opened, and the first of them that is refused.
ghost use Rattle.std.specs.Prelude.{◌≡◌, ◌⊎◌, ◌+◌, ◌-◌, ◌≤◌, ◌++◌, ◌∷◌, [], take, nat_lt, IfErr, IfOk, MatchOption, Some, None, Ok, Err, OnOk};
ghost use Rattle.std.specs.Option.{option_copied};
ghost use Rattle.h5w_model.specs.Tables.{chunks_across, format_limits};
ghost use Rattle.h5w_bt_index.specs.Held as trees;
ghost use Rattle.h5w_bt_index.specs.Index.{IsShaped, records};
ghost use Rattle.h5w_dataset.specs.Described.{described_of};
ghost use Rattle.h5w_headers.specs.Ran.{seen};
ghost use Rattle.h5w_index.specs.Held.{view_of};
ghost use Rattle.h5w_index.specs.Views.{a_tree};
ghost use Rattle.h5w_opening.specs.Views.{opened_of};
ghost use Rattle.h5w_writer_open.specs.OpenRanges.{blocks_in, chunk_0_range, chunks_behind, chunks_from, chunks_in, cut_at, first_key, first_open, first_open_line, first_past, HasFewChunks, IsNear, header_alone, header_len, open_blocks, open_chunks, is_starting, ranges_refused, refused_index, refused_open, refused_ranges};
ghost use Rattle.h5w_writer_open.specs.OpenAnswers.{IsBlankOf, IsKeptIndexOf, IsStartOf};
ghost use Rattle.h5w_writer_open.specs.OpenSteps.{IfNamedIndex, IsNamedIndex};

use crate::index::NoIndex;
use h5w_bt::{Bthd, Record};
use h5w_bt_index::TreeIndex;
use h5w_bytes::UNDEFINED;
use h5w_dataset::Dataset;
use h5w_ea::{CHUNKS, Eahd};
use h5w_ea_index::ArrayIndex;
use h5w_index::{Index, Key};
use h5w_model::{BlockFault, IndexKind, OutOfMemory, ReadError};
use h5w_opening::{OpenError, Opening, check};
use h5w_space::Extent;
use std::alloc::Global;

/// How many ranges come first: chunk 0 of the dataset header, and an array's header and its index block, or the superblock and a tree's
/// header.
const IN_PLACE: usize = 3;

/// How many bytes an array's header has.
const ARRAY_HEADER_LEN: u64 = Eahd::LEN as u64;

/// How many bytes a tree's header has.
const TREE_HEADER_LEN: u64 = Bthd::LEN as u64;

/// Whether a range ends behind a place.
fn ends_past(r: &Extent, end: u64) -> bool
    ensures { result ≡ nat_lt end (r.now.at + r.now.size) }
{
    r.size > end || r.at > end - r.size
}

/// The first range that ends behind a place, where it stands in the list.
fn find_past(ranges: &[Extent], end: u64) -> Option<&Extent>
    ensures { option_copied result ≡ first_past end ranges.now }
{
    ranges.iter().find(|r| ends_past(r, end))
}

/// The first range that ends behind a place.
fn first_past(ranges: &[Extent], end: u64) -> Option<Extent>
    ensures { result ≡ first_past end ranges.now }
{
    find_past(ranges, end).copied()
}

/// The first of these blocks, and then of these chunks, that ends behind a place.
fn any_past(blocks: &[Extent], chunks: &[Extent], end: u64) -> Option<Extent>
    ensures { result ≡ first_past end (blocks.now ++ chunks.now) }
{
    match first_past(blocks, end) {
        Some(r) => Some(r),
        None => first_past(chunks, end),
    }
}

/// What is answered of a range that is cut at a place.
fn cut_at(r: &Extent, end: u64) -> OpenError
    ensures { result ≡ cut_at end r.now }
{
    let fault = BlockFault::Cut {
        need: r.size,
        got: end.saturating_sub(r.at),
    };
    OpenError::Read(ReadError::Damaged { at: r.at, fault })
}

/// The band of the last committed row, 0 where there is none.
fn first_open(d: &Dataset) -> u64
    ensures { result ≡ first_open (described_of d.now) }
{
    d.shape.rows.saturating_sub(1) / d.layout.chunk.0
}

/// How many chunks stand side by side.
fn across(d: &Dataset) -> u64
    ensures { result ≡ chunks_across (described_of d.now) }
{
    d.shape.cols.div_ceil(d.layout.chunk.1)
}

/// The first line of keys of that band.
pub fn first_open_line(d: &Dataset) -> u64
    requires few { HasFewChunks (described_of d.now) }
    ensures { result ≡ first_open_line (described_of d.now) }
{
    let band = first_open(d);
    match d.layout.index {
        IndexKind::Array => band * across(d),
        IndexKind::Tree => band,
    }
}

/// The first key of that band.
pub fn first_key(d: &Dataset) -> Key
    requires few { HasFewChunks (described_of d.now) }
    ensures { result ≡ first_key (described_of d.now) }
{
    Key {
        i: first_open_line(d),
        j: 0,
    }
}

/// The ranges of an array's chunks from number `from` on, each of `len` bytes.
fn array_chunks(
    alloc: Global,
    array: &ArrayIndex,
    from: u64,
    len: u64,
) -> Result<Vec<Extent>, OutOfMemory>
    ensures { IfOk result (λ r. r.items ≡ chunks_from array.now len from (format_limits.array - from)) }
{
    let mut chunks = Vec::new(alloc);
    for i in from..CHUNKS {
        if let Some(at) = array.get(i) {
            chunks.push(Extent { at, size: len })?;
        }
    }
    Ok(chunks)
}

/// The ranges of the chunks of these records from line `line` of their keys on, each of `len` bytes.
fn chunks_behind(
    alloc: Global,
    records: &[Record],
    line: u64,
    len: u64,
) -> Result<Vec<Extent>, OutOfMemory>
    ensures { IfOk result (λ r. r.items ≡ chunks_behind len line records.now) }
{
    let mut chunks = Vec::new(alloc);
    for r in records {
        if r.key.i >= line && r.address != UNDEFINED {
            chunks.push(Extent {
                at: r.address,
                size: len,
            })?;
        }
    }
    Ok(chunks)
}

/// The ranges of a tree's chunks from line `line` of their keys on, each of `len` bytes.
fn tree_chunks(
    alloc: Global,
    tree: &TreeIndex,
    line: u64,
    len: u64,
) -> Result<Vec<Extent>, OutOfMemory>
    ensures { IfOk result (λ r. r.items ≡ chunks_behind len line (records (trees.view_of tree.now))) }
{
    let records = h5w_bt_open::records(alloc, tree)?;
    chunks_behind(alloc, &records, line, len)
}

/// The ranges of the chunks of the last committed band and later.
fn chunks_in(alloc: Global, index: &Index, d: &Dataset) -> Result<Vec<Extent>, OutOfMemory>
    requires few { HasFewChunks (described_of d.now) }
    ensures { IfOk result (λ r. r.items ≡ chunks_in (described_of d.now) (view_of index.now)) }
{
    let first = first_open_line(d);
    match index {
        Index::Array(array) => array_chunks(alloc, array, first, d.chunk_bytes()),
        Index::Tree(tree) => tree_chunks(alloc, tree, first, d.chunk_bytes()),
    }
}

/// The same where there is an index.
fn open_chunks(
    alloc: Global,
    index: &Result<Index, NoIndex>,
    d: &Dataset,
) -> Result<Vec<Extent>, OutOfMemory>
    requires few { HasFewChunks (described_of d.now) }
    ensures { IfOk result (λ r. r.items ≡ open_chunks (described_of d.now) (seen view_of index.now)) }
{
    match index {
        Ok(index) => chunks_in(alloc, index, d),
        Err(_) => Ok(Vec::new(alloc)),
    }
}

/// How many bytes the header of an index has.
fn header_len(kind: IndexKind) -> u64
    ensures { result ≡ header_len kind }
{
    match kind {
        IndexKind::Array => ARRAY_HEADER_LEN,
        IndexKind::Tree => TREE_HEADER_LEN,
    }
}

/// The range of the superblock.
fn superblock() -> Extent
    ensures { result ≡ record { at = 0; size = 48 } }
{
    Extent {
        at: 0,
        size: h5w_super::LEN as u64,
    }
}

/// The range of the header of an index of which nothing more was read, or of the superblock where the layout names none.
fn header_alone(d: &Dataset) -> Extent
    ensures { result ∷ [] ≡ header_alone (described_of d.now).layout.index (described_of d.now).layout.address }
{
    if d.layout.address == UNDEFINED {
        return superblock();
    }
    Extent {
        at: d.layout.address,
        size: header_len(d.layout.index),
    }
}

/// The ranges of the superblock, of the header of the tree that the layout names, and of its nodes on the way to a chunk of the last
/// committed band or later, in the order of the looks.
fn tree_blocks(alloc: Global, tree: &TreeIndex, d: &Dataset) -> Result<Vec<Extent>, OutOfMemory>
    requires shaped { IsShaped (trees.view_of tree.now) }
    requires few { HasFewChunks (described_of d.now) }
    ensures { IfOk result (λ r. r.items ≡ blocks_in (described_of d.now) (a_tree (described_of d.now).layout.address (trees.view_of tree.now))) }
{
    let mut blocks = Vec::new(alloc);
    blocks.push(superblock())?;
    blocks.push(Extent {
        at: d.layout.address,
        size: TREE_HEADER_LEN,
    })?;
    let nodes = h5w_bt_open::ranges(alloc, tree, first_key(d))?;
    blocks.extend_from_slice(&nodes)?;
    Ok(blocks)
}

/// The ranges of the blocks of the index that the layout names, on the way to a chunk of the last committed band or later, in the order of
/// the looks.
fn index_blocks(alloc: Global, index: &Index, d: &Dataset) -> Result<Vec<Extent>, OutOfMemory>
    requires named { IsNamedIndex (described_of d.now) (view_of index.now) }
    requires few { HasFewChunks (described_of d.now) }
    ensures { IfOk result (λ r. r.items ≡ blocks_in (described_of d.now) (view_of index.now)) }
{
    match index {
        Index::Array(array) => array.ranges(first_open_line(d)),
        Index::Tree(tree) => tree_blocks(alloc, tree, d),
    }
}

/// The ranges of chunk 0 of the dataset header and of those blocks of the index, in the order of the looks.
fn blocks(
    alloc: Global,
    found: &Opening,
    index: &Result<Index, NoIndex>,
) -> Result<Vec<Extent>, OutOfMemory>
    requires named { IfNamedIndex (opened_of found.now).header.dataset (seen view_of index.now) }
    requires few { HasFewChunks (opened_of found.now).header.dataset }
    ensures { IfOk result (λ r. r.items ≡ chunk_0_range (opened_of found.now) ∷ open_blocks (opened_of found.now).header.dataset (seen view_of index.now)) }
{
    let d = &found.header.dataset;
    let mut blocks = Vec::new(alloc);
    blocks.push(Extent {
        at: found.place,
        size: found.header.len,
    })?;
    match index {
        Ok(index) => {
            let rest = index_blocks(alloc, index, d)?;
            blocks.extend_from_slice(&rest)?;
        }
        Err(_) => blocks.push(header_alone(d))?,
    }
    Ok(blocks)
}

/// Refuses the first of these ranges that cannot stand in a file that ends at `end`.
fn check_each(blocks: &[Extent], chunks: &[Extent], end: u64) -> Result<(), OpenError>
    ensures { MatchOption (refused_ranges end blocks.now chunks.now) (result ≡ Ok tt) (λ e. result ≡ Err e) }
{
    let front = blocks.len().min(IN_PLACE);
    if let Some(r) = any_past(&blocks[..front], chunks, u64::MAX) {
        return Err(cut_at(&r, 0));
    }
    if let Some(r) = any_past(blocks, chunks, end) {
        return Err(cut_at(&r, end));
    }
    Ok(())
}

/// Refuses the first range that cannot stand in the file.
pub fn check_ranges(
    alloc: Global,
    found: &Opening,
    index: &Result<Index, NoIndex>,
) -> Result<(), OpenError>
    requires named { IfNamedIndex (opened_of found.now).header.dataset (seen view_of index.now) }
    requires few { HasFewChunks (opened_of found.now).header.dataset }
    ensures none { OnOk result (ranges_refused (opened_of found.now) (seen view_of index.now) ≡ None) }
    ensures first { IfErr result (λ e. (ranges_refused (opened_of found.now) (seen view_of index.now) ≡ Some e) ⊎ (e ≡ OpenError.OutOfMemory)) }
{
    let blocks = blocks(alloc, found, index)?;
    let chunks = open_chunks(alloc, index, &found.header.dataset)?;
    check_each(&blocks, &chunks, found.root.end)
}

/// Whether the layout does not name the index yet.
pub fn is_starting(d: &Dataset) -> bool
    ensures { result ≡ is_starting (described_of d.now) }
{
    d.layout.address == UNDEFINED
}

/// An index of a kind without chunks, of which nothing stands anywhere.
fn blank_index(alloc: Global, kind: IndexKind) -> Result<Index, OutOfMemory>
    ensures { IfOk result (λ v. IsBlankOf kind (view_of v)) }
{
    match kind {
        IndexKind::Array => Index::new_array(alloc, 0, 0),
        IndexKind::Tree => Ok(Index::new_tree(alloc, 0)),
    }
}

/// A blank index, where the layout names none, or an array whose header names no index block: a place of 0 says that.
fn started_index(alloc: Global, d: &Dataset, why: NoIndex) -> Result<Index, OpenError>
    requires near { IsNear (described_of d.now) (Err why) }
    ensures start { IfOk result (λ v. IsStartOf (described_of d.now) why (view_of v)) }
    ensures none { OnOk result (refused_index (described_of d.now) (Err why) ≡ None) }
    ensures first { IfErr result (λ e. (refused_index (described_of d.now) (Err why) ≡ Some e) ⊎ (e ≡ OpenError.OutOfMemory)) }
{
    let at = d.layout.address;
    match why {
        NoIndex::Unnamed => Ok(blank_index(alloc, d.layout.index)?),
        NoIndex::Empty => Ok(Index::new_array(alloc, at, 0)?),
        NoIndex::WrongTotals => Err(OpenError::Finding { kind: 15, at }),
        NoIndex::Unordered => Err(OpenError::Finding { kind: 16, at }),
    }
}

/// The index that was read, or a blank one.
pub fn kept_index(
    alloc: Global,
    d: &Dataset,
    index: Result<Index, NoIndex>,
) -> Result<Index, OpenError>
    requires near { IsNear (described_of d.now) (seen view_of index) }
    ensures kept { IfOk result (λ v. IsKeptIndexOf (described_of d.now) (seen view_of index) (view_of v)) }
    ensures none { OnOk result (refused_index (described_of d.now) (seen view_of index) ≡ None) }
    ensures first { IfErr result (λ e. (refused_index (described_of d.now) (seen view_of index) ≡ Some e) ⊎ (e ≡ OpenError.OutOfMemory)) }
{
    match index {
        Ok(index) => Ok(index),
        Err(why) => started_index(alloc, d, why),
    }
}

/// The index that a session begins with, where nothing of what was found refuses it: a blank one where no more of it is there than the header
/// of an array.
pub fn unrefused(
    alloc: Global,
    found: &Opening,
    index: Result<Index, NoIndex>,
) -> Result<Index, OpenError>
    requires named { IfNamedIndex (opened_of found.now).header.dataset (seen view_of index) }
    requires few { HasFewChunks (opened_of found.now).header.dataset }
    ensures kept { IfOk result (λ v. IsKeptIndexOf (opened_of found.now).header.dataset (seen view_of index) (view_of v)) }
    ensures none { OnOk result (refused_open (opened_of found.now) (seen view_of index) ≡ None) }
    ensures first { IfErr result (λ e. (refused_open (opened_of found.now) (seen view_of index) ≡ Some e) ⊎ (e ≡ OpenError.OutOfMemory)) }
{
    check_ranges(alloc, found, &index)?;
    check(found)?;
    kept_index(alloc, &found.header.dataset, index)
}
