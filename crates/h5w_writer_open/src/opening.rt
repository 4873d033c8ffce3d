//! A session over a file that is there.
ghost use Rattle.std.specs.Prelude.{◌≡◌, ◌≢◌, ◌⊎◌, ℕ, ◌+◌, ◌*◌, ◌^◌, ◌<◌, ◌≤◌, false, List, ◌∷◌, [], Err, IfErr, IfOk, IfSome, IsFalse, IsTrue, OnErr, OnOk, Ok, Some, find, ◌==◌, length, nat_le, vec_capacity, ℤ};
ghost use Rattle.h5w_model.specs.Causes.{Rose};
ghost use Rattle.h5w_model.specs.Findings.{Summary, Valid};
ghost use Rattle.h5w_model.specs.Tables.{Reads};
ghost use Rattle.h5w_model.specs.Superblock.{super_at, super_bytes};
ghost use Rattle.std.specs.Option.{option_copied};
ghost use Rattle.h5w_model.specs.Integers.{cell_bytes};
ghost use Rattle.h5w_model.specs.Datasets.{dataspace_kind, layout_kind};
ghost use Rattle.h5w_model.specs.Headers.{index_address_place, messages_at};
ghost use Rattle.h5w_model.specs.Numbers.{undefined};
ghost use Rattle.h5w_model.specs.declared.cell.IndexKind.TheVariants.{Array, Tree};
ghost use Rattle.h5w_layout.specs.Layouts.{fill_of};
ghost use Rattle.h5w_image.specs.View.{Looked};
ghost use Rattle.h5w_looks.specs.Still.{IsStill};
ghost use Rattle.h5w_chunks.specs.Grids.{IsGrid, dataset_of};
ghost use Rattle.h5w_dataset.specs.Described.{described_of};
ghost use Rattle.h5w_headers.specs.Ran.{seen};
ghost use Rattle.h5w_index.specs.Held.{view_of};
ghost use Rattle.h5w_opening.specs.Errors.{IsOpenKind};
ghost use Rattle.h5w_opening.specs.Openings.{IsFound, IsSaid, is_open};
ghost use Rattle.h5w_opening.specs.Views.{header_fields_of, opened_of};
ghost use Rattle.h5w_writer_open.specs.OpenAnswers.{HasBegun, IsIndexOf, IsNotOpened, IsOpenAnswer, opened_session, writing_flags};
ghost use Rattle.h5w_writer_open.specs.OpenRanges.{HasFewChunks, refused_open};
ghost use Rattle.h5w_writer_open.specs.OpenSteps.{HasItsBlock, HasLayout, IsKeptHeader, IfNamedIndex, IsBadIndex, IsCut, IsFoundIn, IsOpenedFile, HasRows, IsReady, LacksItsBlock, OpenStep, array_error, front_of, no_block_error, tree_error, versioned};
ghost use Rattle.h5w_writer_open.specs.OpenLaws.{OpenLaws};
ghost use Rattle.h5w_writer.specs.Openings.{opened_log};
ghost use Rattle.h5w_writer.specs.Sessions.{IsWritable};
ghost use Rattle.h5w_writer.specs.Stands.{Stands};

use crate::index::NoIndex;
use crate::ranges::{first_key, first_open_line, is_starting, unrefused};
use h5w_bt_open::{Kept, OpenTreeError, open_kept};
use h5w_bytes::byte;
use h5w_chunks::{Fill, Grid};
use h5w_dataset::Dataset;
use h5w_ea_index::{ArrayIndex, OpenArrayError};
use h5w_image::PieceRead;
use h5w_index::Index;
use h5w_looks::read;
use h5w_model::{
    BlockFault, Cell, HeaderError, IndexKind, OutOfMemory, PIECE, Piece, ReadError, Super,
    Unsupported,
};
use h5w_ohdr::kind::{DATASPACE, LAYOUT};
use h5w_ohdr::{Msg, Msgs, messages};
use h5w_opening::{OpenError, Opening, find};
use h5w_writer::{FileParts, WriterCore};
use std::alloc::Global;

/// The fewest bytes of a dataspace message with rows.
const SHORTEST: usize = 12;

/// Why an array is not opened, as why a file is not.
fn array_error(e: OpenArrayError) -> OpenError
    ensures { result ≡ array_error e }
{
    match e {
        OpenArrayError::Damaged { at, fault } => OpenError::Read(ReadError::Damaged { at, fault }),
        OpenArrayError::Failed => OpenError::Failed,
        OpenArrayError::OutOfMemory => OpenError::OutOfMemory,
    }
}

/// Why a tree is not opened, as why a file is not.
fn tree_error(e: OpenTreeError) -> OpenError
    ensures { result ≡ tree_error e }
{
    match e {
        OpenTreeError::Damaged { at, fault } => OpenError::Read(ReadError::Damaged { at, fault }),
        OpenTreeError::Failed => OpenError::Failed,
        OpenTreeError::OutOfMemory => OpenError::OutOfMemory,
    }
}

/// The array that the dataset names.
fn open_array<I: PieceRead>(
    alloc: Global,
    image: &mut I,
    d: &Dataset,
) -> Result<Result<Index, NoIndex>, OpenError>
    requires array { (described_of d.now).layout.index ≡ Array }
    requires named { (described_of d.now).layout.address ≢ undefined }
    requires few { HasFewChunks (described_of d.now) }
    ensures step { OpenStep (I.view image.old) (I.view image.new) (λ img a. IsIndexOf img (described_of d.now) (seen view_of a)) (λ img e. IsBadIndex img (described_of d.now) e) result }
    ensures named { IfOk result (λ a. IfNamedIndex (described_of d.now) (seen view_of a)) }
{
    match ArrayIndex::open(alloc, image, d.layout.address, first_open_line(d)) {
        Ok(Some(array)) => Ok(Ok(Index::Array(array))),
        Ok(None) => Ok(Err(NoIndex::Empty)),
        Err(e) => Err(array_error(e)),
    }
}

/// The tree that the dataset names, where it is a map of its keys.
fn open_tree<I: PieceRead>(
    alloc: Global,
    image: &mut I,
    d: &Dataset,
) -> Result<Result<Index, NoIndex>, OpenError>
    requires tree { (described_of d.now).layout.index ≡ Tree }
    requires named { (described_of d.now).layout.address ≢ undefined }
    requires few { HasFewChunks (described_of d.now) }
    ensures step { OpenStep (I.view image.old) (I.view image.new) (λ img a. IsIndexOf img (described_of d.now) (seen view_of a)) (λ img e. IsBadIndex img (described_of d.now) e) result }
    ensures named { IfOk result (λ a. IfNamedIndex (described_of d.now) (seen view_of a)) }
{
    match open_kept(alloc, image, d.layout.address, first_key(d)) {
        Ok(Kept::Tree(tree)) => Ok(Ok(Index::Tree(tree))),
        Ok(Kept::WrongTotals) => Ok(Err(NoIndex::WrongTotals)),
        Ok(Kept::Unordered) => Ok(Err(NoIndex::Unordered)),
        Err(e) => Err(tree_error(e)),
    }
}

/// The index of the dataset.
pub fn index_of<I: PieceRead>(
    alloc: Global,
    image: &mut I,
    d: &Dataset,
) -> Result<Result<Index, NoIndex>, OpenError>
    requires few { HasFewChunks (described_of d.now) }
    ensures step { OpenStep (I.view image.old) (I.view image.new) (λ img a. IsIndexOf img (described_of d.now) (seen view_of a)) (λ img e. IsBadIndex img (described_of d.now) e) result }
    ensures named { IfOk result (λ a. IfNamedIndex (described_of d.now) (seen view_of a)) }
{
    if is_starting(d) {
        return Ok(Err(NoIndex::Unnamed));
    }
    match d.layout.index {
        IndexKind::Array => open_array(alloc, image, d),
        IndexKind::Tree => open_tree(alloc, image, d),
    }
}

/// What stands in front of the superblock, where an index block would have its signature.
const FRONT: [u8; 4] = [0x89, b'H', b'D', b'F'];

/// Refuses an array whose index block was looked at where the superblock stands. No image has both there: somebody else wrote the file between
/// the looks.
pub fn check_block(index: &Result<Index, NoIndex>) -> Result<(), OpenError>
    ensures made { OnOk result (HasItsBlock (seen view_of index.now)) }
    ensures refused { IfErr result (λ e. e ≡ no_block_error) }
    ensures lacks { OnErr result (LacksItsBlock (seen view_of index.now)) }
{
    match index {
        Ok(index) if index.has_no_block() => Err(OpenError::Read(ReadError::Damaged {
            at: 0,
            fault: BlockFault::Signature { found: FRONT },
        })),
        _ => Ok(()),
    }
}

/// What the file has that is opened, and its index.
fn found_in<I: PieceRead>(
    alloc: Global,
    image: &mut I,
    size: u64,
    name: &[u8],
) -> Result<(Opening, Result<Index, NoIndex>), OpenError>
    ensures step { OpenStep (I.view image.old) (I.view image.new) (λ img x. IsFoundIn img size name.now (opened_of x.0) (seen view_of x.1)) (λ img e. IsNotOpened img size name.now e) result }
    ensures found { IfOk result (λ x. IsFound (opened_of x.0)) }
    ensures named { IfOk result (λ x. IfNamedIndex (opened_of x.0).header.dataset (seen view_of x.1)) }
    ensures made { IfOk result (λ x. HasItsBlock (seen view_of x.1)) }
{
    let found = find(alloc, image, size, name)?;
    let index = index_of(alloc, image, &found.header.dataset)?;
    check_block(&index)?;
    Ok((found, index))
}

/// There is no dataspace message in chunk 0.
fn no_dataspace() -> OpenError
    ensures { result ≡ OpenError.Read (ReadError.Unsupported (record { 0 = 4 })) }
{
    OpenError::Read(ReadError::Unsupported(Unsupported(4)))
}

/// The messages of chunk 0 of a dataset header.
fn header_list(alloc: Global, bytes: &[u8]) -> Result<Msgs, OpenError>
    ensures read { IfOk result (λ ms. messages_at bytes.now ≡ Ok ms) }
    ensures refused { IfErr result (λ e. (e ≡ OpenError.OutOfMemory) ⊎ ((ms : List Msg) → messages_at bytes.now ≡ Ok ms → ⊥)) }
    ensures quiet { IfErr result (λ e. e ≢ OpenError.Failed) }
    ensures which { IfErr result (λ e. (e ≡ OpenError.OutOfMemory) ⊎ (e ≡ OpenError.Read (ReadError.Unsupported (record { 0 = 4 })))) }
{
    match messages(alloc, bytes) {
        Ok(list) => Ok(list),
        Err(HeaderError::OutOfMemory) => Err(OpenError::OutOfMemory),
        Err(_) => Err(no_dataspace()),
    }
}

/// The first dataspace message.
fn dataspace(list: &[Msg]) -> Option<&Msg>
    ensures { option_copied result ≡ find (λ m. m.kind == dataspace_kind) list.now }
{
    list.iter().find(|m| m.kind == DATASPACE)
}

/// Whether the first dataspace message has rows.
fn has_rows(list: &[Msg]) -> bool
    ensures yes { IsTrue result → HasRows list.now }
    ensures no { IsFalse result → HasRows list.now → ⊥ }
{
    match dataspace(list) {
        Some(m) => m.body.as_slice().len() >= SHORTEST,
        None => false,
    }
}

/// The first layout message.
fn layout(list: &[Msg]) -> Option<&Msg>
    ensures { option_copied result ≡ find (λ m. m.kind == layout_kind) list.now }
{
    list.iter().find(|m| m.kind == LAYOUT)
}

/// Whether a layout's data have room for an index address.
fn has_room(body: &[u8]) -> bool
    ensures { result ≡ nat_le (index_address_place body.now + 8) (length body.now) }
{
    if body.len() < 6 {
        return false;
    }
    let index_type = 5 + usize::from(byte(body, 3)) * usize::from(byte(body, 4));
    if body.len() <= index_type {
        return false;
    }
    let place = index_type + if byte(body, index_type) == 4 { 6 } else { 7 };
    body.len() >= place + 8
}

/// Whether an index address can be written in the first layout message.
fn has_layout(list: &[Msg]) -> bool
    ensures yes { IsTrue result → HasLayout list.now }
    ensures no { IsFalse result → HasLayout list.now → ⊥ }
{
    match layout(list) {
        Some(m) => has_room(m.body.as_slice()),
        None => false,
    }
}

/// Refuses chunk 0 of a dataset header in which the rows cannot be written, and where one will be also an index address.
fn check_header(alloc: Global, bytes: &[u8], starts: bool) -> Result<(), OpenError>
    ensures writable { OnOk result (IsKeptHeader starts bytes.now) }
    ensures refused { IfErr result (λ e. (e ≡ OpenError.OutOfMemory) ⊎ (IsKeptHeader starts bytes.now → ⊥)) }
    ensures quiet { IfErr result (λ e. e ≢ OpenError.Failed) }
    ensures kinds { IfErr result IsOpenKind }
{
    if bytes.is_empty() {
        return Err(no_dataspace());
    }
    let list = header_list(alloc, bytes)?;
    if !has_rows(list.as_slice()) {
        return Err(no_dataspace());
    }
    if !starts {
        return Ok(());
    }
    if !has_layout(list.as_slice()) {
        return Err(OpenError::Layout);
    }
    Ok(())
}

/// The bytes of chunk 0 of the dataset header at `place`, `len` of them, at most a piece. They are looked at again: where somebody else
/// writes the file they may be others than those that were found, and then a header without a dataspace is refused, and so is one without
/// room for an index address where one will be written.
pub fn header_piece<I: PieceRead>(
    alloc: Global,
    image: &mut I,
    place: u64,
    len: u64,
    starts: bool,
) -> Result<Piece, OpenError>
    ensures step { OpenStep (I.view image.old) (I.view image.new) (λ img p. p ≡ front_of img place len) (λ img e. IsKeptHeader starts (front_of img place len) → ⊥) result }
    ensures writable { IfOk result (λ p. IsKeptHeader starts p) }
    ensures few { IfOk result (λ p. length p ≤ len) }
{
    let bytes = read(alloc, image, place, len.min(PIECE as u64))?;
    check_header(alloc, &bytes, starts)?;
    Ok(Piece::of(&bytes))
}

/// The same fill, as one of a type of this size.
fn sized_fill(fill: &Fill, size: u8) -> Fill
    requires { IfSome (fill_of fill.now).value (λ b. length b ≡ size) }
    ensures same { fill_of result ≡ fill_of fill.now }
    ensures sized { IfSome result.value (λ c. (c.size ≡ size) × (length (cell_bytes c) ≡ size)) }
{
    match fill.value {
        Some(c) => {
            let bytes = c.bytes;
            Fill {
                value: Some(Cell { bytes, size }),
            }
        }
        None => Fill { value: None },
    }
}

/// A dataset's grid of chunks.
fn grid_of(d: &Dataset) -> Grid
    requires { IsCut (described_of d.now) }
    ensures grid { IsGrid result }
    ensures same { dataset_of result ≡ described_of d.now }
{
    Grid {
        shape: d.shape,
        int_type: d.int_type,
        fill: sized_fill(&d.fill, d.int_type.size),
        layout: d.layout,
    }
}

/// Flags with those of a file that is open for writing, and for SWMR writing.
fn writing_flags(flags: u8) -> u8
    ensures { result ≡ writing_flags flags }
{
    flags + (1 - flags % 2) + (1 - flags / 4 % 2) * 4
}

/// The superblock of the file once it is written.
fn writing_super(s: Super) -> Super
    ensures root { result ≡ record s { version = 3; flags = writing_flags s.flags } }
    ensures small { result.end < 2 ^ 64 }
{
    Super {
        version: 3,
        flags: writing_flags(s.flags),
        end: s.end,
        root: s.root,
    }
}

/// A session over what was found, with chunk 0 of the dataset header and the index.
pub fn session_over(
    alloc: Global,
    found: &Opening,
    header: Piece,
    index: Index,
    name: &[u8],
    limit: u64,
    budget: u64,
) -> Result<WriterCore, OutOfMemory>
    requires name { length name.now ≤ 512 }
    requires high { limit ≤ 2 ^ 40 }
    requires budget { (1024 ≤ budget) × (budget ≤ 2 ^ 30) }
    requires ready { IsReady (opened_of found.now) header (view_of index) }
    ensures session { IfOk result (λ s. s ≡ opened_session (versioned (opened_of found.now)) header (view_of index) name.now limit budget) }
    ensures long { 48 ≤ (opened_of found.now).root.end }
    ensures reads { IfOk result (λ s. super_at (super_bytes s.root) ≡ Ok s.root) }
{
    let file = FileParts {
        root: writing_super(found.root),
        place: found.place,
        header,
        grid: grid_of(&found.header.dataset),
        index,
    };
    WriterCore::over(alloc, name, file, limit, budget)
}

/// The file that is opened: what was found, chunk 0 of the dataset header, and the index, where nothing refuses it.
fn unrefused_file<I: PieceRead>(
    alloc: Global,
    image: &mut I,
    size: u64,
    name: &[u8],
) -> Result<(Opening, Piece, Index), OpenError>
    ensures step { OpenStep (I.view image.old) (I.view image.new) (λ img x. IsOpenedFile img size name.now (opened_of x.0) x.1 (view_of x.2)) (λ img e. IsNotOpened img size name.now e) result }
    ensures ready { IfOk result (λ x. IsReady (opened_of x.0) x.1 (view_of x.2)) }
{
    let (found, index) = found_in(alloc, image, size, name)?;
    let index = unrefused(alloc, &found, index)?;
    let starts = is_starting(&found.header.dataset);
    let header = header_piece(alloc, image, found.place, found.header.len, starts)?;
    Ok((found, header, index))
}

/// Opens the dataset of this name in a file of `size` bytes that is there, to append rows to it up to `limit` bytes of the file, of which at
/// most `budget` bytes wait unwritten. The image is only looked at. Where the layout names no index yet, the first flush makes one, and where it
/// names an array that has no index block yet, the first flush makes that. One piece is pending, the superblock by which
/// the file says that it is written; all its flags but these two stay. What the file has stays where it is, and new places begin at its
/// end-of-file address.
///
/// Tried in this order: the superblock, its version, flags and end-of-file address, the root header, the link, the dataset header, and what its
/// messages say; the index's blocks, from the last committed band on; the first of the dataset header's chunk 0 and the index's blocks
/// in place, and then of the chunks of that band and later, that ends at 2^64 or later; the first range that ends behind the end-of-file
/// address, of chunk 0, the superblock where the index is a tree or the layout names none, the index's blocks on the way to those chunks in
/// the order of the looks, each of so many bytes as were looked at (of an index of which nothing more is there, or that is refused, its header
/// alone), and those chunks; and
/// then what [`OpenError`] says from Layout on.
///
/// At last a tree is refused of which a node does not say how many records are under it, or whose keys do not rise: a check of the file
/// refuses it as well.
///
/// Failed: the image's count of faults rose.
pub fn open<I: PieceRead>(
    alloc: Global,
    image: &mut I,
    size: u64,
    name: &[u8],
    limit: u64,
    budget: u64,
) -> Result<WriterCore, OpenError>
    requires name { length name.now ≤ 512 }
    requires low { 1024 ≤ limit }
    requires high { limit ≤ 2 ^ 40 }
    requires budget { (1024 ≤ budget) × (budget ≤ 2 ^ 30) }
    ensures looked { Looked (I.view image.old) (I.view image.new) }
    ensures cause { result ≡ Err OpenError.Failed → Rose (I.view image.old).faults (I.view image.new).faults }
    // on every image a Read is none of NotSwmr, Again, Shrunk and OutOfMemory
    ensures kinds { IfErr result IsOpenKind }
    // where the image tells its bytes and nobody else writes it
    ensures exact { (img : List ℕ) → IsStill (I.view image.old) img → IsOpenAnswer img size name.now limit budget result }
    ensures begun { IfOk result (λ s. HasBegun name.now limit budget s) }
    // where the file is valid, the session stands for the log over it to which nothing happened yet
    ensures stands { IfOk result (λ s. (img : List ℕ) (rows columns : ℕ) (values : List ℤ) (sm : Summary) → IsStill (I.view image.old) img → Valid img name.now sm → Reads img name.now rows columns values
        → Stands s (opened_log img columns values)) }
{
    let (found, header, index) = unrefused_file(alloc, image, size, name)?;
    let session = session_over(alloc, &found, header, index, name, limit, budget)?;
    Ok(session)
}

/// A valid file is refused only where its superblock is of version 2, it is open already, asks its writer to know a message that is not known
/// here, or has its layout outside of chunk 0, too large chunks or no column. A close gives back the flags that the file had.
#[tactic(auto, using(crate::proofs::LeftLemmas::open_laws))]
pub fn open_laws()
    ensures { OpenLaws }
{}
