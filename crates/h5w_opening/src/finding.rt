//! A file that is opened for appending, up to the index of its chunks.
ghost use Rattle.std.specs.Prelude.{◌≡◌, MatchOption, IfErr, IfOk, Ok, Err, false};
ghost use Rattle.h5w_model.specs.Programs.{eval};
ghost use Rattle.h5w_headers.specs.Ran.{Ran, Told, seen};
ghost use Rattle.h5w_dataset.specs.Founds.{founds};
ghost use Rattle.h5w_headers.specs.Headers.{ranges_of};
ghost use Rattle.h5w_opening.specs.Errors.{IsOpenKind, open_errors};
ghost use Rattle.h5w_opening.specs.Openings.{IsFound, IsSaid, chunk_0_len, closed_super, dataset_found, in_chunk_0, is_open, known, looked_for, place_found, refused_dataset, super_found};
ghost use Rattle.h5w_opening.specs.Views.{header_fields_of, opened_of};

use crate::error::OpenError;
use h5w_bytes::UNDEFINED;
use h5w_dataset::{Dataset, FoundMessage, describe, first};
use h5w_headers::{dataset_header, place_of, root_header, superblock};
use h5w_image::PieceRead;
use h5w_model::{ReadError, Super};
use h5w_ohdr::kind::LAYOUT;
use h5w_space::Extent;
use std::alloc::Global;

/// The most bytes of a chunk that is written.
const CHUNK_BYTES: u64 = 16_777_216;

/// The version of a superblock that is read and not written.
pub(crate) const READ_ONLY: u8 = 2;

/// What the header of a dataset says.
#[derive(Clone, Copy)]
pub struct DatasetHeader {
    /// How many bytes its chunk 0 has, at most 512: it is written in one piece.
    pub len: u64,
    pub dataset: Dataset,
    /// Whether the layout message stands in chunk 0.
    pub in_chunk_0: bool,
}

/// What a file has that is opened for appending, up to the index of its chunks.
#[derive(Clone, Copy)]
pub struct Opening {
    pub root: Super,
    /// The place of the dataset header.
    pub place: u64,
    pub header: DatasetHeader,
}

/// Whether the file is open for writing, or for SWMR writing.
fn is_open(flags: u8) -> bool
    ensures { result ≡ is_open flags }
{
    flags % 2 != 0 || flags / 4 % 2 != 0
}

/// The superblock, where it is of a version that is written, nobody writes the file and it has all its bytes.
fn closed(s: Super, size: u64) -> Result<Super, OpenError>
    ensures told { Told open_errors (closed_super size s) result }
    ensures kinds { IfErr result IsOpenKind }
    ensures closed { IfOk result (λ t. is_open t.flags ≡ false) }
{
    if s.version == READ_ONLY {
        return Err(OpenError::Version { version: READ_ONLY });
    }
    if is_open(s.flags) {
        return Err(OpenError::Flags { flags: s.flags });
    }
    if size < s.end {
        return Err(OpenError::Cut { end: s.end, size });
    }
    Ok(s)
}

/// The superblock of a file of `size` bytes.
pub fn start<I: PieceRead>(alloc: Global, image: &mut I, size: u64) -> Result<Super, OpenError>
    ensures ran { Ran open_errors (I.view image.old) (I.view image.new) (super_found size) result }
    ensures kinds { IfErr result IsOpenKind }
    ensures closed { IfOk result (λ t. is_open t.flags ≡ false) }
{
    let s = superblock(alloc, image)?;
    closed(s, size)
}

/// The place of the dataset header, by the link of this name in the root header at `root`.
fn header_place<I: PieceRead>(
    alloc: Global,
    image: &mut I,
    root: u64,
    name: &[u8],
) -> Result<u64, OpenError>
    ensures ran { Ran open_errors (I.view image.old) (I.view image.new) (place_found name.now root) result }
    ensures kinds { IfErr result IsOpenKind }
{
    let header = root_header(alloc, image, true, root)?;
    let place = place_of(alloc, header.messages, name)?;
    Ok(place)
}

/// Whether the first layout message stands in chunk 0.
#[tactic(auto, using(h5w_dataset::proofs::DescribedLemmas::first_found))]
fn in_chunk_0(found: &[FoundMessage]) -> bool
    ensures { result ≡ in_chunk_0 (founds found.now) }
{
    match first(found, LAYOUT) {
        Some(m) => m.in_chunk_0,
        None => false,
    }
}

/// How many bytes chunk 0 has of a header with these ranges: it was looked at first.
fn chunk_0_len(extents: &[Extent]) -> u64
    ensures { result ≡ chunk_0_len (ranges_of extents.now) }
{
    match extents.first() {
        Some(chunk) => chunk.size,
        None => 0,
    }
}

/// What these messages say of a dataset whose header has `len` bytes in chunk 0.
fn known(found: &[FoundMessage], len: u64) -> Result<DatasetHeader, OpenError>
    ensures told { Told open_errors (known len (founds found.now)) (seen header_fields_of result) }
    ensures kinds { IfErr result IsOpenKind }
    ensures len { IfOk result (λ h. h.len ≡ len) }
{
    let d = match describe(found) {
        Ok(d) => d,
        Err(error) => return Err(OpenError::Read(ReadError::Unsupported(error))),
    };
    let (needed, limit) = (d.needed(), d.limit());
    if needed > u128::from(limit) {
        return Err(OpenError::Read(ReadError::TooManyChunks { needed, limit }));
    }
    Ok(DatasetHeader {
        len,
        dataset: d,
        in_chunk_0: in_chunk_0(found),
    })
}

/// The dataset whose header stands at `place`.
pub fn dataset_at<I: PieceRead>(
    alloc: Global,
    image: &mut I,
    place: u64,
) -> Result<DatasetHeader, OpenError>
    // Where the image tells its bytes and nobody else writes it: Ok exactly where they have this header, and else the first refusal,
    // unless the image failed, which its count of faults shows, or memory ran out.
    ensures ran { Ran open_errors (I.view image.old) (I.view image.new) (dataset_found place) (seen header_fields_of result) }
    ensures kinds { IfErr result IsOpenKind }
    // On every image some messages say what was found.
    ensures said { IfOk result (λ h. IsSaid (header_fields_of h)) }
{
    let header = dataset_header(alloc, image, true, place)?;
    let len = chunk_0_len(&header.extents);
    known(&header.messages, len)
}

/// Finds the dataset of this name in a file of `size` bytes that is to be written.
pub fn find<I: PieceRead>(
    alloc: Global,
    image: &mut I,
    size: u64,
    name: &[u8],
) -> Result<Opening, OpenError>
    // Where the image tells its bytes and nobody else writes it: Ok exactly where they have this, and else the first refusal, unless the
    // image failed, which its count of faults shows, or memory ran out.
    ensures ran { Ran open_errors (I.view image.old) (I.view image.new) (λ img. eval img (looked_for size name.now)) (seen opened_of result) }
    // On every image a Read is none of NotSwmr, Again, Shrunk and OutOfMemory.
    ensures kinds { IfErr result IsOpenKind }
    // On every image some messages say what was found.
    ensures found { IfOk result (λ o. IsFound (opened_of o)) }
{
    let root = start(alloc, image, size)?;
    let place = header_place(alloc, image, root.root, name)?;
    let header = dataset_at(alloc, image, place)?;
    Ok(Opening {
        root,
        place,
        header,
    })
}

/// Why no rows are appended to what was found. Tried once the index was read.
pub fn check(found: &Opening) -> Result<(), OpenError>
    ensures { MatchOption (refused_dataset (opened_of found.now)) (result ≡ Ok tt) (λ e. result ≡ Err e) }
{
    let dataset = &found.header.dataset;
    if dataset.layout.address == UNDEFINED && !found.header.in_chunk_0 {
        return Err(OpenError::Layout);
    }
    let bytes = dataset.chunk_bytes();
    if bytes > CHUNK_BYTES {
        return Err(OpenError::ChunkBytes {
            bytes,
            limit: CHUNK_BYTES,
        });
    }
    if dataset.shape.cols == 0 {
        return Err(OpenError::NoColumns);
    }
    Ok(())
}
