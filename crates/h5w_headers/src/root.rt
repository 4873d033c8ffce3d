//! The root group's header, and the place that its link gives.
ghost use Rattle.std.specs.Prelude.{◌≡◌, ◌⊎◌, ◌+◌, ◌++◌, ◌≤◌, ◌^◌, length, map, Ok, Err, IfErr, IfOk};
ghost use Rattle.h5w_model.specs.Programs.{eval};
ghost use Rattle.h5w_model.specs.Datasets.{linked};
ghost use Rattle.h5w_headers.specs.Ran.{Ran, Told, answering, seen};
ghost use Rattle.h5w_headers.specs.Errors.{IsFindKind, find_errors};
ghost use Rattle.h5w_headers.specs.Walks.{root_header_for};
ghost use Rattle.h5w_dataset.specs.Founds.{founds, listed};
ghost use Rattle.h5w_headers.specs.Headers.{header_of, whole_chunk_0};

use crate::error::FindError;
use crate::read::read;
use crate::refusal::refused_header;
use crate::walk::{Header, from_chunk_0};
use h5w_dataset::{FoundMessage, listed};
use h5w_image::{PIECE, PieceRead};
use h5w_links::{find, links};
use h5w_model::{LinkError, ReadError};
use h5w_ohdr::prefix;
use std::alloc::Global;

/// Puts bytes behind others.
fn put_behind(bytes: &mut Vec<u8>, more: &[u8]) -> Result<(), FindError>
    ensures told { Told find_errors (Ok (bytes.old.items ++ more.now)) (answering bytes.new.items result) }
    ensures kinds { IfErr result IsFindKind }
{
    match bytes.extend_from_slice(more) {
        Ok(()) => Ok(()),
        Err(_) => Err(FindError::OutOfMemory),
    }
}

/// Chunk 0 of `total` bytes of the header at `place`, given what a look of 512 bytes found.
fn whole_chunk_0<I: PieceRead>(
    alloc: Global,
    image: &mut I,
    place: u64,
    total: u64,
    mut bytes: Vec<u8>,
) -> Result<Vec<u8>, FindError>
    requires inside { place + length bytes.items ≤ 2 ^ 64 }
    requires few { length bytes.items ≤ 512 }
    ensures ran { Ran find_errors (I.view image.old) (I.view image.new) (λ img. Ok (whole_chunk_0 img place total bytes.items)) (seen (λ b. b.items) result) }
    ensures kinds { IfErr result IsFindKind }
    ensures inside { IfOk result (λ b. place + length b.items ≤ 2 ^ 64) }
{
    if total <= PIECE as u64 {
        bytes.truncate(total as usize);
        return Ok(bytes);
    }
    let Some(next) = place.checked_add(PIECE as u64) else {
        return Ok(bytes);
    };
    let rest = read(alloc, image, next, total - PIECE as u64)?;
    put_behind(&mut bytes, &rest)?;
    Ok(bytes)
}

/// The root header at `place`, with its continuation blocks; to be written too, where `writing` says so.
pub fn root_header<I: PieceRead>(
    alloc: Global,
    image: &mut I,
    writing: bool,
    place: u64,
) -> Result<Header, FindError>
    // Where the image tells its bytes and nobody else writes it: Ok exactly where they have this header, and else the first refusal,
    // unless the image failed, which its count of faults shows, or memory ran out.
    ensures ran { Ran find_errors (I.view image.old) (I.view image.new) (λ img. eval img (root_header_for writing place)) (seen header_of result) }
    ensures kinds { IfErr result IsFindKind }
{
    let bytes = read(alloc, image, place, PIECE as u64)?;
    let p = match prefix(&bytes) {
        Ok(p) => p,
        Err(error) => return Err(refused_header(place, 0, error)),
    };
    let bytes = whole_chunk_0(alloc, image, place, p.total, bytes)?;
    from_chunk_0(alloc, image, writing, place, &p, &bytes)
}

/// The place that the link of this name gives, in the root header with these messages.
pub fn place_of(alloc: Global, found: Vec<FoundMessage>, name: &[u8]) -> Result<u64, FindError>
    ensures told { Told find_errors (linked name.now (founds found.items)) result }
    ensures kinds { IfErr result IsFindKind }
{
    let msgs = listed(alloc, found)?;
    let links = match links(alloc, &msgs) {
        Ok(links) => links,
        Err(LinkError::OutOfMemory) => return Err(FindError::OutOfMemory),
        Err(error) => return Err(FindError::Refused(ReadError::Link(error))),
    };
    match find(&links, name) {
        Ok(place) => Ok(place),
        Err(error) => Err(FindError::Refused(ReadError::Link(error))),
    }
}
