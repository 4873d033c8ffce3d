//! The messages of a header and of its continuation blocks, visited in order.
ghost use Rattle.std.specs.Prelude.{◌≡◌, ◌⊎◌, ◌+◌, ◌≤◌, ◌^◌, ◌++◌, ◌∷◌, [], ℕ, List, length, true, Ok, Err, IfErr, IfOk, OnOk};
ghost use Rattle.h5w_model.specs.Programs.{eval};
ghost use Rattle.h5w_model.specs.Datasets.{found_at, header_refusal, refused_as};
ghost use Rattle.h5w_model.specs.Headers.{block_at, messages_at};
ghost use Rattle.h5w_model.specs.declared.refusal.HeaderError.TheVariants.{OutOfMemory as no_memory};
ghost use Rattle.h5w_headers.specs.Ran.{Ran, Told, answering, seen};
ghost use Rattle.h5w_headers.specs.Errors.{IsFindKind, find_errors};
ghost use Rattle.h5w_headers.specs.Walks.{from_chunk_0_for, known_by, walk_for};
ghost use Rattle.h5w_dataset.specs.Founds.{founds, found_of, stack};
ghost use Rattle.h5w_headers.specs.Headers.{Passed, block_before, entered, header_of, ranges_of};

use crate::error::FindError;
use crate::read::read;
use crate::refusal::{damaged, refused_header};
use h5w_bytes::number;
use h5w_dataset::{FoundMessage, put_before};
use h5w_image::PieceRead;
use h5w_model::{BlockFault, HeaderError, OutOfMemory, Prefix, ReadError};
use h5w_ohdr::kind::CONTINUATION;
use h5w_ohdr::{BLOCKS, LEAST, Msgs, block, messages};
use h5w_space::Extent;
use std::alloc::Global;

/// The messages of a header, each continuation's in place of its message, and its ranges in the order of visit.
#[derive(Drop)]
pub struct Header {
    pub messages: Vec<FoundMessage>,
    pub extents: Vec<Extent>,
}

/// Goes on up to the next continuation message, which it answers, or to the end.
fn pass(
    done: &mut Vec<FoundMessage>,
    next: &mut Vec<FoundMessage>,
) -> Result<Option<FoundMessage>, OutOfMemory>
    ensures passed { IfOk result (λ m. Passed m (founds done.old.items) (stack next.old.items) (founds done.new.items) (stack next.new.items)) }
    ensures kind { IfOk result (λ m. (c : FoundMessage) → m ≡ Some c → c.kind ≡ 16) }
{
    while let Some(m) = next.pop() {
        if m.kind == CONTINUATION {
            return Ok(Some(m));
        }
        done.push(m)?;
    }
    Ok(None)
}

/// The messages, unless one asks to be known by who writes the file.
fn known_for_writing(msgs: Msgs) -> Result<Msgs, HeaderError>
    ensures { result ≡ known_by true (Ok msgs) }
{
    match msgs.for_writing() {
        Ok(()) => Ok(msgs),
        Err(error) => Err(error),
    }
}

/// The messages, unless the file is to be written and one asks to be known then.
fn known_by(writing: bool, msgs: Msgs) -> Result<Msgs, HeaderError>
    ensures { result ≡ known_by writing (Ok msgs) }
{
    if writing {
        known_for_writing(msgs)
    } else {
        Ok(msgs)
    }
}

/// The messages of the header that these bytes begin with.
fn chunk_0_list(alloc: Global, writing: bool, bytes: &[u8]) -> Result<Msgs, HeaderError>
    ensures { (result ≡ known_by writing (messages_at bytes.now)) ⊎ (result ≡ Err no_memory) }
{
    let msgs = messages(alloc, bytes)?;
    known_by(writing, msgs)
}

/// The messages of the continuation block that these bytes are.
fn block_list(
    alloc: Global,
    writing: bool,
    tracked: bool,
    bytes: &[u8],
) -> Result<Msgs, HeaderError>
    ensures { (result ≡ known_by writing (block_at tracked bytes.now)) ⊎ (result ≡ Err no_memory) }
{
    let msgs = block(alloc, bytes, tracked)?;
    known_by(writing, msgs)
}

/// Puts the messages of the continuation block of `len` bytes at `place`, of which these were found, before those that come next.
fn put_block(
    alloc: Global,
    writing: bool,
    tracked: bool,
    place: u64,
    len: u64,
    bytes: &[u8],
    next: &mut Vec<FoundMessage>,
) -> Result<(), FindError>
    requires { place + length bytes.now ≤ 2 ^ 64 }
    ensures told { Told find_errors (block_before writing tracked place len bytes.now (stack next.old.items)) (answering (stack next.new.items) result) }
    ensures kinds { IfErr result IsFindKind }
{
    let got = bytes.len();
    if (got as u64) < len {
        return Err(damaged(
            place,
            BlockFault::Cut {
                need: len,
                got: got as u64,
            },
        ));
    }
    match block_list(alloc, writing, tracked, bytes) {
        Ok(msgs) => {
            put_before(next, msgs, place, got, false)?;
            Ok(())
        }
        Err(error) => Err(refused_header(place, got, error)),
    }
}

/// Adds a range.
fn add_extent(extents: &mut Vec<Extent>, place: u64, len: u64) -> Result<(), FindError>
    ensures told { Told find_errors (Ok (ranges_of extents.old.items ++ record { place = place; len = len } ∷ [])) (answering (ranges_of extents.new.items) result) }
    ensures kinds { IfErr result IsFindKind }
{
    match extents.push(Extent {
        at: place,
        size: len,
    }) {
        Ok(()) => Ok(()),
        Err(_) => Err(FindError::OutOfMemory),
    }
}

/// Visits the continuation block that a message names.
fn enter<I: PieceRead>(
    alloc: Global,
    image: &mut I,
    writing: bool,
    tracked: bool,
    m: &FoundMessage,
    next: &mut Vec<FoundMessage>,
    extents: &mut Vec<Extent>,
) -> Result<(), FindError>
    requires { m.now.kind ≡ 16 }
    ensures ran { Ran find_errors (I.view image.old) (I.view image.new)
        (entered writing tracked (found_of m.now) (stack next.old.items) (ranges_of extents.old.items))
        (answering (stack next.new.items, ranges_of extents.new.items) result) }
    ensures kinds { IfErr result IsFindKind }
{
    let body = m.body.as_slice();
    let (place, len) = (number(body, 0, 8), number(body, 8, 8));
    if len < LEAST {
        return Err(damaged(
            place,
            BlockFault::Cut {
                need: LEAST,
                got: len,
            },
        ));
    }
    let bytes = read(alloc, image, place, len)?;
    put_block(alloc, writing, tracked, place, len, &bytes, next)?;
    add_extent(extents, place, len)?;
    Ok(())
}

/// More continuation blocks than are visited.
fn too_many(header: u64) -> FindError
    ensures { result ≡ FindError.Refused (ReadError.Header header HeaderError.Continuations) }
{
    FindError::Refused(ReadError::Header {
        at: header,
        error: HeaderError::Continuations,
    })
}

/// Visits these messages of the header at `header`, the last of all first, and the continuation blocks that they name.
fn walk<I: PieceRead>(
    alloc: Global,
    image: &mut I,
    writing: bool,
    header: u64,
    tracked: bool,
    mut next: Vec<FoundMessage>,
    mut extents: Vec<Extent>,
) -> Result<Header, FindError>
    ensures ran { Ran find_errors (I.view image.old) (I.view image.new)
        (λ img. eval img (walk_for writing 32 header tracked (ranges_of extents.items) [] (stack next.items)))
        (seen header_of result) }
    ensures kinds { IfErr result IsFindKind }
{
    let mut done = Vec::new(alloc);
    let mut more = BLOCKS;
    while let Some(m) = pass(&mut done, &mut next)? {
        if more == 0 {
            return Err(too_many(header));
        }
        enter(alloc, image, writing, tracked, &m, &mut next, &mut extents)?;
        more -= 1;
    }
    Ok(Header {
        messages: done,
        extents,
    })
}

/// The messages of the header at `place`, of which these bytes were found, the last of all first.
fn chunk_0_messages(
    alloc: Global,
    writing: bool,
    place: u64,
    bytes: &[u8],
) -> Result<Vec<FoundMessage>, FindError>
    requires { place + length bytes.now ≤ 2 ^ 64 }
    ensures told { Told find_errors (seen (found_at place true) (refused_as (header_refusal place) (known_by writing (messages_at bytes.now)))) (seen (λ v. stack v.items) result) }
    ensures kinds { IfErr result IsFindKind }
{
    let got = bytes.len();
    match chunk_0_list(alloc, writing, bytes) {
        Ok(msgs) => {
            let mut next = Vec::new(alloc);
            put_before(&mut next, msgs, place, got, true)?;
            Ok(next)
        }
        Err(error) => Err(refused_header(place, got, error)),
    }
}

/// The header at `place`, of which these bytes were found, with its continuation blocks.
pub fn from_chunk_0<I: PieceRead>(
    alloc: Global,
    image: &mut I,
    writing: bool,
    place: u64,
    p: &Prefix,
    bytes: &[u8],
) -> Result<Header, FindError>
    requires { place + length bytes.now ≤ 2 ^ 64 }
    ensures ran { Ran find_errors (I.view image.old) (I.view image.new) (λ img. eval img (from_chunk_0_for writing place p.now bytes.now)) (seen header_of result) }
    ensures kinds { IfErr result IsFindKind }
{
    let next = chunk_0_messages(alloc, writing, place, bytes)?;
    let mut extents = Vec::new(alloc);
    add_extent(&mut extents, place, p.total)?;
    walk(alloc, image, writing, place, p.tracked, next, extents)
}
