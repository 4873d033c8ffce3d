//! The calls of a writer, on a handle.
ghost use Rattle.std.specs.Prelude.{◌≡◌, None, length, map, pos};
ghost use Rattle.h5w_writer.specs.Sessions.{rows_of};
ghost use Rattle.h5w_handles.specs.Codes.{misuse};
ghost use Rattle.h5w_writer_handles.specs.Handles.{OnWriter};
ghost use Rattle.h5w_writer_handles.specs.WriterCalls.{Appended, Closed, Failed, Flushed, IsNextPiece, KeepsRetired, Written};

use crate::writer;
use h5w_handles::{H5wCode, H5wPlace, H5wTold, Handle, Held};
use std::alloc::Global;

/// Appends values, rows one after another. Pieces may be pending then. The line of a refusal goes to the front of `text`, as much of it as
/// there is room for, unless memory is wanting for it; so of a flush and of a close.
pub fn append(handle: &mut Handle, alloc: Global, values: &[i64], text: &mut [u8]) -> H5wTold
    ensures { OnWriter (misuse, text.old) (Appended values.now text.old) handle.old.at.held (result, text.new) handle.new.at.held }
{
    let Some(mut held) = handle.take(alloc) else {
        return H5wCode::Misuse.alone();
    };
    let told = match &mut *held {
        Held::Writer(core) => writer::append(core, alloc, values, text),
        Held::Reader(_) | Held::Several(_) => H5wCode::Misuse.alone(),
    };
    handle.put(held);
    told
}

/// Appends values that are not negative, rows one after another. Pieces may be pending then.
pub fn append_unsigned(
    handle: &mut Handle,
    alloc: Global,
    values: &[u64],
    text: &mut [u8],
) -> H5wTold
    ensures { OnWriter (misuse, text.old) (Appended (map pos values.now) text.old) handle.old.at.held (result, text.new) handle.new.at.held }
{
    let Some(mut held) = handle.take(alloc) else {
        return H5wCode::Misuse.alone();
    };
    let told = match &mut *held {
        Held::Writer(core) => writer::append_unsigned(core, alloc, values, text),
        Held::Reader(_) | Held::Several(_) => H5wCode::Misuse.alone(),
    };
    handle.put(held);
    told
}

/// Plans the pieces that make the rows that wait visible.
pub fn flush(handle: &mut Handle, alloc: Global, text: &mut [u8]) -> H5wTold
    ensures { OnWriter (misuse, text.old) (Flushed text.old) handle.old.at.held (result, text.new) handle.new.at.held }
{
    let Some(mut held) = handle.take(alloc) else {
        return H5wCode::Misuse.alone();
    };
    let told = match &mut *held {
        Held::Writer(core) => writer::flush(core, alloc, text),
        Held::Reader(_) | Held::Several(_) => H5wCode::Misuse.alone(),
    };
    handle.put(held);
    told
}

/// Puts the oldest pending piece at the front of `out`, and answers where it is to be written. None if no piece is pending, or `out` is shorter
/// than the piece, which has at most 512 bytes.
pub fn next(handle: &mut Handle, alloc: Global, out: &mut [u8]) -> Option<H5wPlace>
    ensures { OnWriter (None, out.old) (IsNextPiece out.old) handle.old.at.held (result, out.new) handle.new.at.held }
{
    let held = handle.take(alloc)?;
    let place = match &*held {
        Held::Writer(core) => writer::next(core, out),
        Held::Reader(_) | Held::Several(_) => None,
    };
    handle.put(held);
    place
}

/// The oldest pending piece became visible.
pub fn written(handle: &mut Handle, alloc: Global) -> H5wTold
    ensures { OnWriter misuse Written handle.old.at.held result handle.new.at.held }
{
    let Some(mut held) = handle.take(alloc) else {
        return H5wCode::Misuse.alone();
    };
    let told = match &mut *held {
        Held::Writer(core) => writer::written(core),
        Held::Reader(_) | Held::Several(_) => H5wCode::Misuse.alone(),
    };
    handle.put(held);
    told
}

/// The oldest pending piece cannot become visible: the session is stopped.
pub fn failed(handle: &mut Handle, alloc: Global) -> H5wTold
    ensures { OnWriter misuse Failed handle.old.at.held result handle.new.at.held }
{
    let Some(mut held) = handle.take(alloc) else {
        return H5wCode::Misuse.alone();
    };
    let told = match &mut *held {
        Held::Writer(core) => writer::failed(core),
        Held::Reader(_) | Held::Several(_) => H5wCode::Misuse.alone(),
    };
    handle.put(held);
    told
}

/// Plans the superblock with the flags of a file that nobody writes, as one pending piece. Rows that wait stay unwritten.
pub fn close(handle: &mut Handle, alloc: Global, text: &mut [u8]) -> H5wTold
    ensures { OnWriter (misuse, text.old) (Closed text.old) handle.old.at.held (result, text.new) handle.new.at.held }
{
    let Some(mut held) = handle.take(alloc) else {
        return H5wCode::Misuse.alone();
    };
    let told = match &mut *held {
        Held::Writer(core) => writer::close(core, alloc, text),
        Held::Reader(_) | Held::Several(_) => H5wCode::Misuse.alone(),
    };
    handle.put(held);
    told
}

/// What is retired stays out of use from now on.
pub fn keep_retired(handle: &mut Handle, alloc: Global) -> H5wTold
    ensures { OnWriter misuse KeepsRetired handle.old.at.held result handle.new.at.held }
{
    let Some(mut held) = handle.take(alloc) else {
        return H5wCode::Misuse.alone();
    };
    let told = match &mut *held {
        Held::Writer(core) => writer::keep_retired(core),
        Held::Reader(_) | Held::Several(_) => H5wCode::Misuse.alone(),
    };
    handle.put(held);
    told
}

/// How many rows were appended.
pub fn rows(handle: &mut Handle, alloc: Global) -> u64
    ensures { OnWriter 0 (λ s n t. (n ≡ rows_of s) × (t ≡ s)) handle.old.at.held result handle.new.at.held }
{
    let Some(held) = handle.take(alloc) else {
        return 0;
    };
    let rows = match &*held {
        Held::Writer(core) => core.rows(),
        Held::Reader(_) | Held::Several(_) => 0,
    };
    handle.put(held);
    rows
}

/// How many columns a row has.
pub fn columns(handle: &mut Handle, alloc: Global) -> u64
    ensures { OnWriter 0 (λ s n t. (n ≡ s.dataset.shape.cols) × (t ≡ s)) handle.old.at.held result handle.new.at.held }
{
    let Some(held) = handle.take(alloc) else {
        return 0;
    };
    let columns = match &*held {
        Held::Writer(core) => core.columns(),
        Held::Reader(_) | Held::Several(_) => 0,
    };
    handle.put(held);
    columns
}
