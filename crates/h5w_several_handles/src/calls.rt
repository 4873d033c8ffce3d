//! The calls of a writer of several datasets, on a handle.
ghost use Rattle.std.specs.Prelude.{◌≡◌, None, length, map, pos};
ghost use Rattle.h5w_writer.specs.Sessions.{Session, rows_of};
ghost use Rattle.h5w_handles.specs.Codes.{misuse};
ghost use Rattle.h5w_several_handles.specs.Handles.{OnSeveral};
ghost use Rattle.h5w_several_handles.specs.SetCalls.{AppendedSet, ClosedSet, CountsOf, FailedSet, FlushedSet, IsNextOf, KeepsSet, WrittenSet};

use crate::{counting, several, showing};
use h5w_handles::{H5wCode, H5wPlace, H5wTold, Handle, Held};
use std::alloc::Global;

/// Appends values to dataset `d`, counted from 0, rows one after another. They wait for a flush. The line of a refusal goes to the front of `text`, as
/// much of it as there is room for, unless memory is wanting for it; so of a flush and of a close.
pub fn append(
    handle: &mut Handle,
    alloc: Global,
    d: usize,
    values: &[i64],
    text: &mut [u8],
) -> H5wTold
    ensures { OnSeveral (misuse, text.old) (AppendedSet d values.now text.old) handle.old.at.held (result, text.new) handle.new.at.held }
{
    let Some(mut held) = handle.take(alloc) else {
        return H5wCode::Misuse.alone();
    };
    let told = match &mut *held {
        Held::Several(state) => several::append(state, alloc, d, values, text),
        Held::Reader(_) | Held::Writer(_) => H5wCode::Misuse.alone(),
    };
    handle.put(held);
    told
}

/// Appends values that are not negative to dataset `d`, rows one after another.
pub fn append_unsigned(
    handle: &mut Handle,
    alloc: Global,
    d: usize,
    values: &[u64],
    text: &mut [u8],
) -> H5wTold
    ensures { OnSeveral (misuse, text.old) (AppendedSet d (map pos values.now) text.old) handle.old.at.held (result, text.new) handle.new.at.held }
{
    let Some(mut held) = handle.take(alloc) else {
        return H5wCode::Misuse.alone();
    };
    let told = match &mut *held {
        Held::Several(state) => several::append_unsigned(state, alloc, d, values, text),
        Held::Reader(_) | Held::Writer(_) => H5wCode::Misuse.alone(),
    };
    handle.put(held);
    told
}

/// Plans the pieces that make the rows that wait visible, dataset after dataset. How many each has goes to the front of `counts`, as many of these
/// numbers as there is room for.
pub fn flush(handle: &mut Handle, alloc: Global, counts: &mut [u64], text: &mut [u8]) -> H5wTold
    ensures { OnSeveral (misuse, counts.old, text.old) (FlushedSet counts.old text.old) handle.old.at.held (result, counts.new, text.new) handle.new.at.held }
{
    let Some(mut held) = handle.take(alloc) else {
        return H5wCode::Misuse.alone();
    };
    let told = match &mut *held {
        Held::Several(state) => several::flush(state, alloc, counts, text),
        Held::Reader(_) | Held::Writer(_) => H5wCode::Misuse.alone(),
    };
    handle.put(held);
    told
}

/// Puts the oldest pending piece at the front of `out`, and answers where it is to be written. None if no piece is pending, or `out` is shorter
/// than the piece, which has at most 512 bytes.
pub fn next(handle: &mut Handle, alloc: Global, out: &mut [u8]) -> Option<H5wPlace>
    ensures { OnSeveral (None, out.old) (IsNextOf out.old) handle.old.at.held (result, out.new) handle.new.at.held }
{
    let held = handle.take(alloc)?;
    let place = match &*held {
        Held::Several(state) => showing::next(state, out),
        Held::Reader(_) | Held::Writer(_) => None,
    };
    handle.put(held);
    place
}

/// The oldest pending piece became visible.
pub fn written(handle: &mut Handle, alloc: Global) -> H5wTold
    ensures { OnSeveral misuse WrittenSet handle.old.at.held result handle.new.at.held }
{
    let Some(mut held) = handle.take(alloc) else {
        return H5wCode::Misuse.alone();
    };
    let told = match &mut *held {
        Held::Several(state) => showing::written(state),
        Held::Reader(_) | Held::Writer(_) => H5wCode::Misuse.alone(),
    };
    handle.put(held);
    told
}

/// The oldest pending piece cannot become visible: the session is stopped.
pub fn failed(handle: &mut Handle, alloc: Global) -> H5wTold
    ensures { OnSeveral misuse FailedSet handle.old.at.held result handle.new.at.held }
{
    let Some(mut held) = handle.take(alloc) else {
        return H5wCode::Misuse.alone();
    };
    let told = match &mut *held {
        Held::Several(state) => several::failed(state),
        Held::Reader(_) | Held::Writer(_) => H5wCode::Misuse.alone(),
    };
    handle.put(held);
    told
}

/// Plans the superblock with the flags of a file that nobody writes, as one pending piece. Rows that wait stay unwritten.
pub fn close(handle: &mut Handle, alloc: Global, text: &mut [u8]) -> H5wTold
    ensures { OnSeveral (misuse, text.old) (ClosedSet text.old) handle.old.at.held (result, text.new) handle.new.at.held }
{
    let Some(mut held) = handle.take(alloc) else {
        return H5wCode::Misuse.alone();
    };
    let told = match &mut *held {
        Held::Several(state) => several::close(state, alloc, text),
        Held::Reader(_) | Held::Writer(_) => H5wCode::Misuse.alone(),
    };
    handle.put(held);
    told
}

/// What is retired stays out of use from now on.
pub fn keep_retired(handle: &mut Handle, alloc: Global) -> H5wTold
    ensures { OnSeveral misuse KeepsSet handle.old.at.held result handle.new.at.held }
{
    let Some(mut held) = handle.take(alloc) else {
        return H5wCode::Misuse.alone();
    };
    let told = match &mut *held {
        Held::Several(state) => several::keep_retired(state),
        Held::Reader(_) | Held::Writer(_) => H5wCode::Misuse.alone(),
    };
    handle.put(held);
    told
}

/// How many rows were appended to dataset `d`; 0 if there is none.
pub fn rows(handle: &mut Handle, alloc: Global, d: usize) -> u64
    ensures { OnSeveral 0 (CountsOf rows_of d) handle.old.at.held result handle.new.at.held }
{
    let Some(held) = handle.take(alloc) else {
        return 0;
    };
    let rows = match &*held {
        Held::Several(state) => counting::rows(state, d),
        Held::Reader(_) | Held::Writer(_) => 0,
    };
    handle.put(held);
    rows
}

/// How many columns dataset `d` has; 0 if there is none.
pub fn columns(handle: &mut Handle, alloc: Global, d: usize) -> u64
    ensures { OnSeveral 0 (CountsOf (λ (part : Session). part.dataset.shape.cols) d) handle.old.at.held result handle.new.at.held }
{
    let Some(held) = handle.take(alloc) else {
        return 0;
    };
    let columns = match &*held {
        Held::Several(state) => counting::columns(state, d),
        Held::Reader(_) | Held::Writer(_) => 0,
    };
    handle.put(held);
    columns
}

/// How many datasets there are.
pub fn count(handle: &mut Handle, alloc: Global) -> u64
    ensures { OnSeveral 0 (λ s n t. (n ≡ length s.session.parts) × (t ≡ s)) handle.old.at.held result handle.new.at.held }
{
    let Some(held) = handle.take(alloc) else {
        return 0;
    };
    let count = match &*held {
        Held::Several(state) => counting::count(state),
        Held::Reader(_) | Held::Writer(_) => 0,
    };
    handle.put(held);
    count
}
