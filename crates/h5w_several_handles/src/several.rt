//! The calls of a session of several datasets, with codes in place of its answers.
ghost use Rattle.std.specs.Prelude.{◌≡◌, ◌<◌, ◌≤◌, ◌%◌, IsFalse, IsTrue, Some, length, map, pos, slice_get, take};
ghost use Rattle.h5w_writer.specs.Sessions.{AreRows, Session};
ghost use Rattle.h5w_handles.specs.Texts.{laid};
ghost use Rattle.h5w_several_handles.specs.SetCalls.{AppendedRowsTo, AppendedSet, AppendedTo, AppendsRows, ClosedSet, EndsSet, FailedSet, FlushedSet, KeepsSet, PlansSet};

use h5w_handles::{H5wCode, H5wTold, SeveralState};
use h5w_model::OutOfMemory;
use h5w_several_writer::{AppendError, CloseError, FlushError, Parts};
use h5w_writer_handles::{
    LINE, Room, append_told, close_told, flush_told, refuse, refuse_memory, refuse_rows,
    signed_values, unsigned_values,
};
use h5w_writer_lines::{append_line, close_line, flush_line};
use std::alloc::Global;

/// Whether so many values are whole rows of dataset `d`.
fn are_whole(state: &SeveralState, d: usize, count: usize) -> bool
    requires { d < length state.now.session.parts }
    ensures yes { IsTrue result → (part : Session) → slice_get state.now.session.parts d ≡ Some part → count % part.dataset.shape.cols ≡ 0 }
    ensures no { IsFalse result → (part : Session) → slice_get state.now.session.parts d ≡ Some part → 0 < count % part.dataset.shape.cols }
{
    count as u64 % state.session.columns(d) == 0
}

/// Appends values, whole rows, to dataset `d`: no piece of the creation is left.
fn append_now(state: &mut SeveralState, d: usize, values: &[i128]) -> Result<u64, AppendError>
    requires none { length state.old.first.items ≡ 0 }
    requires inside { d < length state.old.session.parts }
    requires rows { (part : Session) → slice_get state.old.session.parts d ≡ Some part → AreRows part values.now }
    ensures { (part : Session) → slice_get state.old.session.parts d ≡ Some part → AppendsRows d values.now part state.old result state.new }
{
    state.session.append(d, values, &mut Room::new())
}

/// The same once no piece of the creation is left.
#[tactic(auto, using(crate::proofs::ListLemmas::empty_of))]
fn append_values(state: &mut SeveralState, d: usize, values: &[i128]) -> Result<u64, AppendError>
    requires inside { d < length state.old.session.parts }
    requires rows { (part : Session) → slice_get state.old.session.parts d ≡ Some part → AreRows part values.now }
    ensures { (part : Session) → slice_get state.old.session.parts d ≡ Some part → AppendsRows d values.now part state.old result state.new }
{
    let left = state.first.len() as u64;
    if left == 0 {
        append_now(state, d, values)
    } else {
        Err(AppendError::Busy { pending: left })
    }
}

/// The same with a code, and a line of a refusal.
fn append_rows(
    state: &mut SeveralState,
    alloc: Global,
    d: usize,
    values: &[i128],
    text: &mut [u8],
) -> H5wTold
    requires inside { d < length state.old.session.parts }
    requires rows { (part : Session) → slice_get state.old.session.parts d ≡ Some part → AreRows part values.now }
    ensures { (part : Session) → slice_get state.old.session.parts d ≡ Some part → AppendedRowsTo d values.now part text.old state.old (result, text.new) state.new }
{
    match append_values(state, d, values) {
        Ok(rows) => H5wCode::Done.with(0, rows),
        Err(error) => refuse(alloc, append_told(&error), &append_line(LINE, error), text),
    }
}

/// Appends values to dataset `d`, which is there, rows one after another.
fn append_to(
    state: &mut SeveralState,
    alloc: Global,
    d: usize,
    numbers: &[i64],
    text: &mut [u8],
) -> H5wTold
    requires { d < length state.old.session.parts }
    ensures { (part : Session) → slice_get state.old.session.parts d ≡ Some part → AppendedTo d numbers.now part text.old state.old (result, text.new) state.new }
{
    if !are_whole(state, d, numbers.len()) {
        return refuse_rows(state.session.columns(d), alloc, text);
    }
    match signed_values(alloc, numbers) {
        Ok(values) => append_rows(state, alloc, d, &values, text),
        Err(OutOfMemory) => refuse_memory(alloc, text),
    }
}

/// The same of values that are not negative.
fn append_unsigned_to(
    state: &mut SeveralState,
    alloc: Global,
    d: usize,
    numbers: &[u64],
    text: &mut [u8],
) -> H5wTold
    requires { d < length state.old.session.parts }
    ensures { (part : Session) → slice_get state.old.session.parts d ≡ Some part → AppendedTo d (map pos numbers.now) part text.old state.old (result, text.new) state.new }
{
    if !are_whole(state, d, numbers.len()) {
        return refuse_rows(state.session.columns(d), alloc, text);
    }
    match unsigned_values(alloc, numbers) {
        Ok(values) => append_rows(state, alloc, d, &values, text),
        Err(OutOfMemory) => refuse_memory(alloc, text),
    }
}

/// Appends values to dataset `d`, rows one after another.
pub fn append(
    state: &mut SeveralState,
    alloc: Global,
    d: usize,
    numbers: &[i64],
    text: &mut [u8],
) -> H5wTold
    ensures { AppendedSet d numbers.now text.old state.old (result, text.new) state.new }
{
    if d >= state.session.count() {
        return H5wCode::Misuse.alone();
    }
    append_to(state, alloc, d, numbers, text)
}

/// Appends values that are not negative to dataset `d`, rows one after another.
pub fn append_unsigned(
    state: &mut SeveralState,
    alloc: Global,
    d: usize,
    numbers: &[u64],
    text: &mut [u8],
) -> H5wTold
    ensures { AppendedSet d (map pos numbers.now) text.old state.old (result, text.new) state.new }
{
    if d >= state.session.count() {
        return H5wCode::Misuse.alone();
    }
    append_unsigned_to(state, alloc, d, numbers, text)
}

/// The first of these numbers, at most so many.
fn first(counts: &[u64], most: usize) -> &[u64]
    ensures part { result.now ≡ take most counts.now }
    ensures bound { length result.now ≤ most }
{
    &counts[..counts.len().min(most)]
}

/// Puts numbers at the front of `out`, as many of them as there is room for.
fn put_counts(counts: &[u64], out: &mut [u64])
    ensures { out.new ≡ laid counts.now out.old }
{
    let part = first(counts, out.len());
    out[..part.len()].copy_from_slice(part);
}

/// Plans the pieces that make the rows that wait visible: no piece of the creation is left.
fn plan_now(state: &mut SeveralState) -> Result<Parts, FlushError>
    requires { length state.old.first.items ≡ 0 }
    ensures { PlansSet state.old result state.new }
{
    state.session.flush(&mut Room::new())
}

/// The same once no piece of the creation is left.
#[tactic(auto, using(crate::proofs::ListLemmas::empty_of))]
fn plan(state: &mut SeveralState) -> Result<Parts, FlushError>
    ensures { PlansSet state.old result state.new }
{
    let left = state.first.len() as u64;
    if left == 0 {
        plan_now(state)
    } else {
        Err(FlushError::Busy { pending: left })
    }
}

/// Plans the pieces that make the rows that wait visible. How many each dataset has goes to the front of `counts`.
pub fn flush(
    state: &mut SeveralState,
    alloc: Global,
    counts: &mut [u64],
    text: &mut [u8],
) -> H5wTold
    ensures { FlushedSet counts.old text.old state.old (result, counts.new, text.new) state.new }
{
    match plan(state) {
        Ok(each) => {
            put_counts(each.as_slice(), counts);
            H5wCode::Done.with(0, state.session.pending())
        }
        Err(error) => refuse(alloc, flush_told(&error), &flush_line(error), text),
    }
}

/// The oldest pending piece cannot become visible: the session is stopped.
pub fn failed(state: &mut SeveralState) -> H5wTold
    ensures { FailedSet state.old result state.new }
{
    state.first.clear();
    state.session.failed();
    H5wCode::Done.alone()
}

/// Plans the superblock with the flags of a file that nobody writes: no piece of the creation is left.
fn end_now(state: &mut SeveralState) -> Result<(), CloseError>
    requires { length state.old.first.items ≡ 0 }
    ensures { EndsSet state.old result state.new }
{
    state.session.close()
}

/// The same once no piece of the creation is left.
#[tactic(auto, using(crate::proofs::ListLemmas::empty_of))]
fn end(state: &mut SeveralState) -> Result<(), CloseError>
    ensures { EndsSet state.old result state.new }
{
    let left = state.first.len() as u64;
    if left == 0 {
        end_now(state)
    } else {
        Err(CloseError::Busy { pending: left })
    }
}

/// Plans the superblock with the flags of a file that nobody writes.
pub fn close(state: &mut SeveralState, alloc: Global, text: &mut [u8]) -> H5wTold
    ensures { ClosedSet text.old state.old (result, text.new) state.new }
{
    match end(state) {
        Ok(()) => H5wCode::Done.with(0, 1),
        Err(error) => refuse(alloc, close_told(&error), &close_line(error), text),
    }
}

/// What is retired stays out of use from now on.
pub fn keep_retired(state: &mut SeveralState) -> H5wTold
    ensures { KeepsSet state.old result state.new }
{
    state.session.keep_retired();
    H5wCode::Done.alone()
}
