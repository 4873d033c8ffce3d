//! The calls of a session, with codes in place of its answers.
ghost use Rattle.std.specs.Prelude.{◌≡◌, ◌<◌, ◌%◌, IfOk, IsFalse, IsTrue, length, map, pos};
ghost use Rattle.h5w_writer.specs.Sessions.{AreRows};
ghost use Rattle.h5w_text.specs.Errors.{error_text};
ghost use Rattle.h5w_text.specs.declared.error.ErrorLine.TheVariants as lines;
ghost use Rattle.h5w_handles.specs.Codes.{no_memory, told};
ghost use Rattle.h5w_handles.specs.declared.code.H5wCode.TheVariants as codes;
ghost use Rattle.h5w_writer_handles.specs.Tellings.{PutsLine};
ghost use Rattle.h5w_writer_handles.specs.WriterCalls.{Appended, AppendedRows, Closed, Failed, Flushed, KeepsRetired, Written, bytes_for, next_out, next_place, place_for};

use crate::room::Room;
use crate::telling::{append_told, close_told, flush_told, refuse};
use h5w_handles::{H5wCode, H5wPlace, H5wTold};
use h5w_model::{OutOfMemory, Write};
use h5w_text::ErrorLine;
use h5w_writer::WriterCore;
use h5w_writer_lines::{WriterLine, append_line, close_line, flush_line};
use std::alloc::Global;

/// The line of an input that the values of a call are told as.
pub const LINE: u64 = 1;

/// These numbers as values.
pub fn signed_values(alloc: Global, numbers: &[i64]) -> Result<Vec<i128>, OutOfMemory>
    ensures { IfOk result (λ v. v.items ≡ numbers.now) }
{
    let values = numbers.iter().map(|n| i128::from(*n)).collect(alloc)?;
    Ok(values)
}

/// These numbers as values.
pub fn unsigned_values(alloc: Global, numbers: &[u64]) -> Result<Vec<i128>, OutOfMemory>
    ensures { IfOk result (λ v. v.items ≡ map pos numbers.now) }
{
    let values = numbers.iter().map(|n| i128::from(*n)).collect(alloc)?;
    Ok(values)
}

/// Whether so many values are whole rows.
fn are_whole(core: &WriterCore, count: usize) -> bool
    ensures yes { IsTrue result → count % core.now.dataset.shape.cols ≡ 0 }
    ensures no { IsFalse result → 0 < count % core.now.dataset.shape.cols }
{
    count as u64 % core.columns() == 0
}

/// Appends values, whole rows.
fn append_rows(core: &mut WriterCore, alloc: Global, values: &[i128], text: &mut [u8]) -> H5wTold
    requires { AreRows core.old values.now }
    ensures { AppendedRows values.now text.old core.old (result, text.new) core.new }
{
    match core.append(values, &mut Room::new()) {
        Ok(rows) => H5wCode::Done.with(0, rows),
        Err(error) => refuse(alloc, append_told(&error), &append_line(LINE, error), text),
    }
}

/// Refuses values that are no whole rows of so many columns.
pub fn refuse_rows(columns: u64, alloc: Global, text: &mut [u8]) -> H5wTold
    ensures told { result ≡ told codes.Rows 0 columns }
    ensures line { PutsLine (error_text (lines.Line 1)) text.old text.new }
{
    let line = WriterLine::Error(ErrorLine::Line(LINE));
    refuse(alloc, H5wCode::Rows.with(0, columns), &line, text)
}

/// Refuses values for want of memory.
pub fn refuse_memory(alloc: Global, text: &mut [u8]) -> H5wTold
    ensures told { result ≡ no_memory }
    ensures line { PutsLine (error_text lines.Memory) text.old text.new }
{
    let line = WriterLine::Error(ErrorLine::Memory);
    refuse(alloc, H5wCode::Memory.alone(), &line, text)
}

/// Appends values, rows one after another.
#[tactic(auto, using(crate::proofs::RowsLemmas::rows_of_whole))]
pub fn append(core: &mut WriterCore, alloc: Global, numbers: &[i64], text: &mut [u8]) -> H5wTold
    ensures { Appended numbers.now text.old core.old (result, text.new) core.new }
{
    if !are_whole(core, numbers.len()) {
        return refuse_rows(core.columns(), alloc, text);
    }
    match signed_values(alloc, numbers) {
        Ok(values) => append_rows(core, alloc, &values, text),
        Err(OutOfMemory) => refuse_memory(alloc, text),
    }
}

/// Appends values that are not negative, rows one after another.
pub fn append_unsigned(
    core: &mut WriterCore,
    alloc: Global,
    numbers: &[u64],
    text: &mut [u8],
) -> H5wTold
    ensures { Appended (map pos numbers.now) text.old core.old (result, text.new) core.new }
{
    if !are_whole(core, numbers.len()) {
        return refuse_rows(core.columns(), alloc, text);
    }
    match unsigned_values(alloc, numbers) {
        Ok(values) => append_rows(core, alloc, &values, text),
        Err(OutOfMemory) => refuse_memory(alloc, text),
    }
}

/// Plans the pieces that make the rows that wait visible.
pub fn flush(core: &mut WriterCore, alloc: Global, text: &mut [u8]) -> H5wTold
    ensures { Flushed text.old core.old (result, text.new) core.new }
{
    match core.flush(&mut Room::new()) {
        Ok(pieces) => H5wCode::Done.with(0, pieces),
        Err(error) => refuse(alloc, flush_told(&error), &flush_line(error), text),
    }
}

/// Puts a piece at the front of `out`, and answers where it is to be written. None if `out` is shorter than the piece.
pub fn put_piece(write: &Write, out: &mut [u8]) -> Option<H5wPlace>
    ensures place { result ≡ place_for write.now (length out.old) }
    ensures bytes { out.new ≡ bytes_for write.now out.old }
{
    let bytes = write.piece.as_slice();
    if bytes.len() > out.len() {
        return None;
    }
    out[..bytes.len()].copy_from_slice(bytes);
    Some(H5wPlace {
        at: write.at,
        len: bytes.len() as u64,
    })
}

/// Puts the oldest pending piece at the front of `out`, and answers where it is to be written. None if no piece is pending or `out` is shorter
/// than the piece, which has at most 512 bytes.
pub fn next(core: &WriterCore, out: &mut [u8]) -> Option<H5wPlace>
    ensures place { result ≡ next_place core.now.pending (length out.old) }
    ensures bytes { out.new ≡ next_out core.now.pending out.old }
{
    let write = core.next()?;
    put_piece(write, out)
}

/// The oldest pending piece became visible.
pub fn written(core: &mut WriterCore) -> H5wTold
    ensures { Written core.old result core.new }
{
    if core.pending() == 0 {
        return H5wCode::Misuse.alone();
    }
    core.written();
    H5wCode::Done.with(0, core.pending())
}

/// The oldest pending piece cannot become visible: the session is stopped.
pub fn failed(core: &mut WriterCore) -> H5wTold
    ensures { Failed core.old result core.new }
{
    core.failed();
    H5wCode::Done.alone()
}

/// Plans the superblock with the flags of a file that nobody writes.
pub fn close(core: &mut WriterCore, alloc: Global, text: &mut [u8]) -> H5wTold
    ensures { Closed text.old core.old (result, text.new) core.new }
{
    match core.close() {
        Ok(()) => H5wCode::Done.with(0, core.pending()),
        Err(error) => refuse(alloc, close_told(&error), &close_line(error), text),
    }
}

/// What is retired stays out of use from now on.
pub fn keep_retired(core: &mut WriterCore) -> H5wTold
    ensures { KeepsRetired core.old result core.new }
{
    core.keep_retired();
    H5wCode::Done.alone()
}
