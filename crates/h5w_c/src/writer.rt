//! What C calls of a writer.
ghost use Rattle.std.specs.Prelude.{◌≡◌, IsFalse, None, map, pos};
ghost use Rattle.h5w_writer.specs.Sessions.{rows_of};
ghost use Rattle.h5w_handles.specs.Codes.{misuse};
ghost use Rattle.h5w_handles.specs.ReaderCalls.{place_if};
ghost use Rattle.h5w_writer_handles.specs.Handles.{CreatesWriter, OnWriter, OpensWriter};
ghost use Rattle.h5w_writer_handles.specs.WriterCalls.{Appended, Closed, Failed, Flushed, IsNextPiece, KeepsRetired, Written};

use h5w_handles::{H5wPlace, H5wTold, Handle};
use h5w_writer_handles as calls;
use h5w_writer_handles::H5wOptions;
use std::alloc::Global;

/// Opens a writer in the handle, which holds nothing: it creates a file with a dataset of this name. Answers Done with the pieces that are
/// pending, Busy, Misuse or Memory.
#[unsafe(no_mangle)]
pub extern "C" fn h5w_writer_create(
    alloc: Global,
    writer: &mut Handle,
    name: &[u8],
    options: &H5wOptions,
) -> H5wTold
    ensures { CreatesWriter name.now options.now writer.old.at.held result writer.new.at.held }
{
    calls::create(writer, alloc, name, options)
}

/// Opens a writer in the handle, which holds nothing, over a file that is there: these are all its bytes, and nobody writes it meanwhile. Answers
/// Done with the piece that is pending, Refused or Opened, Busy, Misuse or Memory. If the file is refused, the line that the program prints of it goes
/// to the front of `text`, as much of it as there is room for; it ends with the byte 0a.
#[unsafe(no_mangle)]
pub extern "C" fn h5w_writer_open(
    alloc: Global,
    writer: &mut Handle,
    bytes: &[u8],
    name: &[u8],
    limit: u64,
    budget: u64,
    text: &mut [u8],
) -> H5wTold
    ensures { OpensWriter bytes.now name.now limit budget text.old writer.old.at.held result text.new writer.new.at.held }
{
    calls::open(writer, alloc, bytes, name, limit, budget, text)
}

/// Appends values, rows one after another. Answers Done with the rows in all, Rows with the columns if they are no whole rows, Stopped, Busy with
/// the pieces that are pending, Range, Chunks, Memory or Misuse. Rows past the budget are written early: pieces may be pending then. The line that
/// the program prints of a refusal goes to the front of `text`, as much of it as there is room for, with the byte 0a at its end: as of an input whose
/// first line has these values. Of Stopped and Busy it is the reply of a script. `text` stays as it was behind Done and Misuse.
#[unsafe(no_mangle)]
pub extern "C" fn h5w_writer_append(
    alloc: Global,
    writer: &mut Handle,
    values: &[i64],
    text: &mut [u8],
) -> H5wTold
    ensures { OnWriter (misuse, text.old) (Appended values.now text.old) writer.old.at.held (result, text.new) writer.new.at.held }
{
    calls::append(writer, alloc, values, text)
}

/// The same of values from 0 on.
#[unsafe(no_mangle)]
pub extern "C" fn h5w_writer_append_u64(
    alloc: Global,
    writer: &mut Handle,
    values: &[u64],
    text: &mut [u8],
) -> H5wTold
    ensures { OnWriter (misuse, text.old) (Appended (map pos values.now) text.old) writer.old.at.held (result, text.new) writer.new.at.held }
{
    calls::append_unsigned(writer, alloc, values, text)
}

/// Plans the pieces that make the rows that wait visible. Answers Done with their number, Stopped, Busy with the pieces that are pending, Full,
/// Memory or Misuse. The line of a refusal goes to `text`, as of an append.
#[unsafe(no_mangle)]
pub extern "C" fn h5w_writer_flush(alloc: Global, writer: &mut Handle, text: &mut [u8]) -> H5wTold
    ensures { OnWriter (misuse, text.old) (Flushed text.old) writer.old.at.held (result, text.new) writer.new.at.held }
{
    calls::flush(writer, alloc, text)
}

/// The oldest pending piece goes to the front of `out`, and where it is to be written into `place`; false where no piece is pending, or `out` is
/// shorter than it, and both stay. A piece has at most 512 bytes.
#[unsafe(no_mangle)]
pub extern "C" fn h5w_writer_next(
    alloc: Global,
    writer: &mut Handle,
    out: &mut [u8],
    place: &mut H5wPlace,
) -> bool
    ensures piece { OnWriter (None, out.old) (IsNextPiece out.old) writer.old.at.held (place_if result place.new, out.new) writer.new.at.held }
    ensures kept { IsFalse result → place.new ≡ place.old }
{
    match calls::next(writer, alloc, out) {
        Some(next) => {
            *place = next;
            true
        }
        None => false,
    }
}

/// The oldest pending piece became visible. Answers Done with the pieces that are pending then, or Misuse if none was.
#[unsafe(no_mangle)]
pub extern "C" fn h5w_writer_written(alloc: Global, writer: &mut Handle) -> H5wTold
    ensures { OnWriter misuse Written writer.old.at.held result writer.new.at.held }
{
    calls::written(writer, alloc)
}

/// The oldest pending piece cannot become visible: the session is stopped. Answers Done or Misuse.
#[unsafe(no_mangle)]
pub extern "C" fn h5w_writer_failed(alloc: Global, writer: &mut Handle) -> H5wTold
    ensures { OnWriter misuse Failed writer.old.at.held result writer.new.at.held }
{
    calls::failed(writer, alloc)
}

/// Plans the superblock of a file that nobody writes, as one pending piece; the session is stopped. Rows that wait stay unwritten. Answers Done
/// with the piece, Stopped, Busy with the pieces that are pending, or Misuse. The line of a refusal goes to `text`, as of an append.
#[unsafe(no_mangle)]
pub extern "C" fn h5w_writer_close(alloc: Global, writer: &mut Handle, text: &mut [u8]) -> H5wTold
    ensures { OnWriter (misuse, text.old) (Closed text.old) writer.old.at.held (result, text.new) writer.new.at.held }
{
    calls::close(writer, alloc, text)
}

/// No place is used again from now on. Answers Done or Misuse.
#[unsafe(no_mangle)]
pub extern "C" fn h5w_writer_keep_retired(alloc: Global, writer: &mut Handle) -> H5wTold
    ensures { OnWriter misuse KeepsRetired writer.old.at.held result writer.new.at.held }
{
    calls::keep_retired(writer, alloc)
}

/// How many rows were appended; 0 without a writer.
#[unsafe(no_mangle)]
pub extern "C" fn h5w_writer_rows(alloc: Global, writer: &mut Handle) -> u64
    ensures { OnWriter 0 (λ s n t. (n ≡ rows_of s) × (t ≡ s)) writer.old.at.held result writer.new.at.held }
{
    calls::rows(writer, alloc)
}

/// How many columns a row has; 0 without a writer.
#[unsafe(no_mangle)]
pub extern "C" fn h5w_writer_columns(alloc: Global, writer: &mut Handle) -> u64
    ensures { OnWriter 0 (λ s n t. (n ≡ s.dataset.shape.cols) × (t ≡ s)) writer.old.at.held result writer.new.at.held }
{
    calls::columns(writer, alloc)
}

/// The handle holds nothing from now on.
#[unsafe(no_mangle)]
pub extern "C" fn h5w_writer_free(alloc: Global, writer: &mut Handle)
    ensures { writer.new.at.held ≡ None }
{
    writer.close(alloc);
}
