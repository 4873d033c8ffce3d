//! What C calls of a writer of several datasets of one file. A dataset is named by its number, counted from 0, in the order of the names. Names are the
//! bytes of all of them, one behind another, and how many bytes each has.
ghost use Rattle.std.specs.Prelude.{◌≡◌, IsFalse, None, length, map, pos, true, false};
ghost use Rattle.h5w_writer.specs.Sessions.{Session, rows_of};
ghost use Rattle.h5w_handles.specs.Codes.{misuse};
ghost use Rattle.h5w_handles.specs.ReaderCalls.{place_if};
ghost use Rattle.h5w_several_handles.specs.Handles.{CreatesSet, OnSeveral, OpensSet};
ghost use Rattle.h5w_several_handles.specs.SetCalls.{AppendedSet, ClosedSet, CountsOf, FailedSet, FlushedSet, IsNextOf, KeepsSet, WrittenSet};

use h5w_handles::{H5wPlace, H5wTold, Handle};
use h5w_several_handles as calls;
use h5w_writer_handles::H5wOptions;
use std::alloc::Global;

/// Opens a writer in the handle, which holds nothing: it creates a file with a dataset of each of these names, by the options at its place. The limit
/// and the budget of the first are those of the file. Answers Done with the pieces that are pending, Busy, Misuse or Memory. Misuse: an option is out of
/// its bounds, the names are not 1 to 8 of 1 to 64 bytes, one stands twice, there are not as many options, or the limit is below 1,024 bytes a name.
#[unsafe(no_mangle)]
pub extern "C" fn h5w_several_create(
    alloc: Global,
    several: &mut Handle,
    names: &[u8],
    lens: &[u64],
    options: &[H5wOptions],
) -> H5wTold
    ensures { CreatesSet lens.now names.now options.now several.old.at.held result several.new.at.held }
{
    calls::create(several, alloc, lens, names, options)
}

/// Opens a writer in the handle, which holds nothing, over a file that is there: these are all its bytes, and nobody writes it meanwhile. Answers Done
/// with the piece that is pending, Refused or Opened, Busy, Misuse or Memory. Misuse: a number is out of its bounds, or the names are not 1 to 8 of at
/// most 512 bytes. If the file is refused, the line that the program prints of it goes to the front of `text`, as much of it as there is room for; it
/// ends with the byte 0a.
#[unsafe(no_mangle)]
pub extern "C" fn h5w_several_open(
    alloc: Global,
    several: &mut Handle,
    bytes: &[u8],
    names: &[u8],
    lens: &[u64],
    limit: u64,
    budget: u64,
    text: &mut [u8],
) -> H5wTold
    ensures { OpensSet false bytes.now lens.now names.now limit budget text.old several.old.at.held result text.new several.new.at.held }
{
    calls::open(
        several, alloc, bytes, lens, names, limit, budget, false, text,
    )
}

/// The same over a file that another session left open for SWMR writing, which writes no more. No piece is pending. Opened with the flags, if one of
/// a writer is not set.
#[unsafe(no_mangle)]
pub extern "C" fn h5w_several_take_over(
    alloc: Global,
    several: &mut Handle,
    bytes: &[u8],
    names: &[u8],
    lens: &[u64],
    limit: u64,
    budget: u64,
    text: &mut [u8],
) -> H5wTold
    ensures { OpensSet true bytes.now lens.now names.now limit budget text.old several.old.at.held result text.new several.new.at.held }
{
    calls::open(
        several, alloc, bytes, lens, names, limit, budget, true, text,
    )
}

/// Appends values to a dataset, rows one after another. Answers Done with its rows in all, Rows with its columns if they are no whole rows, Stopped,
/// Busy with the pieces that are pending, Range, Chunks, Memory, or Misuse if there is no such dataset. No row is written before its flush: Memory
/// comes too if more bytes of the dataset would wait than the budget has. The line that the program prints of a refusal goes to the front of `text`, as
/// much of it as there is room for, with the byte 0a at its end: as of an input whose first line has these values. Of Stopped and Busy it is the reply
/// of a script. `text` stays as it was behind Done and Misuse.
#[unsafe(no_mangle)]
pub extern "C" fn h5w_several_append(
    alloc: Global,
    several: &mut Handle,
    dataset: usize,
    values: &[i64],
    text: &mut [u8],
) -> H5wTold
    ensures { OnSeveral (misuse, text.old) (AppendedSet dataset values.now text.old) several.old.at.held (result, text.new) several.new.at.held }
{
    calls::append(several, alloc, dataset, values, text)
}

/// The same of values from 0 on.
#[unsafe(no_mangle)]
pub extern "C" fn h5w_several_append_u64(
    alloc: Global,
    several: &mut Handle,
    dataset: usize,
    values: &[u64],
    text: &mut [u8],
) -> H5wTold
    ensures { OnSeveral (misuse, text.old) (AppendedSet dataset (map pos values.now) text.old) several.old.at.held (result, text.new) several.new.at.held }
{
    calls::append_unsigned(several, alloc, dataset, values, text)
}

/// Plans the pieces that make the rows of all datasets that wait visible, dataset after dataset. Answers Done with their number, Stopped, Busy with the
/// pieces that are pending, Full, Memory or Misuse; what is refused is refused for all. How many pieces each dataset has goes to the front of `counts`,
/// as many of these numbers as there is room for; they stay behind a refusal. The line of a refusal goes to `text`, as of an append.
#[unsafe(no_mangle)]
pub extern "C" fn h5w_several_flush(
    alloc: Global,
    several: &mut Handle,
    counts: &mut [u64],
    text: &mut [u8],
) -> H5wTold
    ensures { OnSeveral (misuse, counts.old, text.old) (FlushedSet counts.old text.old) several.old.at.held (result, counts.new, text.new) several.new.at.held }
{
    calls::flush(several, alloc, counts, text)
}

/// The oldest pending piece goes to the front of `out`, and where it is to be written into `place`; false where no piece is pending, or `out` is
/// shorter than it, and both stay. A piece has at most 512 bytes.
#[unsafe(no_mangle)]
pub extern "C" fn h5w_several_next(
    alloc: Global,
    several: &mut Handle,
    out: &mut [u8],
    place: &mut H5wPlace,
) -> bool
    ensures piece { OnSeveral (None, out.old) (IsNextOf out.old) several.old.at.held (place_if result place.new, out.new) several.new.at.held }
    ensures kept { IsFalse result → place.new ≡ place.old }
{
    match calls::next(several, alloc, out) {
        Some(next) => {
            *place = next;
            true
        }
        None => false,
    }
}

/// The oldest pending piece became visible. Answers Done with the pieces that are pending then, or Misuse if none was.
#[unsafe(no_mangle)]
pub extern "C" fn h5w_several_written(alloc: Global, several: &mut Handle) -> H5wTold
    ensures { OnSeveral misuse WrittenSet several.old.at.held result several.new.at.held }
{
    calls::written(several, alloc)
}

/// The oldest pending piece cannot become visible: the session is stopped. Answers Done or Misuse.
#[unsafe(no_mangle)]
pub extern "C" fn h5w_several_failed(alloc: Global, several: &mut Handle) -> H5wTold
    ensures { OnSeveral misuse FailedSet several.old.at.held result several.new.at.held }
{
    calls::failed(several, alloc)
}

/// Plans the superblock of a file that nobody writes, as one pending piece; the session is stopped. Rows that wait stay unwritten. Answers Done
/// with the piece, Stopped, Busy with the pieces that are pending, or Misuse. The line of a refusal goes to `text`, as of an append.
#[unsafe(no_mangle)]
pub extern "C" fn h5w_several_close(alloc: Global, several: &mut Handle, text: &mut [u8]) -> H5wTold
    ensures { OnSeveral (misuse, text.old) (ClosedSet text.old) several.old.at.held (result, text.new) several.new.at.held }
{
    calls::close(several, alloc, text)
}

/// No place is used again from now on. Answers Done or Misuse.
#[unsafe(no_mangle)]
pub extern "C" fn h5w_several_keep_retired(alloc: Global, several: &mut Handle) -> H5wTold
    ensures { OnSeveral misuse KeepsSet several.old.at.held result several.new.at.held }
{
    calls::keep_retired(several, alloc)
}

/// How many rows were appended to a dataset; 0 if there is none.
#[unsafe(no_mangle)]
pub extern "C" fn h5w_several_rows(alloc: Global, several: &mut Handle, dataset: usize) -> u64
    ensures { OnSeveral 0 (CountsOf rows_of dataset) several.old.at.held result several.new.at.held }
{
    calls::rows(several, alloc, dataset)
}

/// How many columns a row of a dataset has; 0 if there is none.
#[unsafe(no_mangle)]
pub extern "C" fn h5w_several_columns(alloc: Global, several: &mut Handle, dataset: usize) -> u64
    ensures { OnSeveral 0 (CountsOf (λ (part : Session). part.dataset.shape.cols) dataset) several.old.at.held result several.new.at.held }
{
    calls::columns(several, alloc, dataset)
}

/// How many datasets there are; 0 without a writer.
#[unsafe(no_mangle)]
pub extern "C" fn h5w_several_count(alloc: Global, several: &mut Handle) -> u64
    ensures { OnSeveral 0 (λ s n t. (n ≡ length s.session.parts) × (t ≡ s)) several.old.at.held result several.new.at.held }
{
    calls::count(several, alloc)
}

/// The handle holds nothing from now on.
#[unsafe(no_mangle)]
pub extern "C" fn h5w_several_free(alloc: Global, several: &mut Handle)
    ensures { several.new.at.held ≡ None }
{
    several.close(alloc);
}
