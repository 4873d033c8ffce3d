//! What C calls of a reader.
ghost use Rattle.std.specs.Prelude.{◌≡◌, IsFalse, None, Some};
ghost use Rattle.std.specs.Option.{option_map};
ghost use Rattle.h5w_model.specs.Calls.{rows_seen};
ghost use Rattle.h5w_model.specs.Unfinished.{fed_left};
ghost use Rattle.h5w_reader.specs.Cores.{reader as core_of};
ghost use Rattle.h5w_reader.specs.Readers.{StepTells};
ghost use Rattle.h5w_reader.specs.declared.step.Step.TheVariants as steps;
ghost use Rattle.h5w_handles.specs.Codes.{misuse};
ghost use Rattle.h5w_handles.specs.Copies.{as_signed, as_unsigned};
ghost use Rattle.h5w_handles.specs.Handles.{OnReader, OpensReader, QuitsReader};
ghost use Rattle.h5w_handles.specs.ReaderCalls.{BeginsRead, Copied, Gave, IsKnownShape, IsWantedPlace, Refreshed, TellsRefusal, place_if};
ghost use Rattle.h5w_handles.specs.Shapes.{shape_if};
ghost use Rattle.h5w_handles.specs.declared.held.Held.{Held};
ghost use Rattle.h5w_handles.specs.declared.reader.ReaderState.{ReaderState};

use h5w_handles::{H5wPlace, H5wShape, H5wTold, Handle};
use std::alloc::Global;

/// Opens a reader of the dataset of this name in the handle, which holds nothing. Where a dataset header changes between its looks, a call tries so
/// often, 1 to 1,000 times. Answers More, Busy, Misuse or Memory.
#[unsafe(no_mangle)]
pub extern "C" fn h5w_reader_open(
    alloc: Global,
    reader: &mut Handle,
    name: &[u8],
    attempts: u32,
) -> H5wTold
    ensures { OpensReader name.now attempts reader.old.at.held result reader.new.at.held }
{
    reader.open_reader(alloc, name, attempts)
}

/// The next look of the unfinished call goes into `place`; false where there is none, and `place` stays.
#[unsafe(no_mangle)]
pub extern "C" fn h5w_reader_want(alloc: Global, reader: &mut Handle, place: &mut H5wPlace) -> bool
    ensures look { OnReader None IsWantedPlace reader.old.at.held (place_if result place.new) reader.new.at.held }
    ensures kept { IsFalse result → place.new ≡ place.old }
{
    match reader.want(alloc) {
        Some(look) => {
            *place = look;
            true
        }
        None => false,
    }
}

/// Goes on with the bytes that the wanted look gave: all of it, fewer only where the file ends. Answers Done with the rows, More, Values with
/// their number, Again, Shrunk, Refused, Memory or Misuse.
#[unsafe(no_mangle)]
pub extern "C" fn h5w_reader_give(alloc: Global, reader: &mut Handle, bytes: &[u8]) -> H5wTold
    ensures gave { OnReader misuse (Gave bytes.now) reader.old.at.held result reader.new.at.held }
    ensures rows { (s t : ReaderState) → reader.old.at.held ≡ Some (Held.Reader s) → reader.new.at.held ≡ Some (Held.Reader t) → result.code ≡ 0
        → StepTells (option_map (fed_left bytes.now) (core_of s.core).left) (core_of s.core) (steps.Rows result.count) (core_of t.core) }
{
    reader.give(alloc, bytes)
}

/// Begins a refresh. Answers More, Busy or Misuse.
#[unsafe(no_mangle)]
pub extern "C" fn h5w_reader_refresh(alloc: Global, reader: &mut Handle) -> H5wTold
    ensures { OnReader misuse Refreshed reader.old.at.held result reader.new.at.held }
{
    reader.refresh(alloc)
}

/// Begins a read of `count` rows from row `from` on. Answers More, Values with their number, Busy, Rows with those that were seen, Memory or
/// Misuse.
#[unsafe(no_mangle)]
pub extern "C" fn h5w_reader_read(
    alloc: Global,
    reader: &mut Handle,
    from: u64,
    count: u64,
) -> H5wTold
    ensures { OnReader misuse (BeginsRead from count) reader.old.at.held result reader.new.at.held }
{
    reader.read(alloc, from, count)
}

/// Puts the values of the last read from value `from` on at the front of `out`, as many as there is room for, and answers how many. It ends before
/// a value below -2^63, or from 2^63 on.
#[unsafe(no_mangle)]
pub extern "C" fn h5w_reader_values(
    alloc: Global,
    reader: &mut Handle,
    from: u64,
    out: &mut [i64],
) -> u64
    ensures { OnReader (0, out.old) (Copied as_signed from out.old) reader.old.at.held (result, out.new) reader.new.at.held }
{
    reader.values(alloc, from, out)
}

/// The same of values from 0 on and below 2^64.
#[unsafe(no_mangle)]
pub extern "C" fn h5w_reader_values_u64(
    alloc: Global,
    reader: &mut Handle,
    from: u64,
    out: &mut [u64],
) -> u64
    ensures { OnReader (0, out.old) (Copied as_unsigned from out.old) reader.old.at.held (result, out.new) reader.new.at.held }
{
    reader.values(alloc, from, out)
}

/// How many rows were seen; 0 without a reader.
#[unsafe(no_mangle)]
pub extern "C" fn h5w_reader_rows(alloc: Global, reader: &mut Handle) -> u64
    ensures { OnReader 0 (λ s n t. (n ≡ rows_seen (core_of s.core).known) × (t ≡ s)) reader.old.at.held result reader.new.at.held }
{
    reader.rows_seen(alloc)
}

/// The shape of the dataset goes into `shape`, as the last open or refresh found it; false before one was answered with rows, and `shape` stays.
#[unsafe(no_mangle)]
pub extern "C" fn h5w_reader_shape(alloc: Global, reader: &mut Handle, shape: &mut H5wShape) -> bool
    ensures shape { OnReader None IsKnownShape reader.old.at.held (shape_if result shape.new) reader.new.at.held }
    ensures kept { IsFalse result → shape.new ≡ shape.old }
{
    match reader.shape(alloc) {
        Some(known) => {
            *shape = known;
            true
        }
        None => false,
    }
}

/// The line that the program prints of the last refusal (of the codes Again, Shrunk, Refused and Memory that a look led to) goes to the front of
/// `text`, as much of it as there is room for; it ends with the byte 0a. Answers how many bytes it has: 0 without one, and if memory is wanting.
#[unsafe(no_mangle)]
pub extern "C" fn h5w_reader_refusal(alloc: Global, reader: &mut Handle, text: &mut [u8]) -> u64
    ensures { OnReader (0, text.old) (TellsRefusal text.old) reader.old.at.held (result, text.new) reader.new.at.held }
{
    reader.put_refusal(alloc, text)
}

/// Ends the unfinished call, if there is one, as if it had not begun.
#[unsafe(no_mangle)]
pub extern "C" fn h5w_reader_quit(alloc: Global, reader: &mut Handle)
    ensures { QuitsReader reader.old.at.held reader.new.at.held }
{
    reader.quit(alloc);
}

/// The handle holds nothing from now on.
#[unsafe(no_mangle)]
pub extern "C" fn h5w_reader_close(alloc: Global, reader: &mut Handle)
    ensures { reader.new.at.held ≡ None }
{
    reader.close(alloc);
}
