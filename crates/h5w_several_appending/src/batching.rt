//! The batches of an append to several datasets.
ghost use Rattle.std.specs.Prelude.{◌≡◌, ◌<◌, ◌≤◌, ℕ, List, OnOk, IfOk, length};
ghost use Rattle.h5w_batches.specs.Batches.{AreWholeRows};
ghost use Rattle.h5w_input.specs.LinesAhead.{IsLine};
ghost use Rattle.h5w_several_batches.specs.SetLines.{columns_at};
ghost use Rattle.h5w_appending.specs.Appending.{Unput};
ghost use Rattle.h5w_several_appending.specs.Taken.{columns_in};
ghost use Rattle.h5w_several_appending.specs.Appending.{AppendsBy, ClosesOn, FlushesBy, IsReady, IsSpelled, LinesOn, ReadyUnlessDisk, SaysOn};

use crate::counting::rows_each;
use crate::putting::put_all;
use h5w_appending::Target;
use h5w_files::DiskImage;
use h5w_image::Disk;
use h5w_input::{LineError, TextLine};
use h5w_several_batches::{BatchError, SetLine, set_line};
use h5w_several_writer::{AppendError, FlushError, SeveralWriter};
use h5w_text::{ErrorLine, Sink, write_numbers};

/// Where a line of the input stands.
#[derive(Clone, Copy)]
pub struct LinePlace<'c> {
    /// How many columns each dataset has.
    pub columns: &'c [u64],
    /// The dataset in use.
    pub used: usize,
    /// The line's number.
    pub number: u64,
}

/// Why an append ends before its input does.
#[derive(Drop)]
pub enum Ending {
    /// A refusal: the session can be closed, without what was not flushed.
    Refused(ErrorLine),
    /// The disk failed: nothing more is put.
    Disk,
    /// The sink failed.
    Sink,
}

impl From<BatchError> for Ending {
    ghost use Rattle.std.specs.Prelude.{◌≡◌};
    ghost use Rattle.h5w_several_appending.specs.Appending.{ending_of};

    ghost from_gives = { λ e ending. ending ≡ ending_of e };

    fn from(e: BatchError) -> Ending {
        Ending::Refused(match e {
            BatchError::Line(number) => ErrorLine::Line(number),
            BatchError::Input { limit } => ErrorLine::Input { limit },
            BatchError::Source => ErrorLine::Source,
            BatchError::OutOfMemory => ErrorLine::Memory,
        })
    }
}

impl From<LineError> for Ending {
    ghost use Rattle.std.specs.Prelude.{◌≡◌};
    ghost use Rattle.h5w_batches.specs.Reads.{error_of};
    ghost use Rattle.h5w_several_appending.specs.Appending.{ending_of};

    ghost from_gives = { λ e ending. ending ≡ ending_of (error_of e) };

    fn from(e: LineError) -> Ending {
        Ending::from(BatchError::from(e))
    }
}

/// Appends the values of the line of this number to dataset `d`. Where the image failed the session is stopped.
fn append_values<D: Disk>(
    session: &mut SeveralWriter,
    d: usize,
    values: &[i128],
    line: u64,
    file: &str,
    disk: &mut D,
) -> Result<(), Ending>
    requires ready { IsReady file.now session.old (D.view disk.old) }
    requires inside { d < length session.old.parts }
    requires rows { AreWholeRows (columns_at (columns_in session.old.parts) d) values.now }
    ensures unput { Unput file.now (D.view disk.old) (D.view disk.new) }
    ensures appends { AppendsBy file.now line d values.now session.old session.new (D.view disk.old) (D.view disk.new) result }
{
    let mut image = DiskImage { disk, name: file };
    match session.append(d, values, &mut image) {
        Ok(_) => Ok(()),
        Err(AppendError::OutOfRange { index, value }) => {
            Err(Ending::Refused(ErrorLine::Range { line, index, value }))
        }
        Err(AppendError::Chunks { chunks, limit }) => {
            Err(Ending::Refused(ErrorLine::FullChunks { chunks, limit }))
        }
        Err(AppendError::OutOfMemory) => Err(Ending::Refused(ErrorLine::Memory)),
        Err(AppendError::Failed) => {
            session.failed();
            Err(Ending::Disk)
        }
        Err(AppendError::Stopped) => unreachable!(),
        Err(AppendError::Busy { pending: _ }) => unreachable!(),
    }
}

/// Plans the pieces of the rows that wait in all datasets; none exactly where no row waits. Where the image failed the session is stopped.
fn flush<D: Disk>(session: &mut SeveralWriter, file: &str, disk: &mut D) -> Result<(), Ending>
    requires ready { IsReady file.now session.old (D.view disk.old) }
    ensures unput { Unput file.now (D.view disk.old) (D.view disk.new) }
    ensures flushes { FlushesBy file.now session.old session.new (D.view disk.old) (D.view disk.new) result }
{
    let mut image = DiskImage { disk, name: file };
    match session.flush(&mut image) {
        Ok(_) => Ok(()),
        Err(FlushError::Space(full)) => Err(Ending::Refused(ErrorLine::FullSpace {
            at: full.at,
            size: full.size,
            limit: full.limit,
        })),
        Err(FlushError::Deep) => Err(Ending::Refused(ErrorLine::Deep)),
        Err(FlushError::OutOfMemory) => Err(Ending::Refused(ErrorLine::Memory)),
        Err(FlushError::Failed) => {
            session.failed();
            Err(Ending::Disk)
        }
        Err(FlushError::Stopped) => unreachable!(),
        Err(FlushError::Busy { pending: _ }) => unreachable!(),
    }
}

/// Closes a batch: flushes the rows that wait, where there are any, puts all their pieces into the file, and then writes how many rows each
/// dataset has. `text` gets that line before. Nothing is put where the disk has failed since the beginning.
pub fn close_batch<K: Sink, D: Disk>(
    session: &mut SeveralWriter,
    target: Target<'_>,
    text: &mut Vec<u8>,
    sink: &mut K,
    disk: &mut D,
) -> Result<(), Ending>
    requires { IsReady target.file.now session.old (D.view disk.old) }
    ensures ready { ReadyUnlessDisk target.entry.file.now session.new (D.view disk.new) result }
    ensures columns { OnOk result (columns_in session.new.parts ≡ columns_in session.old.parts) }
    ensures closes { ClosesOn target.entry.faults target.entry.file.now session.old session.new (D.view disk.old) (D.view disk.new) (K.view sink.old) (K.view sink.new) result }
{
    text.clear();
    let rows = rows_each(session);
    match write_numbers(text, b"rows", rows.as_slice()) {
        Ok(()) => {}
        Err(_) => return Err(Ending::Refused(ErrorLine::Memory)),
    }
    flush(session, target.file, disk)?;
    if session.pending() == 0 {
        return Ok(());
    }
    put_all(session, target, disk)?;
    match sink.write(text) {
        Ok(()) => Ok(()),
        Err(_) => Err(Ending::Sink),
    }
}

/// Appends the values of a line of the input to the dataset in use, of which they are whole rows; no values close a batch.
fn take_values<K: Sink, D: Disk>(
    session: &mut SeveralWriter,
    place: LinePlace<'_>,
    values: &[i128],
    target: Target<'_>,
    text: &mut Vec<u8>,
    sink: &mut K,
    disk: &mut D,
) -> Result<(), Ending>
    requires ready { IsReady target.file.now session.old (D.view disk.old) }
    requires inside { place.used < length session.old.parts }
    requires rows { AreWholeRows (columns_at (columns_in session.old.parts) place.used) values.now }
    ensures ready { ReadyUnlessDisk target.entry.file.now session.new (D.view disk.new) result }
    ensures columns { OnOk result (columns_in session.new.parts ≡ columns_in session.old.parts) }
    ensures says { SaysOn target.entry.faults target.entry.file.now place.entry.used place.entry.number values.now session.old session.new (D.view disk.old) (D.view disk.new) (K.view sink.old) (K.view sink.new) result }
{
    if values.is_empty() {
        return close_batch(session, target, text, sink, disk);
    }
    append_values(session, place.used, values, place.number, target.file, disk)
}

/// Takes a line of the input that stands at this place. Answers which dataset is in use behind it.
pub fn take_line<K: Sink, D: Disk>(
    session: &mut SeveralWriter,
    place: LinePlace<'_>,
    line: &TextLine,
    target: Target<'_>,
    text: &mut Vec<u8>,
    sink: &mut K,
    disk: &mut D,
) -> Result<usize, Ending>
    requires ready { IsReady target.file.now session.old (D.view disk.old) }
    requires columns { place.columns.now ≡ columns_in session.old.parts }
    requires some { (d : ℕ) → 1 ≤ columns_at place.columns.now d }
    requires inside { place.used < length place.columns.now }
    ensures ready { ReadyUnlessDisk target.entry.file.now session.new (D.view disk.new) result }
    ensures columns { OnOk result (columns_in session.new.parts ≡ columns_in session.old.parts) }
    ensures inside { IfOk result (λ d. d < length place.entry.columns.now) }
    ensures spelled { IfOk result (λ d. (bytes : List ℕ) → IsLine line.now bytes → IsSpelled place.entry.columns.now place.entry.used bytes d) }
    ensures lines { (bytes : List ℕ) → IsLine line.now bytes → LinesOn target.entry.faults target.entry.file.now place.entry.columns.now place.entry.used place.entry.number bytes session.old session.new (D.view disk.old) (D.view disk.new) (K.view sink.old) (K.view sink.new) result }
{
    match set_line(target.alloc, place.columns, place.used, line, place.number)? {
        SetLine::Use(d) => Ok(d),
        SetLine::Numbers(values) => {
            take_values(session, place, values.as_slice(), target, text, sink, disk)?;
            Ok(place.used)
        }
    }
}
