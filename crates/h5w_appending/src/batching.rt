//! The batches of an append: a session whose rows are put into a file.
ghost use Rattle.std.specs.Prelude.{◌≡◌, ◌≤◌, ℕ, List, length, Some, OnOk};
ghost use Rattle.h5w_image.specs.View.{IsThere};
ghost use Rattle.h5w_batches.specs.Batches.{AreWholeRows};
ghost use Rattle.h5w_writer.specs.Sessions.{AreRows};
ghost use Rattle.h5w_input.specs.LinesAhead.{IsLine};
ghost use Rattle.h5w_input.specs.Scripts.{number_line_of};
ghost use Rattle.h5w_appending.specs.Appends.{columns_of};
ghost use Rattle.h5w_appending.specs.Appending.{AppendsBy, Closes, FlushRefused, FlushesBy, HasSome, IsReady, LineRefused, PutsBy, ReadyUnlessDisk, RunsOn, StepsOn, TakesLine, Unput};

use crate::putting::put_pending;
use crate::target::Target;
use h5w_batches::{BatchError, line_values};
use h5w_files::DiskImage;
use h5w_image::Disk;
use h5w_input::{LineError, TextLine};
use h5w_text::{ErrorLine, Sink, write_numbers};
use h5w_writer::{AppendError, FlushError, WriterCore};

/// Why an append ends before its input does.
#[derive(Drop)]
pub enum Ending {
    /// A refusal: the session can be closed, without what was not flushed.
    Refused(ErrorLine),
    /// The disk failed: nothing more is put.
    Disk,
    /// The sink failed.
    Sink,
}

impl From<BatchError> for Ending {
    ghost use Rattle.std.specs.Prelude.{◌≡◌};
    ghost use Rattle.h5w_appending.specs.Appending.{ending_of};

    ghost from_gives = { λ e ending. ending ≡ ending_of e };

    fn from(e: BatchError) -> Ending {
        Ending::Refused(match e {
            BatchError::Line(number) => ErrorLine::Line(number),
            BatchError::Input { limit } => ErrorLine::Input { limit },
            BatchError::Source => ErrorLine::Source,
            BatchError::OutOfMemory => ErrorLine::Memory,
        })
    }
}

impl From<LineError> for Ending {
    ghost use Rattle.std.specs.Prelude.{◌≡◌};
    ghost use Rattle.h5w_batches.specs.Reads.{error_of};
    ghost use Rattle.h5w_appending.specs.Appending.{ending_of};

    ghost from_gives = { λ e ending. ending ≡ ending_of (error_of e) };

    fn from(e: LineError) -> Ending {
        Ending::from(BatchError::from(e))
    }
}

/// Appends the values of the line of this number: pieces of rows that are written before their flush are pending then. Where the image failed
/// the session is stopped.
fn append_values<D: Disk>(
    session: &mut WriterCore,
    values: &[i128],
    line: u64,
    file: &str,
    disk: &mut D,
) -> Result<(), Ending>
    requires ready { IsReady file.now session.old (D.view disk.old) }
    requires rows { AreRows session.old values.now }
    ensures unput { Unput file.now (D.view disk.old) (D.view disk.new) }
    ensures appends { AppendsBy file.now line values.now session.old session.new (D.view disk.old) (D.view disk.new) result }
{
    let mut image = DiskImage { disk, name: file };
    match session.append(values, &mut image) {
        Ok(_) => Ok(()),
        Err(AppendError::OutOfRange { index, value }) => {
            Err(Ending::Refused(ErrorLine::Range { line, index, value }))
        }
        Err(AppendError::Chunks { chunks, limit }) => {
            Err(Ending::Refused(ErrorLine::FullChunks { chunks, limit }))
        }
        Err(AppendError::OutOfMemory) => Err(Ending::Refused(ErrorLine::Memory)),
        Err(AppendError::Failed) => {
            session.failed();
            Err(Ending::Disk)
        }
        Err(AppendError::Stopped) => unreachable!(),
        Err(AppendError::Busy { pending: _ }) => unreachable!(),
    }
}

/// Plans the pieces of the rows that wait; none exactly where no row waits. Where the image failed the session is stopped.
fn flush<D: Disk>(session: &mut WriterCore, file: &str, disk: &mut D) -> Result<(), Ending>
    requires ready { IsReady file.now session.old (D.view disk.old) }
    ensures unput { Unput file.now (D.view disk.old) (D.view disk.new) }
    ensures flushes { FlushesBy file.now session.old session.new (D.view disk.old) (D.view disk.new) result }
{
    let mut image = DiskImage { disk, name: file };
    match session.flush(&mut image) {
        Ok(_) => Ok(()),
        Err(FlushError::Space(full)) => Err(Ending::Refused(ErrorLine::FullSpace {
            at: full.at,
            size: full.size,
            limit: full.limit,
        })),
        Err(FlushError::Deep) => Err(Ending::Refused(ErrorLine::Deep)),
        Err(FlushError::OutOfMemory) => Err(Ending::Refused(ErrorLine::Memory)),
        Err(FlushError::Failed) => {
            session.failed();
            Err(Ending::Disk)
        }
        Err(FlushError::Stopped) => unreachable!(),
        Err(FlushError::Busy { pending: _ }) => unreachable!(),
    }
}

/// Puts the session's pending pieces into the file. Where the disk fails, or has failed since the beginning, the session is
/// stopped.
pub fn put_all<D: Disk>(
    session: &mut WriterCore,
    target: Target<'_>,
    disk: &mut D,
) -> Result<(), Ending>
    requires there { IsThere (D.view disk.old) target.file.now }
    requires room { length session.old.pending ≤ (D.view disk.old).pieces }
    requires end { session.old.places.end ≤ (D.view disk.old).end target.file.now }
    ensures { PutsBy target.entry.faults target.entry.file.now session.old session.new (D.view disk.old) (D.view disk.new) result }
{
    if disk.faults() != target.faults {
        session.failed();
        return Err(Ending::Disk);
    }
    match put_pending(session, target.file, disk) {
        Ok(()) => Ok(()),
        Err(_) => {
            session.failed();
            Err(Ending::Disk)
        }
    }
}

/// Closes a batch: flushes the rows that wait, where there are any, puts all their pieces into the file, and then writes how many rows it
/// has. `text` gets that line before. Nothing is put where the disk has failed since the beginning.
pub fn close_batch<K: Sink, D: Disk>(
    session: &mut WriterCore,
    target: Target<'_>,
    text: &mut Vec<u8>,
    sink: &mut K,
    disk: &mut D,
) -> Result<(), Ending>
    requires { IsReady target.file.now session.old (D.view disk.old) }
    ensures ready { ReadyUnlessDisk target.entry.file.now session.new (D.view disk.new) result }
    ensures columns { OnOk result (columns_of session.new ≡ columns_of session.old) }
    ensures steps { StepsOn target.entry.faults target.entry.file.now session.old session.new Closes (FlushRefused session.old) (D.view disk.old) (D.view disk.new) (K.view sink.old) (K.view sink.new) result }
{
    text.clear();
    match write_numbers(text, b"rows", &[session.rows()]) {
        Ok(()) => {}
        Err(_) => return Err(Ending::Refused(ErrorLine::Memory)),
    }
    flush(session, target.file, disk)?;
    if session.pending() == 0 {
        return Ok(());
    }
    put_all(session, target, disk)?;
    match sink.write(text) {
        Ok(()) => Ok(()),
        Err(_) => Err(Ending::Sink),
    }
}

/// Appends the values of a line of the input, which are whole rows, and puts the pieces of those rows that are written before their flush;
/// no values close a batch.
pub fn take_values<K: Sink, D: Disk>(
    session: &mut WriterCore,
    values: &[i128],
    number: u64,
    target: Target<'_>,
    text: &mut Vec<u8>,
    sink: &mut K,
    disk: &mut D,
) -> Result<(), Ending>
    requires ready { IsReady target.file.now session.old (D.view disk.old) }
    requires rows { AreWholeRows (columns_of session.old) values.now }
    ensures ready { ReadyUnlessDisk target.entry.file.now session.new (D.view disk.new) result }
    ensures columns { OnOk result (columns_of session.new ≡ columns_of session.old) }
    ensures steps { (bytes : List ℕ) → number_line_of (columns_of session.old) bytes ≡ Some values.now → StepsOn target.entry.faults target.entry.file.now session.old session.new (TakesLine bytes) (LineRefused bytes number session.old) (D.view disk.old) (D.view disk.new) (K.view sink.old) (K.view sink.new) result }
{
    if values.is_empty() {
        return close_batch(session, target, text, sink, disk);
    }
    append_values(session, values, number, target.file, disk)?;
    put_all(session, target, disk)
}

/// Appends values, whole rows, and puts the pieces of those rows that are written before their flush. False: they are refused, and nothing
/// was appended.
pub fn take_run<D: Disk>(
    session: &mut WriterCore,
    values: &[i128],
    target: Target<'_>,
    disk: &mut D,
) -> Result<bool, Ending>
    requires ready { IsReady target.file.now session.old (D.view disk.old) }
    requires rows { AreWholeRows (columns_of session.old) values.now }
    requires some { 1 ≤ length values.now }
    ensures { RunsOn target.entry.faults target.entry.file.now session.old session.new values.now (D.view disk.old) (D.view disk.new) result }
{
    match append_values(session, values, 0, target.file, disk) {
        Ok(()) => match put_all(session, target, disk) {
            Ok(()) => Ok(true),
            Err(ending) => Err(ending),
        },
        Err(Ending::Refused(_)) => Ok(false),
        Err(Ending::Disk) => Err(Ending::Disk),
        Err(Ending::Sink) => Err(Ending::Sink),
    }
}

/// Takes the values of a line of the input; an empty one closes a batch.
pub fn take_line<K: Sink, D: Disk>(
    session: &mut WriterCore,
    line: &TextLine,
    number: u64,
    target: Target<'_>,
    text: &mut Vec<u8>,
    sink: &mut K,
    disk: &mut D,
) -> Result<(), Ending>
    requires ready { IsReady target.file.now session.old (D.view disk.old) }
    ensures ready { ReadyUnlessDisk target.entry.file.now session.new (D.view disk.new) result }
    ensures columns { OnOk result (columns_of session.new ≡ columns_of session.old) }
    ensures spelled { OnOk result ((bytes : List ℕ) → IsLine line.now bytes → HasSome (number_line_of (columns_of session.old) bytes)) }
    ensures steps { (bytes : List ℕ) → IsLine line.now bytes → StepsOn target.entry.faults target.entry.file.now session.old session.new (TakesLine bytes) (LineRefused bytes number session.old) (D.view disk.old) (D.view disk.new) (K.view sink.old) (K.view sink.new) result }
{
    let values = line_values(target.alloc, session.columns(), line, number)?;
    take_values(session, &values, number, target, text, sink, disk)
}
