//! The command that appends to a file.
ghost use Rattle.std.specs.Prelude.{◌≡◌, ◌≤◌, ◌+◌, ◌^◌, length, false, Ok, OnOk};
ghost use Rattle.h5w_model.specs.Logs.{Log};
ghost use Rattle.h5w_image.specs.View.{IsThere};
ghost use Rattle.h5w_writer.specs.Sessions.{rows_of};
ghost use Rattle.h5w_writer.specs.Stands.{Stands};
ghost use Rattle.h5w_input.specs.LinesAhead.{Stays, lines_ahead};
ghost use Rattle.h5w_files.specs.Images.{LeavesFiles};
ghost use Rattle.h5w_batches.specs.Batches.{AreWholeRows};
ghost use Rattle.h5w_batches.specs.Inputs.{SameSource, input_limit, outside};
ghost use Rattle.h5w_appending.specs.Taken.{closed_text};
ghost use Rattle.h5w_appending.specs.Appends.{AppendEnds, columns_of};
ghost use Rattle.h5w_appending.specs.Tells.{TellsEnd};
ghost use Rattle.h5w_appending.specs.Appending.{ClosesBy, FinishesBy, HasSize, HeldOn, IsBegun, IsReady, LooksOpen, NextOn, OpensBy, ReadyUnlessDisk, SettlesOn, TakesAhead, TakesInputFrom, TakesInputOn};

use crate::batching::{Ending, close_batch, put_all, take_line, take_run, take_values};
use crate::putting::close;
use crate::target::Target;
use crate::terms::Terms;
use h5w_batches::INPUT_LIMIT;
use h5w_files::DiskImage;
use h5w_image::Disk;
use h5w_input::{Intake, Lines, Next};
use h5w_several_open::begin_one;
use h5w_text::{ErrorLine, Sink, Source, Status, say, say_line, tell, write_numbers};
use h5w_writer::WriterCore;
use h5w_writer_lines::open_line;
use std::alloc::Global;

/// How many values of lines that stand next are appended at once, at most.
const RUN: usize = 1024;

/// Takes the lines that stand next, as far as they are held whole and each is one value of few digits, and appends them all at once. Answers
/// how many were taken: none where a row has more values, where one line stands there alone, or where they are refused.
fn take_ahead<S: Source, D: Disk>(
    session: &mut WriterCore,
    lines: &mut Lines<'_, S>,
    target: Target<'_>,
    values: &mut Vec<i128>,
    disk: &mut D,
) -> Result<u64, Ending>
    requires ready { IsReady target.file.now session.old (D.view disk.old) }
    ensures ahead { TakesAhead target.entry.faults target.entry.file.now session.old session.new (lines_ahead (S.view lines.old.source.now) lines.old.intake.now) (lines_ahead (S.view lines.new.source.now) lines.new.intake.now) (D.view disk.old) (D.view disk.new) result }
    ensures source { lines.new.source.now ≡ lines.old.source.now }
    ensures same_reference { lines.new.source.ghost_name ≡ lines.old.source.ghost_name }
    ensures same_intake { lines.new.intake.ghost_name ≡ lines.old.intake.ghost_name }
{
    values.clear();
    if session.columns() != 1 || values.reserve(RUN).is_err() {
        return Ok(0);
    }
    let bytes = lines.values_ahead(values);
    if values.len() < 2 {
        return Ok(0);
    }
    if take_run(session, values, target, disk)? {
        lines.pass(bytes);
        return Ok(values.len() as u64);
    }
    Ok(0)
}

/// Takes the line of this number, which was read and has these values, and those that stand next, as [`take_ahead`] does. Answers how many
/// of these were taken.
fn take_held<S: Source, K: Sink, D: Disk>(
    session: &mut WriterCore,
    lines: &mut Lines<'_, S>,
    values: &mut Vec<i128>,
    number: u64,
    target: Target<'_>,
    text: &mut Vec<u8>,
    sink: &mut K,
    disk: &mut D,
) -> Result<u64, Ending>
    requires ready { IsReady target.file.now session.old (D.view disk.old) }
    requires rows { AreWholeRows (columns_of session.old) values.old.items }
    ensures held { HeldOn target.entry.faults target.entry.file.now number values.old.items session.old session.new (lines_ahead (S.view lines.old.source.now) lines.old.intake.now) (lines_ahead (S.view lines.new.source.now) lines.new.intake.now) (D.view disk.old) (D.view disk.new) (K.view sink.old) (K.view sink.new) result }
    ensures source { lines.new.source.now ≡ lines.old.source.now }
    ensures same_reference { lines.new.source.ghost_name ≡ lines.old.source.ghost_name }
    ensures same_intake { lines.new.intake.ghost_name ≡ lines.old.intake.ghost_name }
{
    take_values(session, values, number, target, text, sink, disk)?;
    take_ahead(session, lines, target, values, disk)
}

/// Takes the next line, which has this number. Answers whether more may stand behind it.
fn take_next<S: Source, K: Sink, D: Disk>(
    session: &mut WriterCore,
    lines: &mut Lines<'_, S>,
    number: u64,
    target: Target<'_>,
    text: &mut Vec<u8>,
    sink: &mut K,
    disk: &mut D,
) -> Result<bool, Ending>
    requires { IsReady target.file.now session.old (D.view disk.old) }
    ensures next { NextOn target.entry.faults target.entry.file.now number session.old session.new (lines_ahead (S.view lines.old.source.now) lines.old.intake.now) (S.view lines.new.source.now) lines.new.intake.now (D.view disk.old) (D.view disk.new) (K.view sink.old) (K.view sink.new) result }
    ensures stays { Stays (lines_ahead (S.view lines.old.source.now) lines.old.intake.now) (lines_ahead (S.view lines.new.source.now) lines.new.intake.now) }
    ensures same_reference { lines.new.source.ghost_name ≡ lines.old.source.ghost_name }
    ensures same_intake { lines.new.intake.ghost_name ≡ lines.old.intake.ghost_name }
{
    match lines.next()? {
        Next::Line(line) => {
            take_line(session, &line, number, target, text, sink, disk)?;
            Ok(true)
        }
        Next::Last(line) => {
            take_line(session, &line, number, target, text, sink, disk)?;
            Ok(false)
        }
        Next::End => Ok(false),
    }
}

/// Appends the lines of an input, one after another, to its end, which closes the last batch.
fn take_lines<S: Source, K: Sink, D: Disk>(
    session: &mut WriterCore,
    columns: u64,
    lines: &mut Lines<'_, S>,
    target: Target<'_>,
    text: &mut Vec<u8>,
    sink: &mut K,
    disk: &mut D,
) -> Result<(), Ending>
    requires ready { IsReady target.file.now session.old (D.view disk.old) }
    requires columns { columns ≡ columns_of session.old }
    requires room { length lines.old.intake.now.held + lines.old.intake.now.more ≡ input_limit }
    requires limit { lines.old.intake.now.limit ≡ input_limit }
    ensures ready { ReadyUnlessDisk target.entry.file.now session.new (D.view disk.new) result }
    ensures takes { TakesInputOn target.entry.faults target.entry.file.now session.old session.new (outside (lines_ahead (S.view lines.old.source.now) lines.old.intake.now)) (S.view lines.new.source.now) (D.view disk.old) (D.view disk.new) (K.view sink.old) (K.view sink.new) result }
    ensures source { SameSource (S.view lines.old.source.now) (S.view lines.new.source.now) }
    ensures same_reference { lines.new.source.ghost_name ≡ lines.old.source.ghost_name }
    ensures same_intake { lines.new.intake.ghost_name ≡ lines.old.intake.ghost_name }
{
    let mut values = Vec::new(target.alloc);
    let mut number = 0;
    loop {
        number += 1;
        if lines.take_numbers(columns, &mut values) {
            number += take_held(
                session,
                lines,
                &mut values,
                number,
                target,
                text,
                sink,
                disk,
            )?;
        } else if take_next(session, lines, number, target, text, sink, disk)? {
            continue;
        } else {
            return close_batch(session, target, text, sink, disk);
        }
    }
}

/// Appends the lines of the source, one after another.
fn take_source<S: Source, K: Sink, D: Disk>(
    session: &mut WriterCore,
    columns: u64,
    target: Target<'_>,
    text: &mut Vec<u8>,
    source: &mut S,
    sink: &mut K,
    disk: &mut D,
) -> Result<(), Ending>
    requires ready { IsReady target.file.now session.old (D.view disk.old) }
    requires columns { columns ≡ columns_of session.old }
    ensures ready { ReadyUnlessDisk target.entry.file.now session.new (D.view disk.new) result }
    ensures takes { TakesInputOn target.entry.faults target.entry.file.now session.old session.new (S.view source.old) (S.view source.new) (D.view disk.old) (D.view disk.new) (K.view sink.old) (K.view sink.new) result }
    ensures source { SameSource (S.view source.old) (S.view source.new) }
{
    let mut intake = Intake::new(target.alloc, INPUT_LIMIT);
    let mut lines = Lines::new(target.alloc, source, &mut intake);
    take_lines(session, columns, &mut lines, target, text, sink, disk)
}

/// Puts what is pending, by which an opened file says that it is written, and appends the lines of the source. `text` gets the last line of all.
fn take_all<S: Source, K: Sink, D: Disk>(
    session: &mut WriterCore,
    target: Target<'_>,
    text: &mut Vec<u8>,
    source: &mut S,
    sink: &mut K,
    disk: &mut D,
) -> Result<(), Ending>
    requires begun { IsBegun target.file.now session.old (D.view disk.old) }
    ensures ready { ReadyUnlessDisk target.entry.file.now session.new (D.view disk.new) result }
    ensures takes { TakesInputFrom target.entry.faults target.entry.file.now session.old session.new (S.view source.old) (S.view source.new) (D.view disk.old) (D.view disk.new) (K.view sink.old) (K.view sink.new) result }
    ensures text { OnOk result (text.new.items ≡ closed_text (rows_of session.new)) }
    ensures source { SameSource (S.view source.old) (S.view source.new) }
{
    let columns = session.columns();
    put_all(session, target, disk)?;
    take_source(session, columns, target, text, source, sink, disk)?;
    text.clear();
    match write_numbers(text, b"closed", &[session.rows()]) {
        Ok(()) => Ok(()),
        Err(_) => Err(Ending::Refused(ErrorLine::Memory)),
    }
}

/// Closes the session, and puts its last piece into the file.
fn shut<D: Disk>(session: &mut WriterCore, target: Target<'_>, disk: &mut D) -> Result<(), Ending>
    requires { IsReady target.file.now session.old (D.view disk.old) }
    ensures { ClosesBy target.entry.faults target.entry.file.now session.old (D.view disk.old) (D.view disk.new) result }
{
    close(session);
    put_all(session, target, disk)
}

/// Closes the session behind what was taken of the input, unless the disk failed.
fn settle<D: Disk>(
    taken: Result<(), Ending>,
    session: &mut WriterCore,
    target: Target<'_>,
    disk: &mut D,
) -> Result<(), Ending>
    requires { ReadyUnlessDisk target.file.now session.old (D.view disk.old) taken }
    ensures taken { OnOk result (taken ≡ Ok tt) }
    ensures settles { SettlesOn target.entry.faults target.entry.file.now session.old (D.view disk.old) (D.view disk.new) taken result }
{
    match taken {
        Ok(()) => shut(session, target, disk),
        Err(Ending::Refused(error)) => match shut(session, target, disk) {
            Ok(()) => Err(Ending::Refused(error)),
            Err(ending) => Err(ending),
        },
        Err(Ending::Disk) => Err(Ending::Disk),
        Err(Ending::Sink) => match shut(session, target, disk) {
            Ok(()) => Err(Ending::Sink),
            Err(_) => Err(Ending::Sink),
        },
    }
}

/// Looks at a file of this size, and begins a session over it.
fn look_open<D: Disk>(
    alloc: Global,
    terms: Terms<'_>,
    size: u64,
    name: &[u8],
    disk: &mut D,
) -> Result<WriterCore, ErrorLine>
    requires there { IsThere (D.view disk.old) terms.file.now }
    requires sized { HasSize (D.view disk.old) terms.file.now size }
    requires name { length name.now ≤ 512 }
    requires low { 1024 ≤ terms.limit }
    requires high { terms.limit ≤ 2 ^ 40 }
    requires budget { (1024 ≤ terms.budget) × (terms.budget ≤ 2 ^ 30) }
    ensures disk { LeavesFiles (D.view disk.old).told (D.view disk.old) (D.view disk.new) }
    ensures opens { LooksOpen terms.entry.by terms.entry.file.now name.now terms.entry.limit terms.entry.budget (D.view disk.old) (D.view disk.new) result }
{
    let mut image = DiskImage {
        disk,
        name: terms.file,
    };
    match begin_one(
        alloc,
        terms.by,
        &mut image,
        size,
        name,
        terms.limit,
        terms.budget,
    ) {
        Ok(session) => Ok(session),
        Err(error) => Err(open_line(error)),
    }
}

/// Lets a session go. It has many parts, and each place that lets it go is dear to prove.
fn release(_session: WriterCore) {}

/// What is retired stays retired, where that is asked for.
fn retire(session: &mut WriterCore, keeps: bool)
    requires { session.old.keeps ≡ false }
    ensures session { session.new ≡ record session.old { keeps = keeps } }
    ensures stands { (log : Log) → Stands session.old log → Stands session.new log }
{
    if keeps {
        session.keep_retired();
    }
}

/// Begins a session over the file, with room for what is pending and the piece that closes the session.
fn open<D: Disk>(
    alloc: Global,
    terms: Terms<'_>,
    name: &[u8],
    disk: &mut D,
) -> Result<WriterCore, ErrorLine>
    requires name { length name.now ≤ 512 }
    requires low { 1024 ≤ terms.limit }
    requires high { terms.limit ≤ 2 ^ 40 }
    requires budget { (1024 ≤ terms.budget) × (terms.budget ≤ 2 ^ 30) }
    ensures { OpensBy terms.entry.by terms.entry.file.now name.now terms.entry.limit terms.entry.budget terms.entry.keeps (D.view disk.old) (D.view disk.new) result }
{
    let size = match disk.size(terms.file) {
        Ok(Some(size)) => size,
        Ok(None) => return Err(ErrorLine::Missing),
        Err(_) => return Err(ErrorLine::Disk),
    };
    let mut session = match look_open(alloc, terms, size, name, disk) {
        Ok(session) => session,
        Err(error) => return Err(error),
    };
    match disk.reserve(terms.file, session.pending() + 1, session.end()) {
        Ok(()) => {}
        Err(_) => {
            release(session);
            return Err(ErrorLine::Memory);
        }
    }
    retire(&mut session, terms.keeps);
    Ok(session)
}

/// Begins over the file, appends the lines of the source, and closes the session. `text` gets the last line of all.
fn append_all<S: Source, K: Sink, D: Disk>(
    alloc: Global,
    terms: Terms<'_>,
    name: &[u8],
    text: &mut Vec<u8>,
    source: &mut S,
    sink: &mut K,
    disk: &mut D,
) -> Result<(), Ending>
    requires name { length name.now ≤ 512 }
    requires low { 1024 ≤ terms.limit }
    requires high { terms.limit ≤ 2 ^ 40 }
    requires budget { (1024 ≤ terms.budget) × (terms.budget ≤ 2 ^ 30) }
    ensures finishes { FinishesBy terms.entry.by terms.entry.file.now name.now terms.entry.limit terms.entry.budget terms.entry.keeps (S.view source.old) (S.view source.new) (D.view disk.old) (D.view disk.new) (K.view sink.old) (K.view sink.new) text.new.items result }
    ensures source { SameSource (S.view source.old) (S.view source.new) }
{
    let target = Target {
        alloc,
        file: terms.file,
        faults: disk.faults(),
    };
    let mut session = match open(alloc, terms, name, disk) {
        Ok(session) => session,
        Err(error) => return Err(Ending::Refused(error)),
    };
    let taken = take_all(&mut session, target, text, source, sink, disk);
    let settled = settle(taken, &mut session, target, disk);
    release(session);
    settled
}

/// Appends the numbers of the source to the dataset that the root group's link of `name` leads to in the file of these terms, which grows to
/// their `limit` of bytes at most: each line has the values of rows, and an empty line and the end of the input close a batch. A batch
/// becomes visible at once, and how many rows the file has then is written. Of a batch that leaves more than the `budget` of bytes unwritten
/// some rows are written before its end, and no reader reaches them. If `keeps` is set no place that is let go is used again.
/// After a refusal what was not closed is dropped, and nobody writes the file.
///
/// The file is opened, or taken over from another session that left it: that begins with the rows that were flushed, and nobody else may
/// write the file from then on.
pub fn append<S: Source, K: Sink, D: Disk>(
    alloc: Global,
    terms: Terms<'_>,
    name: &[u8],
    source: &mut S,
    sink: &mut K,
    disk: &mut D,
) -> Status
    requires name { length name.now ≤ 512 }
    requires low { 1024 ≤ terms.limit }
    requires high { terms.limit ≤ 2 ^ 40 }
    requires budget { (1024 ≤ terms.budget) × (terms.budget ≤ 2 ^ 30) }
    ensures tells { TellsEnd terms.entry.by terms.entry.file.now name.now terms.entry.limit (S.view source.old) (S.view source.new) (D.view disk.old) (D.view disk.new) result (K.view sink.old) (K.view sink.new) }
    ensures appends { AppendEnds terms.entry.by terms.entry.file.now name.now terms.entry.limit terms.entry.budget terms.entry.keeps (S.view source.old) (S.view source.new) (D.view disk.old) (D.view disk.new) result (K.view sink.old) (K.view sink.new) }
    ensures source { SameSource (S.view source.old) (S.view source.new) }
{
    let mut text = Vec::new(alloc);
    match append_all(alloc, terms, name, &mut text, source, sink, disk) {
        Ok(()) => say(&text, Status::Done, sink),
        Err(Ending::Refused(error)) => tell(alloc, &error, sink),
        Err(Ending::Disk) => say_line(&ErrorLine::Disk, sink),
        Err(Ending::Sink) => Status::Sink,
    }
}
