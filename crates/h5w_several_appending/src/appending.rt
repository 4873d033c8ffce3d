//! The command itself.
ghost use Rattle.std.specs.Prelude.{◌≡◌, ◌<◌, ◌≤◌, ◌+◌, ◌^◌, ℕ, length, Ok, OnOk, map};
ghost use Rattle.std.specs.List.{All};
ghost use Rattle.h5w_writer.specs.Sessions.{rows_of};
ghost use Rattle.h5w_input.specs.LinesAhead.{lines_ahead};
ghost use Rattle.h5w_batches.specs.Inputs.{SameSource, input_limit, outside};
ghost use Rattle.h5w_several_batches.specs.SetLines.{columns_at};
ghost use Rattle.h5w_several_appending.specs.Taken.{closed_line, columns_in};
ghost use Rattle.h5w_several_appending.specs.Tells.{SeveralEnds};
ghost use Rattle.h5w_several_appending.specs.Ends.{SeveralTellsEnd};
ghost use Rattle.h5w_several_appending.specs.Appending.{ClosesBy, FinishesBy, IsBegun, IsReady, ReadyUnlessDisk, SettlesOn, TakesInputFrom, TakesInputOn};

use crate::batching::{Ending, LinePlace, close_batch, take_line};
use crate::counting::{columns_each, rows_each};
use crate::opening::{open, release};
use crate::putting::{close, put_all};
use h5w_appending::{Target, Terms};
use h5w_batches::INPUT_LIMIT;
use h5w_image::Disk;
use h5w_input::{Intake, Lines, Next};
use h5w_names::Names;
use h5w_several_writer::SeveralWriter;
use h5w_text::{ErrorLine, Sink, Source, Status, say, say_line, tell, write_numbers};
use std::alloc::Global;

/// Takes the lines of an input, one after another, to its end, which closes the last batch.
fn take_lines<S: Source, K: Sink, D: Disk>(
    session: &mut SeveralWriter,
    columns: &[u64],
    lines: &mut Lines<'_, S>,
    target: Target<'_>,
    text: &mut Vec<u8>,
    sink: &mut K,
    disk: &mut D,
) -> Result<(), Ending>
    requires ready { IsReady target.file.now session.old (D.view disk.old) }
    requires columns { columns.now ≡ columns_in session.old.parts }
    requires some { (d : ℕ) → 1 ≤ columns_at columns.now d }
    requires sets { 1 ≤ length columns.now }
    requires room { length lines.old.intake.now.held + lines.old.intake.now.more ≡ input_limit }
    requires limit { lines.old.intake.now.limit ≡ input_limit }
    ensures ready { ReadyUnlessDisk target.entry.file.now session.new (D.view disk.new) result }
    ensures takes { TakesInputOn target.entry.faults target.entry.file.now session.old session.new (outside (lines_ahead (S.view lines.old.source.now) lines.old.intake.now)) (S.view lines.new.source.now) (D.view disk.old) (D.view disk.new) (K.view sink.old) (K.view sink.new) result }
    ensures source { SameSource (S.view lines.old.source.now) (S.view lines.new.source.now) }
    ensures same_reference { lines.new.source.ghost_name ≡ lines.old.source.ghost_name }
    ensures same_intake { lines.new.intake.ghost_name ≡ lines.old.intake.ghost_name }
{
    let mut used = 0;
    let mut number = 0;
    loop {
        match lines.next()? {
            Next::Line(line) => {
                number += 1;
                let place = LinePlace {
                    columns,
                    used,
                    number,
                };
                used = take_line(session, place, &line, target, text, sink, disk)?;
            }
            Next::Last(line) => {
                let place = LinePlace {
                    columns,
                    used,
                    number: number + 1,
                };
                take_line(session, place, &line, target, text, sink, disk)?;
                return close_batch(session, target, text, sink, disk);
            }
            Next::End => return close_batch(session, target, text, sink, disk),
        }
    }
}

/// Appends the lines of the source, one after another.
fn take_source<S: Source, K: Sink, D: Disk>(
    session: &mut SeveralWriter,
    columns: &[u64],
    target: Target<'_>,
    text: &mut Vec<u8>,
    source: &mut S,
    sink: &mut K,
    disk: &mut D,
) -> Result<(), Ending>
    requires ready { IsReady target.file.now session.old (D.view disk.old) }
    requires columns { columns.now ≡ columns_in session.old.parts }
    requires some { (d : ℕ) → 1 ≤ columns_at columns.now d }
    requires sets { 1 ≤ length columns.now }
    ensures ready { ReadyUnlessDisk target.entry.file.now session.new (D.view disk.new) result }
    ensures takes { TakesInputOn target.entry.faults target.entry.file.now session.old session.new (S.view source.old) (S.view source.new) (D.view disk.old) (D.view disk.new) (K.view sink.old) (K.view sink.new) result }
    ensures source { SameSource (S.view source.old) (S.view source.new) }
{
    let mut intake = Intake::new(target.alloc, INPUT_LIMIT);
    let mut lines = Lines::new(target.alloc, source, &mut intake);
    take_lines(session, columns, &mut lines, target, text, sink, disk)
}

/// Puts what is pending, by which an opened file says that it is written, and appends the lines of the source. `text` gets the last line of all.
fn take_all<S: Source, K: Sink, D: Disk>(
    session: &mut SeveralWriter,
    target: Target<'_>,
    text: &mut Vec<u8>,
    source: &mut S,
    sink: &mut K,
    disk: &mut D,
) -> Result<(), Ending>
    requires { IsBegun target.file.now session.old (D.view disk.old) }
    ensures ready { ReadyUnlessDisk target.entry.file.now session.new (D.view disk.new) result }
    ensures takes { TakesInputFrom target.entry.faults target.entry.file.now session.old session.new (S.view source.old) (S.view source.new) (D.view disk.old) (D.view disk.new) (K.view sink.old) (K.view sink.new) result }
    ensures text { OnOk result (text.new.items ≡ closed_line (map rows_of session.new.parts)) }
    ensures source { SameSource (S.view source.old) (S.view source.new) }
{
    let columns = columns_each(session);
    put_all(session, target, disk)?;
    take_source(
        session,
        columns.as_slice(),
        target,
        text,
        source,
        sink,
        disk,
    )?;
    text.clear();
    let rows = rows_each(session);
    match write_numbers(text, b"closed", rows.as_slice()) {
        Ok(()) => Ok(()),
        Err(_) => Err(Ending::Refused(ErrorLine::Memory)),
    }
}

/// Closes the session, and puts its last piece into the file.
fn shut<D: Disk>(
    session: &mut SeveralWriter,
    target: Target<'_>,
    disk: &mut D,
) -> Result<(), Ending>
    requires { IsReady target.file.now session.old (D.view disk.old) }
    ensures { ClosesBy target.entry.faults target.entry.file.now session.old (D.view disk.old) (D.view disk.new) result }
{
    close(session);
    put_all(session, target, disk)
}

/// Closes the session behind what was taken of the input, unless the disk failed.
fn settle<D: Disk>(
    taken: Result<(), Ending>,
    session: &mut SeveralWriter,
    target: Target<'_>,
    disk: &mut D,
) -> Result<(), Ending>
    requires { ReadyUnlessDisk target.file.now session.old (D.view disk.old) taken }
    ensures taken { OnOk result (taken ≡ Ok tt) }
    ensures settles { SettlesOn target.entry.faults target.entry.file.now session.old (D.view disk.old) (D.view disk.new) taken result }
{
    match taken {
        Ok(()) => shut(session, target, disk),
        Err(Ending::Refused(error)) => match shut(session, target, disk) {
            Ok(()) => Err(Ending::Refused(error)),
            Err(ending) => Err(ending),
        },
        Err(Ending::Disk) => Err(Ending::Disk),
        Err(Ending::Sink) => match shut(session, target, disk) {
            Ok(()) => Err(Ending::Sink),
            Err(_) => Err(Ending::Sink),
        },
    }
}

/// Begins over the file, appends the lines of the source, and closes the session. `text` gets the last line of all.
fn append_all<S: Source, K: Sink, D: Disk>(
    alloc: Global,
    terms: Terms<'_>,
    names: &Names,
    text: &mut Vec<u8>,
    source: &mut S,
    sink: &mut K,
    disk: &mut D,
) -> Result<(), Ending>
    requires some { 1 ≤ length names.now }
    requires few { length names.now ≤ 8 }
    requires names { All (λ name. length name ≤ 512) names.now }
    requires low { 1024 ≤ terms.limit }
    requires high { terms.limit ≤ 2 ^ 40 }
    requires budget { (1024 ≤ terms.budget) × (terms.budget ≤ 2 ^ 30) }
    ensures finishes { FinishesBy terms.entry.by terms.entry.file.now names.now terms.entry.limit (S.view source.old) (S.view source.new) (D.view disk.old) (D.view disk.new) (K.view sink.old) (K.view sink.new) text.new.items result }
    ensures source { SameSource (S.view source.old) (S.view source.new) }
{
    let target = Target {
        alloc,
        file: terms.file,
        faults: disk.faults(),
    };
    let mut session = match open(alloc, terms, names, disk) {
        Ok(session) => session,
        Err(error) => return Err(Ending::Refused(error)),
    };
    let taken = take_all(&mut session, target, text, source, sink, disk);
    let settled = settle(taken, &mut session, target, disk);
    release(session);
    settled
}

/// Appends the numbers of the source to the datasets that the root group's links of these names lead to, in the file of these terms, which
/// grows to their `limit` of bytes at most. Each line has the values of rows of the dataset in use, at first the first; a line `use I` says
/// that later ones mean dataset I, from 1 to their number. An empty line and the end of the input close a batch: the rows of all datasets
/// that wait become visible, dataset after dataset, and how many rows each has then is written. Of each dataset at most the `budget` of bytes
/// may wait; a line with which more would is refused, as for want of memory. If `keeps` is set no place that is let go is used again. After a
/// refusal what was not closed is dropped, and nobody writes the file.
///
/// The file is opened, or taken over from another session that left it: that begins with the rows that were flushed, and nobody else may
/// write the file from then on.
pub fn append<S: Source, K: Sink, D: Disk>(
    alloc: Global,
    terms: Terms<'_>,
    names: &Names,
    source: &mut S,
    sink: &mut K,
    disk: &mut D,
) -> Status
    requires some { 1 ≤ length names.now }
    requires few { length names.now ≤ 8 }
    requires names { All (λ name. length name ≤ 512) names.now }
    requires low { 1024 ≤ terms.limit }
    requires high { terms.limit ≤ 2 ^ 40 }
    requires budget { (1024 ≤ terms.budget) × (terms.budget ≤ 2 ^ 30) }
    ensures tells { SeveralTellsEnd terms.entry.by terms.entry.file.now names.now terms.entry.limit (S.view source.old) (S.view source.new) (D.view disk.old) (D.view disk.new) result (K.view sink.old) (K.view sink.new) }
    ensures ends { SeveralEnds terms.entry.by terms.entry.file.now names.now terms.entry.limit (S.view source.old) (S.view source.new) (D.view disk.old) (D.view disk.new) result (K.view sink.old) (K.view sink.new) }
    ensures source { SameSource (S.view source.old) (S.view source.new) }
{
    let mut text = Vec::new(alloc);
    match append_all(alloc, terms, names, &mut text, source, sink, disk) {
        Ok(()) => say(&text, Status::Done, sink),
        Err(Ending::Refused(error)) => tell(alloc, &error, sink),
        Err(Ending::Disk) => say_line(&ErrorLine::Disk, sink),
        Err(Ending::Sink) => Status::Sink,
    }
}
