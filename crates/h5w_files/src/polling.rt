//! The command that polls a file.
ghost use Rattle.std.specs.Prelude.{◌≡◌, ◌≤◌, ◌+◌, ◌-◌, ◌&&◌, ℕ, List, nat_lt, true, None, IsSome, IfErr, IfOk, OnOk, Some, Err};
ghost use Rattle.h5w_model.specs.Calls.{rows_seen};
ghost use Rattle.h5w_model.specs.Causes.{Rose};
ghost use Rattle.h5w_model.specs.Unfinished.{rows_left, rows_program, wanted, with_left};
ghost use Rattle.h5w_image.specs.View.{Looked};
ghost use Rattle.h5w_looks.specs.Still.{IsStill};
ghost use Rattle.h5w_reader.specs.Cores as cores;
ghost use Rattle.h5w_reader.specs.Readers.{reader_rules};
ghost use Rattle.h5w_answers.specs.Answering.{IsForRows};
ghost use Rattle.h5w_files.specs.Ends.{EndsWell};
ghost use Rattle.h5w_files.specs.Polling.{FindsRows, FindsValues, HasJustBegun, IsOfCall, OnceGives, PollGives, TimesGive, ToldBy, is_doubtful, may_pass, read_line};
ghost use Rattle.h5w_files.specs.Polls.{PollEnds, count_text, poll_of, values_text};

use crate::answering::answered;
use crate::image::DiskImage;
use crate::polls::Polls;
use h5w_image::{Disk, Failed, PieceRead};
use h5w_model::{OutOfMemory, ReadError, Values};
use h5w_reader::{ReadBegin, ReaderCore, Step};
use h5w_text::{ErrorLine, Sink, Status, tell, write_numbers, write_rows};
use std::alloc::Global;

/// A refusal that bytes half written may give is told once it stood for so many looks of its call. A file system may show a look a
/// write half done, for as long as the writer is interrupted there: some 20 microseconds, or a turn of another program, which are
/// some milliseconds. A look takes half a microsecond and more, and so all of them take 25 milliseconds and more.
const STANDS: u64 = 50_000;

/// Why a poll ends before its last call.
enum Ending {
    Error(ErrorLine),
    /// The sink failed.
    Sink,
}

impl From<ErrorLine> for Ending {
    ghost use Rattle.std.specs.Prelude.{◌≡◌};
    ghost use Rattle.h5w_files.specs.declared.polling.Ending.TheVariants.{Error as error};

    ghost from_gives = { λ e ending. ending ≡ error e };

    fn from(e: ErrorLine) -> Ending {
        Ending::Error(e)
    }
}

impl From<Failed> for Ending {
    ghost use Rattle.std.specs.Prelude.{◌≡◌};
    ghost use Rattle.h5w_files.specs.declared.polling.Ending.TheVariants.{Sink};

    ghost from_gives = { λ _ ending. ending ≡ Sink };

    fn from(_e: Failed) -> Ending {
        Ending::Sink
    }
}

impl From<OutOfMemory> for Ending {
    ghost use Rattle.std.specs.Prelude.{◌≡◌};
    ghost use Rattle.h5w_text.specs.declared.error.ErrorLine.TheVariants.{Memory as no_memory};
    ghost use Rattle.h5w_files.specs.declared.polling.Ending.TheVariants.{Error as error};

    ghost from_gives = { λ _ ending. ending ≡ error no_memory };

    fn from(_e: OutOfMemory) -> Ending {
        Ending::Error(ErrorLine::Memory)
    }
}

/// The line of a reader's refusal.
fn read_line(error: ReadError) -> ErrorLine
    ensures { result ≡ read_line error }
{
    match error {
        ReadError::OutOfMemory => ErrorLine::Memory,
        error => ErrorLine::Read(error),
    }
}

/// Whether bytes half written may give this refusal. Some of these also come of bytes whose sum is right.
fn may_pass(refusal: &ReadError) -> bool
    ensures { result ≡ may_pass refusal.now }
{
    matches!(
        refusal,
        ReadError::NotHdf5
            | ReadError::Super(_)
            | ReadError::Header { .. }
            | ReadError::Unsupported(_)
            | ReadError::Damaged { .. }
    )
}

/// Whether a call is refused, and bytes half written may give that refusal.
fn is_doubtful(found: &Result<u64, ErrorLine>) -> bool
    ensures { result ≡ is_doubtful found.now }
{
    match found {
        Err(ErrorLine::Read(refusal)) => may_pass(refusal),
        _ => false,
    }
}

/// The rows that the reader's call finds. Each look takes one of `looks`, as long as some are left.
fn rows_of_call<I: PieceRead>(
    reader: &mut ReaderCore,
    image: &mut I,
    looks: &mut u64,
) -> Result<u64, ErrorLine>
    requires begun { IsSome (wanted (cores.reader reader.old).left) }
    requires call { IsForRows (cores.reader reader.old).left }
    ensures looked { Looked (I.view image.old) (I.view image.new) }
    ensures kinds { IfErr result IsOfCall }
    ensures cause { result ≡ Err ErrorLine.Disk → Rose (I.view image.old).faults (I.view image.new).faults }
    ensures idle { OnOk result ((cores.reader reader.new).left ≡ None) }
    ensures seen { IfOk result (λ rows. rows_seen (cores.reader reader.new).known ≡ rows) }
    ensures exact { (img : List ℕ) → IsStill (I.view image.old) img → FindsRows img (cores.reader reader.old) result (cores.reader reader.new) }
    ensures ended { is_doubtful result ≡ true → cores.reader reader.new ≡ with_left (cores.reader reader.old) None }
    ensures fewer { looks.new ≤ looks.old - 1 }
{
    match answered(reader, image, looks)? {
        Step::Rows(rows) => Ok(rows),
        Step::Refused(error) => Err(read_line(error)),
        Step::More => unreachable!(),
        Step::Values(_) => unreachable!(),
    }
}

/// The rows that the reader's call finds, which has just begun. As long as some of `looks` are left, it is begun anew where bytes
/// half written may give its refusal.
fn rows_found<I: PieceRead>(
    reader: &mut ReaderCore,
    image: &mut I,
    looks: &mut u64,
) -> Result<u64, ErrorLine>
    requires begun { IsSome (wanted (cores.reader reader.old).left) }
    requires call { IsForRows (cores.reader reader.old).left }
    requires fresh { HasJustBegun (cores.reader reader.old) }
    ensures looked { Looked (I.view image.old) (I.view image.new) }
    ensures kinds { IfErr result IsOfCall }
    ensures cause { result ≡ Err ErrorLine.Disk → Rose (I.view image.old).faults (I.view image.new).faults }
    ensures idle { OnOk result ((cores.reader reader.new).left ≡ None) }
    ensures seen { IfOk result (λ rows. rows_seen (cores.reader reader.new).known ≡ rows) }
    ensures exact { (img : List ℕ) → IsStill (I.view image.old) img → FindsRows img (cores.reader reader.old) result (cores.reader reader.new) }
    ensures stood { is_doubtful result ≡ true → looks.new ≡ 0 }
{
    'again: loop {
        let found = rows_of_call(reader, image, looks);
        if *looks == 0 || !is_doubtful(&found) {
            return found;
        }
        refresh(reader);
    }
}

/// The values of `count` rows from row `from` on, all of which the reader's last call found.
fn values_found<I: PieceRead>(
    reader: &mut ReaderCore,
    image: &mut I,
    from: u64,
    count: u64,
) -> Result<Values, ErrorLine>
    requires idle { (cores.reader reader.old).left ≡ None }
    requires seen { from + count ≤ rows_seen (cores.reader reader.old).known }
    ensures looked { Looked (I.view image.old) (I.view image.new) }
    ensures kinds { IfErr result IsOfCall }
    ensures cause { result ≡ Err ErrorLine.Disk → Rose (I.view image.old).faults (I.view image.new).faults }
    ensures still_idle { OnOk result ((cores.reader reader.new).left ≡ None) }
    ensures exact { (img : List ℕ) → IsStill (I.view image.old) img → FindsValues img from count (cores.reader reader.old) result (cores.reader reader.new) }
{
    match reader.read(from, count) {
        Ok(Some(values)) => return Ok(values),
        Ok(None) => {}
        Err(ReadBegin::OutOfMemory) => return Err(ErrorLine::Memory),
        Err(_) => unreachable!(),
    }
    let mut uncounted = 0;
    match answered(reader, image, &mut uncounted)? {
        Step::Values(values) => Ok(values),
        Step::Refused(error) => Err(read_line(error)),
        Step::More => unreachable!(),
        Step::Rows(_) => unreachable!(),
    }
}

/// Writes how many rows a call found.
fn write_count<K: Sink>(alloc: Global, rows: u64, sink: &mut K) -> Result<(), Ending>
    ensures { ToldBy result (count_text rows) (K.view sink.old) (K.view sink.new) }
{
    let mut text = Vec::new(alloc);
    write_numbers(&mut text, b"rows", &[rows])?;
    sink.write(&text)?;
    Ok(())
}

/// Writes the lines of so many rows.
fn write_lines<K: Sink>(
    alloc: Global,
    rows: u64,
    values: &[i128],
    sink: &mut K,
) -> Result<(), Ending>
    requires { 1 ≤ rows }
    ensures { ToldBy result (values_text rows values.now) (K.view sink.old) (K.view sink.new) }
{
    let mut text = Vec::new(alloc);
    write_rows(&mut text, rows, values.len() as u64 / rows, values)?;
    sink.write(&text)?;
    Ok(())
}

/// Whether rows behind the first `printed` are to be written.
fn has_new(values: bool, printed: u64, rows: u64) -> bool
    ensures { result ≡ (values && nat_lt printed rows) }
{
    values && printed < rows
}

/// Answers the reader's call, which has just begun: writes how many rows it finds, and then, where `values` is set, those behind
/// the first `printed`.
fn write_once<I: PieceRead, K: Sink>(
    alloc: Global,
    reader: &mut ReaderCore,
    image: &mut I,
    values: bool,
    printed: u64,
    sink: &mut K,
) -> Result<u64, Ending>
    requires begun { IsSome (wanted (cores.reader reader.old).left) }
    requires call { IsForRows (cores.reader reader.old).left }
    requires fresh { HasJustBegun (cores.reader reader.old) }
    ensures looked { Looked (I.view image.old) (I.view image.new) }
    ensures idle { OnOk result ((cores.reader reader.new).left ≡ None) }
    ensures gives { OnceGives values printed (I.view image.old) (I.view image.new) (cores.reader reader.old) result (cores.reader reader.new) (K.view sink.old) (K.view sink.new) }
{
    let mut looks = STANDS;
    let rows = rows_found(reader, image, &mut looks)?;
    write_count(alloc, rows, sink)?;
    if !has_new(values, printed, rows) {
        return Ok(rows);
    }
    let found = values_found(reader, image, printed, rows - printed)?;
    write_lines(alloc, rows - printed, found.as_slice(), sink)?;
    Ok(rows)
}

/// Begins a refresh.
fn refresh(reader: &mut ReaderCore)
    requires { (cores.reader reader.old).left ≡ None }
    ensures begun { cores.reader reader.new ≡ with_left (cores.reader reader.old) (Some (rows_left (rows_program (cores.reader reader.old).rules (cores.reader reader.old).known))) }
    ensures wanting { IsSome (wanted (cores.reader reader.new).left) }
    ensures call { IsForRows (cores.reader reader.new).left }
    ensures fresh { HasJustBegun (cores.reader reader.new) }
{
    match reader.refresh() {
        Ok(()) => {}
        Err(_) => unreachable!(),
    }
}

/// Makes the calls of a new reader, the first of which has begun.
fn write_times<I: PieceRead, K: Sink>(
    alloc: Global,
    reader: &mut ReaderCore,
    image: &mut I,
    polls: Polls,
    sink: &mut K,
) -> Result<(), Ending>
    requires begun { IsSome (wanted (cores.reader reader.old).left) }
    requires call { IsForRows (cores.reader reader.old).left }
    requires fresh { HasJustBegun (cores.reader reader.old) }
    requires some { 1 ≤ polls.times }
    ensures looked { Looked (I.view image.old) (I.view image.new) }
    ensures gives { TimesGive polls.times polls.values (I.view image.old) (I.view image.new) (cores.reader reader.old) result (K.view sink.old) (K.view sink.new) }
{
    let mut printed = write_once(alloc, reader, image, polls.values, 0, sink)?;
    for _ in 1..polls.times {
        refresh(reader);
        printed = write_once(alloc, reader, image, polls.values, printed, sink)?;
    }
    Ok(())
}

/// Lets a reader go. It has many parts, and each place that lets it go is dear to prove.
fn release(_reader: ReaderCore) {}

/// Polls the file of the name `file`, whose errors are not told yet.
fn polled<K: Sink, D: Disk>(
    alloc: Global,
    file: &str,
    name: &[u8],
    polls: Polls,
    sink: &mut K,
    disk: &mut D,
) -> Result<(), Ending>
    requires { 1 ≤ polls.times }
    ensures { PollGives file.now name.now polls.times polls.attempts polls.values (D.view disk.old) (D.view disk.new) result (K.view sink.old) (K.view sink.new) }
{
    match disk.size(file) {
        Ok(Some(_)) => {}
        Ok(None) => return Err(Ending::Error(ErrorLine::Missing)),
        Err(_) => return Err(Ending::Error(ErrorLine::Disk)),
    }
    let Ok(mut reader) = ReaderCore::open(alloc, name, polls.attempts) else {
        return Err(Ending::Error(ErrorLine::Memory));
    };
    let mut image = DiskImage { disk, name: file };
    let written = write_times(alloc, &mut reader, &mut image, polls, sink);
    release(reader);
    written
}

/// Opens the dataset that the root group's link of `name` leads to in the file of the name `file`, and refreshes it until `polls` has its
/// `times` of calls. Writes how many rows each of these calls finds before the next begins, and where `values` is set, behind it each row
/// that was not written yet. A file system may show a write half done: a call whose refusal may come of it is begun anew until it took
/// 50,000 looks. Rows show that number, since a look leaves no trace that a clause could count.
pub fn poll<K: Sink, D: Disk>(
    alloc: Global,
    file: &str,
    name: &[u8],
    polls: Polls,
    sink: &mut K,
    disk: &mut D,
) -> Status
    requires { 1 ≤ polls.times }
    ensures completes { EndsWell (poll_of (reader_rules name.now polls.attempts) polls.values) file.now (D.view disk.old) (D.view disk.new) result (K.view sink.old) (K.view sink.new) }
    ensures polls { PollEnds file.now name.now polls.times polls.attempts polls.values (D.view disk.old) (D.view disk.new) result (K.view sink.old) (K.view sink.new) }
{
    match polled(alloc, file, name, polls, sink, disk) {
        Ok(()) => Status::Done,
        Err(Ending::Error(error)) => tell(alloc, &error, sink),
        Err(Ending::Sink) => Status::Sink,
    }
}
