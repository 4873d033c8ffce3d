//! The command that says what readers find wherever a writer stops.
ghost use Rattle.std.specs.Prelude.{◌≡◌, ◌≢◌, ◌+◌, ◌++◌, [], ℕ, List, length, flat_map, IfErr, IfOk, OnOk};
ghost use Rattle.std.specs.List.{All};
ghost use Rattle.h5w_model.specs.Lawful.{Line as ScriptedLine};
ghost use Rattle.h5w_options.specs.Options.{AreOptions};
ghost use Rattle.h5w_options.specs.declared.options.Options.{Options as Created};
ghost use Rattle.h5w_stop.specs.declared.outcome.Outcome.TheVariants.{Refused};
ghost use Rattle.h5w_stop.specs.declared.report.Run.{Run as OneRun};
ghost use Rattle.h5w_input.specs.LinesAhead.{IsLine, lines_ahead};
ghost use Rattle.h5w_batches.specs.Inputs.{SameSource, input_limit, outside};
ghost use Rattle.h5w_stopping.specs.Stops.{IsTold, ReadsAll, RefusesLine, StopEnds, StopEndsWell, StopRefuses, SweepsTo, TakesLine, error_line, run_text};
ghost use Rattle.h5w_stopping.specs.Writing.{Follows};

use crate::writing::{begin, release, take};
use h5w_batches::INPUT_LIMIT;
use h5w_core::{Options, World};
use h5w_input::{Intake, LineError, Lines, Next, TextError, TextLine, script_line};
use h5w_stop::{Outcome, Report, Run, sweep};
use h5w_text::{ErrorLine, OutOfMemory, Sink, Source, Status, say, tell, write_numbers};
use std::alloc::Global;

/// Adds the line of a run.
fn write_run(out: &mut Vec<u8>, run: &Run) -> Result<(), OutOfMemory>
    requires { run.now.outcome ≢ Refused }
    ensures { OnOk result (out.new.items ≡ out.old.items ++ run_text run.now) }
{
    match run.outcome {
        Outcome::NoFile => write_numbers(out, b"none", &[run.first, run.last]),
        Outcome::Rows(rows) => write_numbers(out, b"rows", &[rows, run.first, run.last]),
        Outcome::Refused => unreachable!(),
    }
}

/// The lines of a report, one for each run.
fn text_of(alloc: Global, runs: &[Run]) -> Result<Vec<u8>, OutOfMemory>
    requires { All (λ (run : OneRun). run.outcome ≢ Refused) runs.now }
    ensures { IfOk result (λ text. text.items ≡ flat_map run_text runs.now) }
{
    let mut text = Vec::new(alloc);
    for run in runs {
        write_run(&mut text, run)?;
    }
    Ok(text)
}

/// The lines of the report of the world's log: what the open of a dataset of this name finds behind each of its pieces.
fn told(alloc: Global, world: &World, name: &[u8]) -> Result<Vec<u8>, OutOfMemory>
    requires { (o : Created) × (lines : List ScriptedLine) × Follows o lines world.now × (o.name ≡ name.now) }
    ensures { (o : Created) (lines : List ScriptedLine) → Follows o lines world.now → o.name ≡ name.now → IfOk result (λ text. IsTold o lines text.items) }
{
    let report = sweep(alloc, world.journal(), name)?;
    text_of(alloc, report.as_slice())
}

/// Does the line of this number.
fn take_line(
    alloc: Global,
    world: &mut World,
    line: &TextLine,
    number: u64,
) -> Result<(), ErrorLine>
    requires { (o : Created) × (lines : List ScriptedLine) × Follows o lines world.old }
    ensures taken { (o : Created) (lines : List ScriptedLine) → Follows o lines world.old → OnOk result ((bytes : List ℕ) → IsLine line.now bytes → TakesLine o lines bytes world.new) }
    ensures refused { (o : Created) (lines : List ScriptedLine) → Follows o lines world.old → IfErr result (λ e. (bytes : List ℕ) → IsLine line.now bytes → RefusesLine o lines number bytes e) }
{
    let TextLine::Whole(bytes) = line else {
        return Err(ErrorLine::Line(number));
    };
    match script_line(alloc, bytes.as_slice(), world.columns()) {
        Ok(line) => take(world, line, number),
        Err(TextError::Grammar) => Err(ErrorLine::Line(number)),
        Err(TextError::OutOfMemory) => Err(ErrorLine::Memory),
    }
}

/// The error of a line that the source did not give.
fn error_of(error: LineError) -> ErrorLine
    ensures { result ≡ error_line error }
{
    match error {
        LineError::Failed => ErrorLine::Source,
        LineError::Input { limit } => ErrorLine::Input { limit },
        LineError::OutOfMemory => ErrorLine::Memory,
    }
}

/// Does lines, one after another, to their end.
fn take_lines<S: Source>(
    alloc: Global,
    world: &mut World,
    lines: &mut Lines<'_, S>,
) -> Result<(), ErrorLine>
    requires follows { (o : Created) × Follows o [] world.old }
    requires room { length lines.old.intake.now.held + lines.old.intake.now.more ≡ input_limit }
    requires limit { lines.old.intake.now.limit ≡ input_limit }
    ensures done { (o : Created) → Follows o [] world.old → OnOk result (ReadsAll o (outside (lines_ahead (S.view lines.old.source.now) lines.old.intake.now)) (S.view lines.new.source.now) world.new) }
    ensures refused { (o : Created) → Follows o [] world.old → IfErr result (StopRefuses o (outside (lines_ahead (S.view lines.old.source.now) lines.old.intake.now)) (S.view lines.new.source.now)) }
    ensures source { SameSource (S.view lines.old.source.now) (S.view lines.new.source.now) }
    ensures same_reference { lines.new.source.ghost_name ≡ lines.old.source.ghost_name }
    ensures same_intake { lines.new.intake.ghost_name ≡ lines.old.intake.ghost_name }
{
    let mut number = 0;
    loop {
        match lines.next() {
            Ok(Next::Line(line)) => {
                number += 1;
                take_line(alloc, world, &line, number)?;
            }
            Ok(Next::Last(line)) => return take_line(alloc, world, &line, number + 1),
            Ok(Next::End) => return Ok(()),
            Err(error) => return Err(error_of(error)),
        }
    }
}

/// Does the lines of the input, one after another.
fn script<S: Source>(alloc: Global, world: &mut World, source: &mut S) -> Result<(), ErrorLine>
    requires { (o : Created) × Follows o [] world.old }
    ensures done { (o : Created) → Follows o [] world.old → OnOk result (ReadsAll o (S.view source.old) (S.view source.new) world.new) }
    ensures refused { (o : Created) → Follows o [] world.old → IfErr result (StopRefuses o (S.view source.old) (S.view source.new)) }
    ensures source { SameSource (S.view source.old) (S.view source.new) }
{
    let mut intake = Intake::new(alloc, INPUT_LIMIT);
    let mut lines = Lines::new(alloc, source, &mut intake);
    take_lines(alloc, world, &mut lines)
}

/// The report of the whole input on a world that did no line yet.
fn swept_on<S: Source>(
    alloc: Global,
    world: &mut World,
    name: &[u8],
    source: &mut S,
) -> Result<Vec<u8>, ErrorLine>
    requires { (o : Created) × Follows o [] world.old × (o.name ≡ name.now) }
    ensures sweeps { (o : Created) → Follows o [] world.old → o.name ≡ name.now → IfOk result (λ text. SweepsTo o (S.view source.old) (S.view source.new) text.items) }
    ensures refused { (o : Created) → Follows o [] world.old → IfErr result (StopRefuses o (S.view source.old) (S.view source.new)) }
    ensures source { SameSource (S.view source.old) (S.view source.new) }
{
    match script(alloc, world, source) {
        Ok(()) => {}
        Err(error) => return Err(error),
    }
    match told(alloc, world, name) {
        Ok(text) => Ok(text),
        Err(OutOfMemory) => Err(ErrorLine::Memory),
    }
}

/// The report of the whole input on a new file.
fn swept<S: Source>(alloc: Global, options: &Options, source: &mut S) -> Result<Vec<u8>, ErrorLine>
    requires { AreOptions options.now }
    ensures sweeps { IfOk result (λ text. SweepsTo options.now (S.view source.old) (S.view source.new) text.items) }
    ensures refused { IfErr result (StopRefuses options.now (S.view source.old) (S.view source.new)) }
    ensures source { SameSource (S.view source.old) (S.view source.new) }
{
    let mut world = match begin(alloc, options) {
        Ok(world) => world,
        Err(_) => return Err(ErrorLine::Memory),
    };
    let swept = swept_on(alloc, &mut world, options.name.as_slice(), source);
    release(world);
    swept
}

/// Creates a file in memory by these options, and does the lines of the input on it: rows that are appended, and flushes. All pieces of a
/// line become visible at once. Then writes what a reader's open finds behind each piece, from none to all: a line `none A B` for the
/// positions without a file, and a line `rows N A B` for each flush that added rows, from the piece that shows them.
pub fn stop<S: Source, K: Sink>(
    alloc: Global,
    options: &Options,
    source: &mut S,
    sink: &mut K,
) -> Status
    requires { AreOptions options.now }
    ensures stops { StopEnds options.now result (S.view source.old) (S.view source.new) (K.view sink.old) (K.view sink.new) }
    ensures completes { StopEndsWell options.now result (S.view source.old) (S.view source.new) (K.view sink.old) (K.view sink.new) }
    ensures source { SameSource (S.view source.old) (S.view source.new) }
{
    match swept(alloc, options, source) {
        Ok(text) => say(&text, Status::Done, sink),
        Err(error) => tell(alloc, &error, sink),
    }
}
