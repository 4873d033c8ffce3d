//! A writer alone: the lines of its script, each piece of which becomes visible at once.
ghost use Rattle.std.specs.Prelude.{◌≡◌, ◌+◌, ◌∷◌, ◌++◌, ℕ, List, [], length, Some, IfErr, IfOk, OnOk};
ghost use Rattle.h5w_model.specs.Lawful.{Line as ScriptedLine, ScriptState, adds, flushes};
ghost use Rattle.h5w_options.specs.Options.{AreOptions};
ghost use Rattle.h5w_options.specs.declared.options.Options.{Options as Created};
ghost use Rattle.h5w_input.specs.Words.{line_of_script};
ghost use Rattle.h5w_core.specs.Worlds.{AreRowsBy, HaveOneLog, rules_of};
ghost use Rattle.h5w_playing.specs.Answers.{InRange};
ghost use Rattle.h5w_stopping.specs.Writing.{Follows, IsAmid, Refuses, ShowsAll, writing};

use h5w_core::{Event, Options, OutOfMemory, Reply, World};
use h5w_input::{ScriptLine, Values};
use h5w_text::ErrorLine;
use std::alloc::Global;

/// How often a reader's call may look at a dataset header that changes; no reader is opened here.
const ATTEMPTS: u32 = 8;

/// A world that did no line yet.
pub fn begin(alloc: Global, options: &Options) -> Result<World, OutOfMemory>
    requires { AreOptions options.now }
    ensures { IfOk result (Follows options.now []) }
{
    World::new(alloc, options, ATTEMPTS)
}

/// Lets a world go. It has many parts, and each place that lets it go is dear to prove.
pub fn release(_world: World) {}

/// Makes all pending pieces visible, one after another.
fn show_all(world: &mut World)
    requires { (s : ScriptState) × HaveOneLog world.old s }
    ensures { ShowsAll world.old world.new }
{
    let pieces = world.pending();
    for _ in 0..pieces {
        let Ok(_) = world.step(Event::Visible) else {
            unreachable!();
        };
    }
}

/// Appends the values of the line of this number.
fn append(world: &mut World, values: Values, number: u64) -> Result<(), ErrorLine>
    requires rows { AreRowsBy (rules_of world.old) values }
    requires follows { (o : Created) × (lines : List ScriptedLine) × Follows o lines world.old }
    ensures amid { (o : Created) (lines : List ScriptedLine) → Follows o lines world.old → OnOk result (IsAmid o lines (adds values) world.new) }
    ensures refused { (o : Created) (lines : List ScriptedLine) → Follows o lines world.old → IfErr result (Refuses o lines number (adds values)) }
{
    let Ok(reply) = world.step(Event::Append(values)) else {
        return Err(ErrorLine::Memory);
    };
    match reply {
        Reply::Appended { .. } => Ok(()),
        Reply::OutOfRange { index, value } => Err(ErrorLine::Range {
            line: number,
            index,
            value,
        }),
        Reply::FullChunks { chunks, limit } => Err(ErrorLine::FullChunks { chunks, limit }),
        _ => unreachable!(),
    }
}

/// Plans the pieces of the rows that wait, by a line of any number.
fn flush(world: &mut World) -> Result<(), ErrorLine>
    requires { (o : Created) × (lines : List ScriptedLine) × Follows o lines world.old }
    ensures amid { (o : Created) (lines : List ScriptedLine) → Follows o lines world.old → OnOk result (IsAmid o lines flushes world.new) }
    ensures refused { (o : Created) (lines : List ScriptedLine) (number : ℕ) → Follows o lines world.old → IfErr result (Refuses o lines number flushes) }
{
    let Ok(reply) = world.step(Event::Flush) else {
        return Err(ErrorLine::Memory);
    };
    match reply {
        Reply::Flushing { .. } => Ok(()),
        Reply::FullSpace { at, size, limit } => Err(ErrorLine::FullSpace { at, size, limit }),
        _ => unreachable!(),
    }
}

/// Does the line of this number, but for its pieces.
fn begin_line(world: &mut World, line: ScriptLine, number: u64) -> Result<(), ErrorLine>
    requires rows { InRange (rules_of world.old).cutting.columns (line_of_script line) }
    requires follows { (o : Created) × (lines : List ScriptedLine) × Follows o lines world.old }
    ensures amid { (o : Created) (lines : List ScriptedLine) → Follows o lines world.old → OnOk result (IsAmid o lines (line_of_script line) world.new) }
    ensures refused { (o : Created) (lines : List ScriptedLine) → Follows o lines world.old → IfErr result (Refuses o lines number (line_of_script line)) }
{
    match line {
        ScriptLine::Append(values) => append(world, values, number),
        ScriptLine::Flush => flush(world),
        _ => Err(ErrorLine::Line(number)),
    }
}

/// Does the line of this number, and makes all its pieces visible. Line: it is none of the writer. Range, FullChunks: its values are
/// refused. FullSpace: the file has no place for the rows that wait.
pub fn take(world: &mut World, line: ScriptLine, number: u64) -> Result<(), ErrorLine>
    requires rows { InRange (rules_of world.old).cutting.columns (line_of_script line) }
    requires follows { (o : Created) × (lines : List ScriptedLine) × Follows o lines world.old }
    ensures follows { (o : Created) (lines : List ScriptedLine) → Follows o lines world.old → OnOk result (Follows o (lines ++ line_of_script line ∷ []) world.new) }
    ensures writes { OnOk result (writing (line_of_script line) ≡ Some (line_of_script line)) }
    ensures refused { (o : Created) (lines : List ScriptedLine) → Follows o lines world.old → IfErr result (Refuses o lines number (line_of_script line)) }
{
    begin_line(world, line, number)?;
    show_all(world);
    Ok(())
}
