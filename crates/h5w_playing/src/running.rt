//! A script on a machine that answers its lines.
ghost use Rattle.std.specs.Prelude.{◌≡◌, ◌+◌, ℕ, List, length, OnOk, IfErr};
ghost use Rattle.h5w_input.specs.LinesAhead.{IsLine, lines_ahead};
ghost use Rattle.h5w_batches.specs.Inputs.{SameSource, input_limit, outside};
ghost use Rattle.h5w_text.specs.Streams.{SourceView};
ghost use Rattle.h5w_several_script_laws.specs.Scripts.{FileState};
ghost use Rattle.h5w_playing.specs.Endings.{Answered, EndsAt, Runs};
ghost use Rattle.h5w_playing.specs.Lines.{Spelling};
ghost use Rattle.h5w_playing.specs.Plays.{Plays};

use crate::ending::Ending;
use crate::machine::{Machine, Refusal};
use h5w_batches::INPUT_LIMIT;
use h5w_input::{Intake, Lines, Next, TextLine};
use h5w_text::{ErrorLine, Sink, Source, Status, tell};
use std::alloc::Global;

/// Answers a line of the input, and writes the reply's text. What `text` had before is let go.
fn answer_line<M: Machine, K: Sink>(
    alloc: Global,
    machine: &mut M,
    line: &TextLine,
    number: u64,
    text: &mut Vec<u8>,
    sink: &mut K,
) -> Result<(), Ending>
    ensures answered { OnOk result ((bytes : List ℕ) → IsLine line.now bytes → Answered (M.spelling machine.old) bytes (M.fits machine.old) (M.fits machine.new) (K.view sink.old) (K.view sink.new)) }
    ensures ended { IfErr result (λ e. (bytes : List ℕ) → IsLine line.now bytes → EndsAt (M.spelling machine.old) bytes number (M.fits machine.old) (K.view sink.old) (K.view sink.new) e) }
    ensures kept { OnOk result (M.spelling machine.new ≡ M.spelling machine.old) }
{
    text.clear();
    match machine.answer(alloc, line, text) {
        Ok(()) => {}
        Err(Refusal::Line) => return Err(Ending::Line(number)),
        Err(Refusal::Memory) => return Err(Ending::Memory),
    }
    sink.write(text)?;
    Ok(())
}

/// Answers lines, one after another, to their end.
fn answer_lines<M: Machine, S: Source, K: Sink>(
    alloc: Global,
    machine: &mut M,
    lines: &mut Lines<'_, S>,
    sink: &mut K,
) -> Result<(), Ending>
    requires room { length lines.old.intake.now.held + lines.old.intake.now.more ≡ input_limit }
    ensures runs { (F : FileState) → M.fits machine.old F → Runs (M.spelling machine.old) F result (outside (lines_ahead (S.view lines.old.source.now) lines.old.intake.now)) (S.view lines.new.source.now) (K.view sink.old) (K.view sink.new) }
    ensures source { SameSource (S.view lines.old.source.now) (S.view lines.new.source.now) }
    ensures same_reference { lines.new.source.ghost_name ≡ lines.old.source.ghost_name }
    ensures same_intake { lines.new.intake.ghost_name ≡ lines.old.intake.ghost_name }
{
    let mut text = Vec::new(alloc);
    let mut number = 0;
    loop {
        match lines.next()? {
            Next::Line(line) => {
                number += 1;
                answer_line(alloc, machine, &line, number, &mut text, sink)?;
            }
            Next::Last(line) => {
                return answer_line(alloc, machine, &line, number + 1, &mut text, sink);
            }
            Next::End => return Ok(()),
        }
    }
}

/// Answers the lines of the input, one after another.
fn script<M: Machine, S: Source, K: Sink>(
    alloc: Global,
    machine: &mut M,
    source: &mut S,
    sink: &mut K,
) -> Result<(), Ending>
    ensures runs { (F : FileState) → M.fits machine.old F → Runs (M.spelling machine.old) F result (S.view source.old) (S.view source.new) (K.view sink.old) (K.view sink.new) }
    ensures source { SameSource (S.view source.old) (S.view source.new) }
{
    let mut intake = Intake::new(alloc, INPUT_LIMIT);
    let mut lines = Lines::new(alloc, source, &mut intake);
    answer_lines(alloc, machine, &mut lines, sink)
}

/// Runs the script from the source on a machine, which fits its first state.
pub fn play<M: Machine, S: Source, K: Sink>(
    alloc: Global,
    machine: &mut M,
    source: &mut S,
    sink: &mut K,
) -> Status
    ensures plays { (F : FileState) → M.fits machine.old F → Plays (M.spelling machine.old) F result (S.view source.old) (S.view source.new) (K.view sink.old) (K.view sink.new) }
    ensures source { SameSource (S.view source.old) (S.view source.new) }
{
    match script(alloc, machine, source, sink) {
        Ok(()) => Status::Done,
        Err(Ending::Line(number)) => tell(alloc, &ErrorLine::Line(number), sink),
        Err(Ending::Input) => {
            let limit = INPUT_LIMIT;
            tell(alloc, &ErrorLine::Input { limit }, sink)
        }
        Err(Ending::Source) => tell(alloc, &ErrorLine::Source, sink),
        Err(Ending::Memory) => tell(alloc, &ErrorLine::Memory, sink),
        Err(Ending::Sink) => Status::Sink,
    }
}

/// Ends a script for which memory was refused before its first line.
#[tactic(auto, using(crate::proofs::EndLemmas::cannot))]
pub fn cannot_play<K: Sink>(alloc: Global, sink: &mut K) -> Status
    ensures plays { (g : Spelling) (F : FileState) (s : SourceView) → Plays g F result s s (K.view sink.old) (K.view sink.new) }
{
    tell(alloc, &ErrorLine::Memory, sink)
}
