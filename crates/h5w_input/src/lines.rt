ghost use Rattle.std.specs.Prelude.{◌≡◌, ◌≤◌, ◌++◌, ℕ, ℤ, List, length, drop, false, Err, IfOk, IsTrue};
ghost use Rattle.h5w_model.specs.Causes.{Rose};
ghost use Rattle.h5w_input.specs.LinesAhead.{GivenUp, GivenUpOver, NextGives, IsOver, StandNext, Stays, TakesNumbers, lines_ahead};

use crate::intake::Intake;
use crate::line::{LineError, Next, Partial};
use h5w_text::Source;
use std::alloc::Global;

/// The lines of a source, one after another, with a limit on the bytes that are taken from it. What is taken and
/// not given yet stands in an intake that is lent, so that source and intake are known again once the lines are let go.
#[derive(Drop)]
pub struct Lines<'a, S> {
    alloc: Global,
    source: &'a mut S,
    intake: &'a mut Intake,
}

impl<'a, S: Source> Lines<'a, S> {
    /// The lines of what the intake holds and of the source behind it. It takes no memory.
    pub fn new(alloc: Global, source: &'a mut S, intake: &'a mut Intake) -> Lines<'a, S>
        ensures source { result.source.now ≡ source.old }
        ensures same_reference { result.source.ghost_name ≡ source.entry.ghost_name }
        ensures intake { result.intake.now ≡ intake.old }
        ensures same_intake { result.intake.ghost_name ≡ intake.entry.ghost_name }
    {
        Lines {
            alloc,
            source,
            intake,
        }
    }

    /// The next line, or the end of the input; once the input has ended, the source need not be asked again.
    /// Where a line is given the room falls, so that a loop over all of them ends. Failed: what was taken of the
    /// line that begins here is given up. Input: this line is not ended within the limit; what was taken of it is
    /// given up, with the byte behind the limit. After want of memory it is not said where in the input it stands.
    pub fn next(&mut self) -> Result<Next, LineError>
        ensures line { IfOk result (λ next. NextGives next (lines_ahead (S.view self.old.source.now) self.old.intake.now) (lines_ahead (S.view self.new.source.now) self.new.intake.now)) }
        ensures stays { Stays (lines_ahead (S.view self.old.source.now) self.old.intake.now) (lines_ahead (S.view self.new.source.now) self.new.intake.now) }
        ensures input { (limit : ℕ) → result ≡ Err (LineError.Input limit) → (limit ≡ self.old.intake.now.limit) × IsOver (lines_ahead (S.view self.old.source.now) self.old.intake.now) }
        ensures over { (limit : ℕ) → result ≡ Err (LineError.Input limit) → GivenUpOver (lines_ahead (S.view self.old.source.now) self.old.intake.now) (lines_ahead (S.view self.new.source.now) self.new.intake.now) self.new.intake.now.held }
        ensures failed { result ≡ Err LineError.Failed → GivenUp (lines_ahead (S.view self.old.source.now) self.old.intake.now) (lines_ahead (S.view self.new.source.now) self.new.intake.now) self.new.intake.now.held }
        ensures cause { result ≡ Err LineError.Failed → Rose (S.view self.old.source.now).faults (S.view self.new.source.now).faults }
        ensures same_reference { self.new.source.ghost_name ≡ self.old.source.ghost_name }
        ensures same_intake { self.new.intake.ghost_name ≡ self.old.intake.ghost_name }
    {
        let mut line = Partial::new(self.alloc);
        loop {
            if !self.intake.fill(self.source)? {
                return Ok(line.last());
            }
            if self.intake.advance(&mut line)? {
                return Ok(Next::Line(line.finish()));
            }
        }
    }

    /// Takes the next line where its bytes are held already, with its end, and it is one of numbers: its values come in the place of what
    /// the list had. It takes no memory for the line, and asks the source for nothing. False: no line was taken, and `next` tells what comes.
    pub fn take_numbers(&mut self, columns: u64, values: &mut Vec<i128>) -> bool
        requires { 1 ≤ columns }
        ensures taken { IsTrue result → TakesNumbers columns values.new.items (lines_ahead (S.view self.old.source.now) self.old.intake.now) (lines_ahead (S.view self.new.source.now) self.new.intake.now) }
        ensures kept { result ≡ false → self.new.intake.now ≡ self.old.intake.now }
        ensures source { self.new.source.now ≡ self.old.source.now }
        ensures same_reference { self.new.source.ghost_name ≡ self.old.source.ghost_name }
        ensures same_intake { self.new.intake.ghost_name ≡ self.old.intake.ghost_name }
    {
        self.intake.take_numbers(columns, values)
    }

    /// Adds the values of the lines that stand next, as far as their bytes are held with their ends, each of them is one value of few digits, and
    /// the list has room. No line is taken, and the source is asked for nothing. Answers how many bytes these lines have with their ends.
    pub fn values_ahead(&self, values: &mut Vec<i128>) -> usize
        ensures { (added : List ℤ) × (values.new.items ≡ values.old.items ++ added) × StandNext added result self.now.intake.now.held }
    {
        self.intake.values_ahead(values)
    }

    /// Takes so many of the bytes that are held, the first: whole lines.
    pub fn pass(&mut self, bytes: usize)
        requires { bytes ≤ length self.old.intake.now.held }
        ensures intake { self.new.intake.now ≡ record (self.old.intake.now) { held = drop bytes self.old.intake.now.held } }
        ensures source { self.new.source.now ≡ self.old.source.now }
        ensures same_reference { self.new.source.ghost_name ≡ self.old.source.ghost_name }
        ensures same_intake { self.new.intake.ghost_name ≡ self.old.intake.ghost_name }
    {
        self.intake.pass(bytes);
    }
}
