ghost use Rattle.std.specs.Prelude.{◌≡◌, ◌≤◌, ◌+◌, ℕ, List, ℤ, length, Some, Err, IsSome, OnOk, IfErr, IfOk};
ghost use Rattle.h5w_input.specs.LinesAhead.{IsLine, lines_ahead};
ghost use Rattle.h5w_input.specs.Scripts.{number_line_of};
ghost use Rattle.h5w_batches.specs.Batches.{AreBatches, AreWholeRows};
ghost use Rattle.h5w_batches.specs.Inputs.{HasNumbers, ReadsOutside, ReadsTooMuch, SameSource, input_limit, outside};
ghost use Rattle.h5w_batches.specs.Reads.{HasFailed, HasNoValues, IsBeside, IsRefused, IsTooLong, ReadsBatches, Refuses, TakesEach};

use crate::error::BatchError;
use crate::gathering::Gathering;
use h5w_input::{Intake, Lines, Next, TextError, TextLine, number_line};
use h5w_model::Values;
use h5w_text::Source;
use std::alloc::Global;

/// The most bytes of an input.
pub const INPUT_LIMIT: u64 = 1 << 40;

/// The values of the line of this number: those of whole rows of so many columns; an empty line has none. Line: it has no such values.
#[tactic(auto, using(crate::proofs::RowLemmas::spelled_rows, crate::proofs::RowLemmas::long_outside))]
pub fn line_values(
    alloc: Global,
    columns: u64,
    line: &TextLine,
    number: u64,
) -> Result<Vec<i128>, BatchError>
    requires { 1 ≤ columns }
    ensures values { IfOk result (λ values. (bytes : List ℕ) → IsLine line.now bytes → number_line_of columns bytes ≡ Some values.items) }
    ensures rows { IfOk result (λ values. AreWholeRows columns values.items) }
    ensures refused { IfErr result (λ e. (bytes : List ℕ) → IsLine line.now bytes → HasNoValues columns number bytes e) }
{
    match line {
        TextLine::Whole(bytes) => match number_line(alloc, bytes.as_slice(), columns) {
            Ok(values) => Ok(values),
            Err(TextError::Grammar) => Err(BatchError::Line(number)),
            Err(TextError::OutOfMemory) => Err(BatchError::OutOfMemory),
        },
        TextLine::Long => Err(BatchError::Line(number)),
    }
}

/// Takes the values of the line of this number.
fn take_line(
    alloc: Global,
    columns: u64,
    line: &TextLine,
    number: u64,
    batches: &mut Gathering,
) -> Result<(), BatchError>
    requires { 1 ≤ columns }
    ensures takes { OnOk result ((bytes : List ℕ) → IsLine line.now bytes → TakesEach columns bytes batches.old batches.new) }
    ensures refused { IfErr result (λ e. (bytes : List ℕ) → IsLine line.now bytes → HasNoValues columns number bytes e) }
{
    let values = line_values(alloc, columns, line, number)?;
    batches.take_line(&values)?;
    Ok(())
}

/// The batches of these lines, to their end.
fn read_lines<S: Source>(
    alloc: Global,
    columns: u64,
    lines: &mut Lines<'_, S>,
) -> Result<Vec<Values>, BatchError>
    requires columns { 1 ≤ columns }
    requires room { length lines.old.intake.now.held + lines.old.intake.now.more ≡ input_limit }
    requires limit { lines.old.intake.now.limit ≡ input_limit }
    ensures ok { IfOk result (λ batches. ReadsBatches columns (outside (lines_ahead (S.view lines.old.source.now) lines.old.intake.now)) (S.view lines.new.source.now) batches.items) }
    ensures refused { IfErr result (Refuses columns (outside (lines_ahead (S.view lines.old.source.now) lines.old.intake.now)) (S.view lines.new.source.now)) }
    ensures source { SameSource (S.view lines.old.source.now) (S.view lines.new.source.now) }
    ensures same_reference { lines.new.source.ghost_name ≡ lines.old.source.ghost_name }
    ensures same_intake { lines.new.intake.ghost_name ≡ lines.old.intake.ghost_name }
{
    let mut batches = Gathering::new(alloc);
    let mut values = Vec::new(alloc);
    let mut number = 0;
    loop {
        if lines.take_numbers(columns, &mut values) {
            number += 1;
            batches.take_line(&values)?;
            continue;
        }
        match lines.next()? {
            Next::Line(line) => {
                number += 1;
                take_line(alloc, columns, &line, number, &mut batches)?;
            }
            Next::Last(line) => {
                take_line(alloc, columns, &line, number + 1, &mut batches)?;
                return Ok(batches.finish()?);
            }
            Next::End => return Ok(batches.finish()?),
        }
    }
}

/// The batches of an input of numbers, which is read to its end: each line has the values of rows of so many columns, or is empty; an empty
/// line closes a batch, and so does the end of the input. A batch may be empty. Line: this is the first line that has no such values.
/// Input: the input has more than 2^40 bytes, and no line that ends among so many first ones is refused. Source: the source failed, and no
/// line that was read is refused.
pub fn read_batches<S: Source>(
    alloc: Global,
    columns: u64,
    source: &mut S,
) -> Result<Vec<Values>, BatchError>
    requires { 1 ≤ columns }
    ensures ok { IfOk result (λ batches. ReadsBatches columns (S.view source.old) (S.view source.new) batches.items) }
    ensures rows { IfOk result (λ batches. AreBatches columns batches.items) }
    ensures line { (number : ℕ) → result ≡ Err (BatchError.Line number) → ReadsOutside columns (S.view source.old) number }
    ensures input { (limit : ℕ) → result ≡ Err (BatchError.Input limit) → IsTooLong columns (S.view source.old) limit }
    ensures failed { result ≡ Err BatchError.Source → HasFailed columns (S.view source.old) (S.view source.new) }
    ensures outside { (number : ℕ) → IsSome (S.view source.old).left → ReadsOutside columns (S.view source.old) number → IsRefused (BatchError.Line number) result }
    ensures too_long { (numbers : List (List ℤ)) → IsSome (S.view source.old).left → ReadsTooMuch columns (S.view source.old) numbers → IsRefused (BatchError.Input input_limit) result }
    ensures completes { HasNumbers columns (S.view source.old) → IfErr result IsBeside }
    ensures source { SameSource (S.view source.old) (S.view source.new) }
{
    let mut intake = Intake::new(alloc, INPUT_LIMIT);
    let mut lines = Lines::new(alloc, source, &mut intake);
    read_lines(alloc, columns, &mut lines)
}
