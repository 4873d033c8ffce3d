//! What a line of such an input says.
ghost use Rattle.std.specs.Prelude.{◌≡◌, ◌<◌, ◌≤◌, ℕ, List, Some, IfErr, IfOk, get_or, length};
ghost use Rattle.h5w_input.specs.LinesAhead.{IsLine};
ghost use Rattle.h5w_several_batches.specs.SetLines.{HasNoMeaning, IsOfSets, set_line_of, use_of};

use h5w_batches::{BatchError, TextLine, Values, line_values};
use h5w_input::{LINE_LIMIT, count};
use std::alloc::Global;

/// What a line of an input of several datasets says.
#[derive(Drop)]
pub enum SetLine {
    /// Values of the dataset in use, whole rows of it. No values close a batch.
    Numbers(Values),
    /// Later lines mean this dataset, counted from 0.
    Use(usize),
}

/// The dataset that a line names to be in use, counted from 0, where there are so many.
pub fn use_line(sets: usize, line: &[u8]) -> Option<usize>
    ensures { result ≡ use_of sets line.now }
{
    if line.len() > LINE_LIMIT {
        return None;
    }
    let number = count(line.strip_prefix(b"use ")?)?;
    if 1 <= number && number <= sets as u64 {
        Some(number as usize - 1)
    } else {
        None
    }
}

/// What the line of this number says, in an input of datasets with so many columns each, where dataset `used`, counted from 0, is in use. A line
/// `use I`, I from 1 to the number of datasets, says that later lines mean dataset I. Any other has the values of whole rows of the dataset in
/// use; an empty one has none. Line: it says nothing.
pub fn set_line(
    alloc: Global,
    columns: &[u64],
    used: usize,
    line: &TextLine,
    number: u64,
) -> Result<SetLine, BatchError>
    requires inside { used < length columns.now }
    requires some { 1 ≤ get_or columns.now used 1 }
    ensures means { IfOk result (λ said. (bytes : List ℕ) → IsLine line.now bytes → set_line_of columns.now used bytes ≡ Some said) }
    ensures sets { IfOk result (IsOfSets columns.now used) }
    ensures refused { IfErr result (λ e. (bytes : List ℕ) → IsLine line.now bytes → HasNoMeaning columns.now used number bytes e) }
{
    if let TextLine::Whole(bytes) = line {
        if let Some(d) = use_line(columns.len(), bytes.as_slice()) {
            return Ok(SetLine::Use(d));
        }
    }
    let values = line_values(alloc, columns[used], line, number)?;
    Ok(SetLine::Numbers(Values::from_vec(values)))
}
