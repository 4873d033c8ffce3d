//! Lines of numbers, and of the values of rows.
ghost use Rattle.std.specs.Prelude.{◌≡◌, ◌++◌, OnOk, flat_map};
ghost use Rattle.h5w_text.specs.Replies.{spaced};
ghost use Rattle.h5w_text.specs.Table.{numbers_text, row_text, rows_text, value_text};

use crate::digits::{text, unspaced_value};
use crate::reply::{values, with_numbers};
use h5w_model::OutOfMemory;

/// Adds a text and numbers, each with a space before it. Where memory is refused, a part of it may stand behind what was there.
pub fn write_words(out: &mut Vec<u8>, name: &[u8], numbers: &[u64]) -> Result<(), OutOfMemory>
    ensures { OnOk result (out.new.items ≡ out.old.items ++ (name.now ++ flat_map spaced numbers.now)) }
{
    with_numbers(out, name, numbers)
}

/// Adds a line of a text and numbers. Where memory is refused, a part of it may stand behind what was there.
pub fn write_numbers(out: &mut Vec<u8>, name: &[u8], numbers: &[u64]) -> Result<(), OutOfMemory>
    ensures { OnOk result (out.new.items ≡ out.old.items ++ numbers_text name.now numbers.now) }
{
    with_numbers(out, name, numbers)?;
    text(out, b"\n")
}

/// Adds the line of a row.
fn write_row(out: &mut Vec<u8>, row: &[i128]) -> Result<(), OutOfMemory>
    ensures { OnOk result (out.new.items ≡ out.old.items ++ row_text row.now) }
{
    if let [first, rest @ ..] = row {
        unspaced_value(out, *first)?;
        values(out, rest)?;
    }
    text(out, b"\n")
}

/// Adds a line for each of so many rows, whose values stand one after another. Where memory is refused, a part of them may
/// stand behind what was there.
pub fn write_rows(
    out: &mut Vec<u8>,
    rows: u64,
    columns: u64,
    values: &[i128],
) -> Result<(), OutOfMemory>
    ensures { OnOk result (out.new.items ≡ out.old.items ++ rows_text rows columns values.now) }
{
    let mut rest = values;
    for _ in 0..rows {
        let (row, behind) = rest.split_at((columns as usize).min(rest.len()));
        write_row(out, row)?;
        rest = behind;
    }
    Ok(())
}
