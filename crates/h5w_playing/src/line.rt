//! What a line of a script over the datasets of a file says.
ghost use Rattle.std.specs.Prelude.{◌≡◌, ◌≤◌, IfOk};
ghost use Rattle.h5w_playing.specs.Lines.{IsWithin, Means, file_line_of, is_takeover};

use h5w_input::{ScriptLine, TextError, script_line};
use h5w_several_batches::use_line;
use std::alloc::Global;

/// A line of a script over the datasets of a file.
#[derive(Drop)]
pub enum PlayLine {
    /// Later lines mean this dataset, counted from 0.
    Use(usize),
    /// Another writer takes the file over.
    Takeover,
    /// A line as a script of one dataset has it.
    Asks(ScriptLine),
}

/// Whether a line asks that another writer takes the file over.
fn is_takeover(line: &[u8]) -> bool
    ensures { result ≡ is_takeover line.now }
{
    let word: &[u8] = b"takeover";
    line == word
}

/// The line of a script that some bytes spell, without the byte 0a, where each of so many datasets has so many columns: `takeover`; `use I`, I from
/// 1 to the number of datasets; or a line as a script of one dataset has it. Grammar: they spell none.
pub fn play_line(
    alloc: Global,
    line: &[u8],
    columns: u64,
    sets: usize,
) -> Result<PlayLine, TextError>
    requires { 1 ≤ columns }
    ensures means { Means (file_line_of (record { columns = columns; sets = sets }) line.now) result }
    ensures sets { IfOk result (IsWithin sets) }
{
    if is_takeover(line) {
        return Ok(PlayLine::Takeover);
    }
    if let Some(d) = use_line(sets, line) {
        return Ok(PlayLine::Use(d));
    }
    let line = script_line(alloc, line, columns)?;
    Ok(PlayLine::Asks(line))
}
