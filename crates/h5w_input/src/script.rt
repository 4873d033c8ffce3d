ghost use Rattle.std.specs.Prelude.{◌≡◌, ◌≤◌, ◌++◌, ℕ, length, Some, None, Err, option_map, OnOk, OnErr};
ghost use Rattle.std.specs.Result.{MatchResult};
ghost use Rattle.h5w_model.specs.Lawful.{opens, refreshes};
ghost use Rattle.h5w_input.specs.Lines.{values_of};
ghost use Rattle.h5w_input.specs.Scripts.{alone, append_of, by_word, is_word, look_of, number_line_of, on_reader_of, positive_of, read_of, reader_of, rows_of, script_line_of, write_of};
ghost use Rattle.h5w_input.specs.Words.{Spells, line_of_script};

use crate::number::{count, value};
use crate::words::Words;
use h5w_model::{OutOfMemory, Values};
use std::alloc::{AllocError, AllocFailed, Global};

/// The most bytes of a line.
pub const LINE_LIMIT: usize = 65_536;

/// A line of a script.
#[derive(Drop)]
pub enum ScriptLine {
    /// Appends rows.
    Append(Values),
    Flush,
    /// Makes up to so many pending pieces visible.
    Write(u64),
    Stop,
    /// Opens a reader.
    Open(u64),
    /// Begins a refresh of a reader.
    Refresh(u64),
    /// Begins a read of rows.
    Read { reader: u64, from: u64, count: u64 },
    /// Takes up to so many looks of a reader.
    Look { reader: u64, most: u64 },
}

/// Why a line has no meaning.
#[derive(Clone, Copy, Debug)]
pub enum TextError {
    /// No line of a script is spelled so.
    Grammar,
    /// Memory was refused.
    OutOfMemory,
}

impl From<AllocError> for TextError {
    ghost use Rattle.std.specs.Prelude.{◌≡◌};
    ghost use Rattle.h5w_input.specs.declared.script.TextError.TheVariants.{OutOfMemory as no_memory};

    ghost from_gives = { λ _ e. e ≡ no_memory };

    fn from(_e: AllocError) -> TextError {
        TextError::OutOfMemory
    }
}

impl<T: Drop> From<AllocFailed<T>> for TextError {
    ghost use Rattle.std.specs.Prelude.{◌≡◌};
    ghost use Rattle.h5w_input.specs.declared.script.TextError.TheVariants.{OutOfMemory as no_memory};

    ghost from_gives = { λ _ e. e ≡ no_memory };

    fn from(_e: AllocFailed<T>) -> TextError {
        TextError::OutOfMemory
    }
}

/// A reader's number, 1 to 16.
fn reader(word: &[u8]) -> Option<u64>
    ensures { result ≡ reader_of word.now }
{
    let reader = count(word)?;
    if 1 <= reader && reader <= 16 {
        Some(reader)
    } else {
        None
    }
}

/// How many pieces or looks, 1 or more.
fn positive(word: &[u8]) -> Option<u64>
    ensures { result ≡ positive_of word.now }
{
    let n = count(word)?;
    if 1 <= n { Some(n) } else { None }
}

/// The line, where no word is left.
fn at_end(mut words: Words, line: ScriptLine) -> Option<ScriptLine>
    ensures { option_map line_of_script result ≡ alone (line_of_script line) words.entry }
{
    match words.next() {
        None => Some(line),
        Some(_) => None,
    }
}

/// Takes the short values that stand next, and adds them. It stops before any other word.
#[inline(always)]
#[tactic(auto, using(crate::proofs::ScriptLemmas::values_more))]
fn short_values(words: &mut Words<'_>, values: &mut Vec<i128>) -> Result<(), TextError>
    ensures same { OnOk result (option_map (λ vs. values.old.items ++ vs) (values_of words.old) ≡ option_map (λ vs. values.new.items ++ vs) (values_of words.new)) }
    ensures fewer { OnOk result (length words.new ≤ length words.old) }
    ensures memory { OnErr result (result ≡ Err TextError.OutOfMemory) }
{
    while let Some(value) = words.next_short() {
        values.push(value)?;
    }
    Ok(())
}

/// The values of words, each of them a value, in the place of what the list had. There is room for all of them from the
/// beginning: each but the first has a space before it.
#[tactic(auto, using(crate::proofs::ScriptLemmas::values_more))]
fn fill_values(mut words: Words, values: &mut Vec<i128>) -> Result<(), TextError>
    ensures { MatchResult result (λ _. values_of words.entry ≡ Some values.new.items) (λ e. e ≡ TextError.Grammar → values_of words.entry ≡ None) }
{
    values.clear();
    values.reserve(words.most_spaces() / 2 + 1)?;
    loop {
        short_values(&mut words, values)?;
        let Some(word) = words.next() else {
            return Ok(());
        };
        let Some(value) = value(word) else {
            return Err(TextError::Grammar);
        };
        values.push(value)?;
    }
}

/// The values of rows of so many columns, at least one row, in the place of what the list had.
fn fill_rows(words: Words, columns: u64, values: &mut Vec<i128>) -> Result<(), TextError>
    requires { 1 ≤ columns }
    ensures { MatchResult result (λ _. rows_of columns words.entry ≡ Some values.new.items) (λ e. e ≡ TextError.Grammar → rows_of columns words.entry ≡ None) }
{
    fill_values(words, values)?;
    if values.is_empty() {
        return Err(TextError::Grammar);
    }
    if values.len() as u64 % columns != 0 {
        return Err(TextError::Grammar);
    }
    Ok(())
}

#[tactic(auto, using(crate::proofs::ScriptLemmas::append_some, crate::proofs::ScriptLemmas::append_none))]
fn append(alloc: Global, words: Words, columns: u64) -> Result<ScriptLine, TextError>
    requires { 1 ≤ columns }
    ensures { Spells (append_of columns words.entry) result }
{
    let mut values = Vec::new(alloc);
    fill_rows(words, columns, &mut values)?;
    Ok(ScriptLine::Append(Values::from_vec(values)))
}

#[tactic(auto, using(crate::proofs::ScriptLemmas::write_is))]
fn write(mut words: Words) -> Option<ScriptLine>
    ensures { option_map line_of_script result ≡ write_of words.entry }
{
    let pieces = positive(words.next()?)?;
    at_end(words, ScriptLine::Write(pieces))
}

#[tactic(auto, using(crate::proofs::ScriptLemmas::on_reader_is))]
fn open(mut words: Words) -> Option<ScriptLine>
    ensures { option_map line_of_script result ≡ on_reader_of opens words.entry }
{
    let reader = reader(words.next()?)?;
    at_end(words, ScriptLine::Open(reader))
}

#[tactic(auto, using(crate::proofs::ScriptLemmas::on_reader_is))]
fn refresh(mut words: Words) -> Option<ScriptLine>
    ensures { option_map line_of_script result ≡ on_reader_of refreshes words.entry }
{
    let reader = reader(words.next()?)?;
    at_end(words, ScriptLine::Refresh(reader))
}

fn read(mut words: Words) -> Option<ScriptLine>
    ensures { option_map line_of_script result ≡ read_of words.entry }
{
    let reader = reader(words.next()?)?;
    let from = count(words.next()?)?;
    let count = count(words.next()?)?;
    at_end(
        words,
        ScriptLine::Read {
            reader,
            from,
            count,
        },
    )
}

fn look(mut words: Words) -> Option<ScriptLine>
    ensures { option_map line_of_script result ≡ look_of words.entry }
{
    let reader = reader(words.next()?)?;
    let most = positive(words.next()?)?;
    at_end(words, ScriptLine::Look { reader, most })
}

fn is_word(name: &[u8], word: &[u8]) -> bool
    ensures { result ≡ is_word word.now name.now }
{
    name == word
}

/// What a line asks for, by its first word and the others.
fn command(alloc: Global, columns: u64, name: &[u8], words: Words) -> Result<ScriptLine, TextError>
    requires { 1 ≤ columns }
    ensures { Spells (by_word columns name.now words.entry) result }
{
    if is_word(name, b"append") {
        return append(alloc, words, columns);
    }
    let line = if is_word(name, b"flush") {
        at_end(words, ScriptLine::Flush)
    } else if is_word(name, b"write") {
        write(words)
    } else if is_word(name, b"stop") {
        at_end(words, ScriptLine::Stop)
    } else if is_word(name, b"open") {
        open(words)
    } else if is_word(name, b"refresh") {
        refresh(words)
    } else if is_word(name, b"read") {
        read(words)
    } else if is_word(name, b"look") {
        look(words)
    } else {
        None
    };
    line.ok_or(TextError::Grammar)
}

/// The line of a script that some bytes spell, without the byte 0a. Grammar: they spell none.
pub fn script_line(alloc: Global, line: &[u8], columns: u64) -> Result<ScriptLine, TextError>
    requires { 1 ≤ columns }
    ensures { Spells (script_line_of columns line.now) result }
{
    if line.len() > LINE_LIMIT {
        return Err(TextError::Grammar);
    }
    let mut words = Words::of(line);
    match words.next() {
        Some(name) => command(alloc, columns, name, words),
        None => Err(TextError::Grammar),
    }
}

/// The values of a line of numbers, without the byte 0a, in the place of what the list had: rows of so many columns, and none in an empty
/// line. Grammar: the bytes spell no such line.
pub fn fill_numbers(line: &[u8], columns: u64, values: &mut Vec<i128>) -> Result<(), TextError>
    requires { 1 ≤ columns }
    ensures { MatchResult result (λ _. number_line_of columns line.now ≡ Some values.new.items) (λ e. e ≡ TextError.Grammar → number_line_of columns line.now ≡ None) }
{
    if line.is_empty() {
        values.clear();
        return Ok(());
    }
    if line.len() > LINE_LIMIT {
        return Err(TextError::Grammar);
    }
    fill_rows(Words::of(line), columns, values)
}

/// The values of a line of numbers, without the byte 0a: rows of so many columns, and none in an empty line. Grammar: the bytes spell no
/// such line.
pub fn number_line(alloc: Global, line: &[u8], columns: u64) -> Result<Vec<i128>, TextError>
    requires { 1 ≤ columns }
    ensures { MatchResult result (λ values. number_line_of columns line.now ≡ Some values.items) (λ e. e ≡ TextError.Grammar → number_line_of columns line.now ≡ None) }
{
    let mut values = Vec::new(alloc);
    fill_numbers(line, columns, &mut values)?;
    Ok(values)
}
