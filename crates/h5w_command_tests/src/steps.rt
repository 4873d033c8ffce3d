//! Rows of a table of text, each of which runs the program in memory, step by step.

use crate::appends::APPEND_ROWS;
use crate::early::EARLY_ROWS;
use crate::files::FILE_ROWS;
use crate::fixed::FIXED_ROWS;
use crate::lives::LIVE_ROWS;
use crate::named::NAMED_ROWS;
use crate::new_files::NEW_ROWS;
use crate::reopened::REOPENED_ROWS;
use crate::repacks::REPACK_ROWS;
use crate::rows::ROWS;
use crate::scripts::SCRIPT_ROWS;
use crate::several::SEVERAL_ROWS;
use crate::stops::STOP_ROWS;
use crate::successors::SUCCESSOR_ROWS;
use crate::takes::TAKE_ROWS;
use crate::trees::TREE_ROWS;
use crate::types::TYPE_ROWS;
use h5w_commands::run;
use h5w_image::{Disk, MemDisk, OpenGate};
use h5w_text::{MemSink, MemSource};
use std::process::Abort;
use std::sync::Wait;
use std::test::Fail;
use std::thread::Threads;

/// What the program is given in a step, and what is wanted of it. The number of a call that fails is 0 where none does.
#[derive(Drop)]
pub struct Step {
    input: Vec<u8>,
    source: u64,
    sink: u64,
    text: Vec<u8>,
    status: u64,
}

/// Adds a line.
fn add_line(text: &mut Vec<u8>, line: &str) -> Result<(), Fail> {
    text.extend_from_slice(line.as_bytes())?;
    text.push(b'\n')?;
    Ok(())
}

/// Adds a line of the input, in which `WORD*COUNT` stands for a word so often; `-` is an empty one.
fn add_input(text: &mut Vec<u8>, line: &str) -> Result<(), Fail> {
    if line == "-" {
        return add_line(text, "");
    }
    for word in line.split(' ') {
        let (word, count) = word.split_once('*').unwrap_or((word, "1"));
        let count: u32 = count.parse()?;
        for _ in 0..count {
            text.extend_from_slice(word.as_bytes())?;
            text.push(b' ')?;
        }
    }
    text.pop();
    text.push(b'\n')?;
    Ok(())
}

/// The number that is behind these words.
fn number_behind(line: &str, words: &str) -> Option<u64> {
    line.strip_prefix(words)?.parse().ok()
}

/// Whether a line tells a file.
fn is_file(line: &str) -> bool {
    line.starts_with("+ ") || line.starts_with("% ") || line.starts_with("& ")
}

/// Adds a line of a row's that tells no number.
fn add_told(step: &mut Step, line: &str) -> Result<(), Fail> {
    if line.is_empty() || line.starts_with("disk ") || is_file(line) {
        return Ok(());
    }
    if let Some(text) = line.strip_prefix("=> ") {
        return add_line(&mut step.text, text);
    }
    let Some((line, reply)) = line.split_once(" => ") else {
        return add_input(&mut step.input, line);
    };
    add_input(&mut step.input, line)?;
    add_line(&mut step.text, reply)
}

/// Adds a line of a row's to a step.
fn add(step: &mut Step, line: &str) -> Result<(), Fail> {
    if let Some(status) = number_behind(line, "= ") {
        step.status = status;
    } else if let Some(call) = number_behind(line, "source ") {
        step.source = call;
    } else if let Some(call) = number_behind(line, "sink ") {
        step.sink = call;
    } else {
        add_told(step, line)?;
    }
    Ok(())
}

/// The step that these lines tell.
pub fn step_of(rt: &impl AllocGlobal, lines: &str) -> Result<Step, Fail> {
    let mut step = Step {
        input: Vec::new(rt.alloc()),
        source: 0,
        sink: 0,
        text: Vec::new(rt.alloc()),
        status: 0,
    };
    for line in lines.split('\n') {
        add(&mut step, line)?;
    }
    Ok(step)
}

/// The words of a command line, each of which has a space before it.
fn words_of(rt: &impl AllocGlobal, text: &str) -> Result<Vec<String>, Fail> {
    let mut words = Vec::new(rt.alloc());
    if !text.is_empty() {
        for word in text.split(' ') {
            words.push(word.to_string(rt.alloc())?)?;
        }
    }
    Ok(words)
}

/// Adds the bytes of a word: hexadecimal digits, or a byte so often; `-` tells none.
fn add_word(bytes: &mut Vec<u8>, word: &str) -> Result<(), Fail> {
    let (digits, count) = word.split_once('*').unwrap_or((word, "1"));
    let count: u16 = count.parse()?;
    if word != "-" {
        for byte in digits.as_bytes().chunks(2) {
            let byte = u8::from_str_radix(str::from_utf8(byte)?, 16)?;
            for _ in 0..count {
                bytes.push(byte)?;
            }
        }
    }
    Ok(())
}

/// The bytes that words tell.
pub fn bytes_of(rt: &impl AllocGlobal, words: &str) -> Result<Vec<u8>, Fail> {
    let mut bytes = Vec::new(rt.alloc());
    for word in words.split(' ') {
        add_word(&mut bytes, word)?;
    }
    Ok(bytes)
}

/// Writes other bytes from a place on, as a word tells them.
fn change(rt: &impl AllocGlobal, bytes: &mut [u8], told: &str) -> Result<(), Fail> {
    let (place, words) = told.split_once('=').ok_or("a place")?;
    let place: usize = place.parse()?;
    let new = bytes_of(rt, words)?;
    for (byte, new) in bytes.iter_mut().skip(place).zip(&new) {
        *byte = *new;
    }
    Ok(())
}

/// These bytes with others from some places on.
pub fn changed(rt: &impl AllocGlobal, of: &[u8], changes: &str) -> Result<Vec<u8>, Fail> {
    let mut bytes = Vec::from_slice(rt.alloc(), of)?;
    for told in changes.split(' ') {
        change(rt, &mut bytes, told)?;
    }
    Ok(bytes)
}

/// The bytes of a file of the disk with others from some places on; its name comes first.
fn changed_file(rt: &impl AllocGlobal, disk: &MemDisk, told: &str) -> Result<Vec<u8>, Fail> {
    let (name, changes) = told.split_once(' ').unwrap_or((told, ""));
    changed(rt, disk.file(name).ok_or("a file")?, changes)
}

/// The name and the bytes of the file that a line tells, if it does.
fn file_of<'a>(
    rt: &impl AllocGlobal,
    disk: &MemDisk,
    line: &'a str,
) -> Result<Option<(&'a str, Vec<u8>)>, Fail> {
    let Some((kind, told)) = line.split_once(' ') else {
        return Ok(None);
    };
    let (name, rest) = told.split_once(' ').unwrap_or((told, ""));
    match kind {
        "+" => Ok(Some((name, Vec::from_slice(rt.alloc(), rest.as_bytes())?))),
        "%" => Ok(Some((name, bytes_of(rt, rest)?))),
        "&" => Ok(Some((name, changed_file(rt, disk, rest)?))),
        _ => Ok(None),
    }
}

/// Puts the files that these lines tell.
fn put_files(rt: &impl AllocGlobal, disk: &mut MemDisk, lines: &str) -> Result<(), Fail> {
    for line in lines.split('\n') {
        if let Some((name, bytes)) = file_of(rt, disk, line)? {
            disk.insert(name, &bytes)?;
        }
    }
    Ok(())
}

/// The first file that these lines tell and that is not so.
fn other_file<'a>(
    rt: &impl AllocGlobal,
    disk: &MemDisk,
    lines: &'a str,
) -> Result<Option<&'a str>, Fail> {
    for line in lines.split('\n') {
        if let Some((name, bytes)) = file_of(rt, disk, line)? {
            if disk.file(name) != Some(bytes.as_slice()) {
                return Ok(Some(name));
            }
        }
    }
    Ok(None)
}

/// The call of the disk that fails in a row, 0 where none does.
fn failing_call(row: &str) -> u64 {
    for line in row.split('\n') {
        if let Some(call) = number_behind(line, "disk ") {
            return call;
        }
    }
    0
}

/// Runs the program on these words in a step; its status and its text.
pub fn ran<R: Threads + Wait + Sync + AllocGlobal, D: Disk>(
    rt: &R,
    words: &str,
    step: &Step,
    disk: &mut D,
) -> Result<(u64, String), Fail> {
    let words = words_of(rt, words)?;
    let mut source = MemSource::with_faults(rt.alloc(), &step.input, &[step.source])?;
    let mut sink = MemSink::with_faults(rt.alloc(), &[step.sink])?;
    let ended = run(
        rt,
        rt.alloc(),
        &words,
        &mut source,
        &mut sink,
        disk,
        &OpenGate,
    );
    let text = str::from_utf8(sink.written().unwrap_or(b""))?;
    Ok((u64::from(ended.number()), text.to_string(rt.alloc())?))
}

/// Panics where a step of the row of this name does not come to what is wanted.
fn check_step<R: Threads + Wait + Sync + Abort + AllocGlobal>(
    rt: &R,
    name: &str,
    told: &str,
    disk: &mut MemDisk,
) -> Result<(), Fail> {
    let (words, lines) = told.split_once('\n').ok_or("words")?;
    let step = step_of(rt, lines)?;
    let (status, text) = ran(rt, words, &step, disk)?;
    let wanted = str::from_utf8(&step.text)?;
    assert_eq!(rt;
        (status, text.as_str(), other_file(rt, disk, lines)?),
        (step.status, wanted, None),
        "{name}:{words}"
    );
    Ok(())
}

/// Panics where a row does not come to what is wanted.
fn check_row<R: Threads + Wait + Sync + Abort + AllocGlobal>(
    rt: &R,
    row: &str,
) -> Result<(), Fail> {
    let (name, told) = row.split_once('\n').ok_or("a name")?;
    let (files, steps) = told.split_once('$').ok_or("a step")?;
    let mut disk = MemDisk::with_faults(rt.alloc(), &[failing_call(steps)])?;
    put_files(rt, &mut disk, files)?;
    for step in steps.split('$') {
        check_step(rt, name, step, &mut disk)?;
    }
    Ok(())
}

/// Each row of a table.
fn check_rows<R: Threads + Wait + Sync + Abort + AllocGlobal>(
    rt: &R,
    rows: &str,
) -> Result<(), Fail> {
    for row in rows.split('#').skip(1) {
        check_row(rt, row)?;
    }
    Ok(())
}

#[test]
fn rows_are_answered(rt: HostRuntime) -> Result<(), Fail> {
    for rows in [
        ROWS,
        TYPE_ROWS,
        FILE_ROWS,
        NAMED_ROWS,
        NEW_ROWS,
        TREE_ROWS,
        FIXED_ROWS,
        APPEND_ROWS,
        EARLY_ROWS,
        SEVERAL_ROWS,
        SCRIPT_ROWS,
        REOPENED_ROWS,
        REPACK_ROWS,
        STOP_ROWS,
        SUCCESSOR_ROWS,
        TAKE_ROWS,
        LIVE_ROWS,
    ] {
        check_rows(&rt, rows)?;
    }
    Ok(())
}
