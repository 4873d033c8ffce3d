//! The text of what a run in threads reports.
ghost use Rattle.std.specs.Prelude.{◌≡◌, ◌++◌, IfOk, OnOk, flat_map};
ghost use Rattle.h5w_live_laws.specs.Lines.{rows_told};
ghost use Rattle.h5w_running.specs.Texts.{answer_text, flush_text, mirror_text, poll_text, report_text};

use h5w_model::{FlushLine, OutOfMemory, Poll, PollLine};
use h5w_text::{write_numbers, write_rows, write_words};
use std::alloc::Global;

/// Adds the lines of the flushes.
fn write_flushes(out: &mut Vec<u8>, lines: &[FlushLine]) -> Result<(), OutOfMemory>
    ensures { OnOk result (out.new.items ≡ out.old.items ++ flat_map flush_text lines.now) }
{
    for line in lines {
        write_numbers(out, b"flush", &[line.pieces, line.rows])?;
    }
    Ok(())
}

/// Adds what a reader's call was answered, to the end of its line.
#[tactic(auto, using(crate::proofs::TextLemmas::rows_answer))]
fn write_answer(out: &mut Vec<u8>, answer: Poll) -> Result<(), OutOfMemory>
    ensures { OnOk result (out.new.items ≡ out.old.items ++ answer_text answer) }
{
    match answer {
        Poll::Rows { rows, sum } => {
            write_words(out, b" rows", &[rows])?;
            write_words(out, b" sum ", &[])?;
            write_rows(out, 1, 1, &[sum])
        }
        Poll::Again { attempts } => write_numbers(out, b" again", &[u64::from(attempts)]),
    }
}

/// Adds the line of a reader's call.
#[tactic(auto, using(crate::proofs::TextLemmas::poll_parts))]
fn write_poll(out: &mut Vec<u8>, line: &PollLine) -> Result<(), OutOfMemory>
    ensures { OnOk result (out.new.items ≡ out.old.items ++ poll_text line.now) }
{
    write_words(
        out,
        b"poll",
        &[
            u64::from(line.reader),
            u64::from(line.poll),
            line.before,
            line.after,
        ],
    )?;
    write_answer(out, line.answer)
}

/// Adds the lines of the readers' calls.
fn write_polls(out: &mut Vec<u8>, lines: &[PollLine]) -> Result<(), OutOfMemory>
    ensures { OnOk result (out.new.items ≡ out.old.items ++ flat_map poll_text lines.now) }
{
    for line in lines {
        write_poll(out, line)?;
    }
    Ok(())
}

/// Adds how many pieces the file has, where a second image has them too.
#[tactic(auto, using(crate::proofs::TextLemmas::mirror_none))]
fn write_mirror(out: &mut Vec<u8>, mirrored: Option<u64>) -> Result<(), OutOfMemory>
    ensures { OnOk result (out.new.items ≡ out.old.items ++ mirror_text mirrored) }
{
    match mirrored {
        Some(pieces) => write_numbers(out, b"mirror", &[pieces]),
        None => Ok(()),
    }
}

/// The rows of the last flush.
#[tactic(auto, using(crate::proofs::TextLemmas::told_last, crate::proofs::TextLemmas::told_none))]
fn last_rows(lines: &[FlushLine]) -> u64
    ensures { result ≡ rows_told 0 lines.now }
{
    match lines.last() {
        Some(line) => line.rows,
        None => 0,
    }
}

/// The text of a report: a line for each flush, a line for each call of each reader, how many pieces a second image has, if there is one, and
/// how many rows were flushed in all.
#[tactic(auto, using(crate::proofs::TextLemmas::report_parts))]
pub fn text_of(
    alloc: Global,
    flushes: &[FlushLine],
    polls: &[PollLine],
    mirrored: Option<u64>,
) -> Result<Vec<u8>, OutOfMemory>
    ensures { IfOk result (λ text. text.items ≡ report_text flushes.now polls.now mirrored (rows_told 0 flushes.now)) }
{
    let mut text = Vec::new(alloc);
    write_flushes(&mut text, flushes)?;
    write_polls(&mut text, polls)?;
    write_mirror(&mut text, mirrored)?;
    write_numbers(&mut text, b"done", &[last_rows(flushes)])?;
    Ok(text)
}
