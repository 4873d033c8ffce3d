ghost use Rattle.std.specs.Prelude.{◌≡◌, ◌++◌, OnOk, codes, flat_map};
ghost use Rattle.h5w_text.specs.Replies.{of_reader, reply_text, reply_words, spaced, spaced_value};

use crate::digits::{number, text, value};
use h5w_model::{OutOfMemory, Reply};

/// Adds a text and numbers.
pub fn with_numbers(out: &mut Vec<u8>, name: &[u8], numbers: &[u64]) -> Result<(), OutOfMemory>
    ensures { OnOk result (out.new.items ≡ out.old.items ++ (name.now ++ flat_map spaced numbers.now)) }
{
    text(out, name)?;
    for n in numbers {
        number(out, *n)?;
    }
    Ok(())
}

/// Adds the word and number of a reader, then a text and numbers.
fn of_reader(
    out: &mut Vec<u8>,
    reader: u64,
    name: &[u8],
    numbers: &[u64],
) -> Result<(), OutOfMemory>
    ensures { OnOk result (out.new.items ≡ out.old.items ++ of_reader reader (name.now ++ flat_map spaced numbers.now)) }
{
    with_numbers(out, b"reader", &[reader])?;
    with_numbers(out, name, numbers)
}

fn appended(out: &mut Vec<u8>, rows: u64, pending: u64) -> Result<(), OutOfMemory>
    ensures { OnOk result (out.new.items ≡ out.old.items ++ reply_words (Reply.Appended rows pending)) }
{
    with_numbers(out, b"appended", &[rows])?;
    if pending != 0 {
        with_numbers(out, b" pending", &[pending])?;
    }
    Ok(())
}

fn full_chunks(out: &mut Vec<u8>, chunks: u64, limit: u64) -> Result<(), OutOfMemory>
    ensures { OnOk result (out.new.items ≡ out.old.items ++ reply_words (Reply.FullChunks chunks limit)) }
{
    text(out, b"full chunks")?;
    number(out, chunks)?;
    number(out, limit)
}

fn written(out: &mut Vec<u8>, pieces: u64, pending: u64) -> Result<(), OutOfMemory>
    ensures { OnOk result (out.new.items ≡ out.old.items ++ reply_words (Reply.Written pieces pending)) }
{
    with_numbers(out, b"written", &[pieces])?;
    with_numbers(out, b" pending", &[pending])
}

fn out_of_range(out: &mut Vec<u8>, index: u64, v: i128) -> Result<(), OutOfMemory>
    ensures { OnOk result (out.new.items ≡ out.old.items ++ reply_words (Reply.OutOfRange index v)) }
{
    with_numbers(out, b"outofrange", &[index])?;
    value(out, v)
}

/// Adds values, each with a space before it.
pub fn values(out: &mut Vec<u8>, values: &[i128]) -> Result<(), OutOfMemory>
    ensures { OnOk result (out.new.items ≡ out.old.items ++ flat_map spaced_value values.now) }
{
    for v in values {
        value(out, *v)?;
    }
    Ok(())
}

/// Adds the values that a reader has read.
fn read_values(out: &mut Vec<u8>, reader: u64, read: &[i128]) -> Result<(), OutOfMemory>
    ensures { OnOk result (out.new.items ≡ out.old.items ++ of_reader reader (codes " values" ++ flat_map spaced_value read.now)) }
{
    of_reader(out, reader, b" values", &[])?;
    values(out, read)
}

/// Adds the text of a reply to the writer or a reader, without the byte 0a.
fn words(out: &mut Vec<u8>, reply: &Reply) -> Result<(), OutOfMemory>
    ensures { OnOk result (out.new.items ≡ out.old.items ++ reply_words reply.now) }
{
    match reply {
        Reply::Appended { rows, pending } => appended(out, *rows, *pending),
        Reply::Flushing { pieces } => with_numbers(out, b"flushing", &[*pieces]),
        Reply::Written { pieces, pending } => written(out, *pieces, *pending),
        Reply::Busy { pending } => with_numbers(out, b"busy", &[*pending]),
        Reply::Stopped => text(out, b"stopped"),
        Reply::OutOfRange { index, value } => out_of_range(out, *index, *value),
        Reply::FullChunks { chunks, limit } => full_chunks(out, *chunks, *limit),
        Reply::FullSpace { at, size, limit } => with_numbers(
            out,
            b"full space",
            &[*at, *size, *limit],
        ),
        Reply::Deep => text(out, b"deep"),
        Reply::Opening { reader } => of_reader(out, *reader, b" open", &[]),
        Reply::Refreshing { reader } => of_reader(out, *reader, b" refresh", &[]),
        Reply::Reading { reader } => of_reader(out, *reader, b" read", &[]),
        Reply::Rows { reader, rows } => of_reader(out, *reader, b" rows", &[*rows]),
        Reply::Values { reader, values } => read_values(out, *reader, values.as_slice()),
        Reply::Again { reader, attempts } => of_reader(
            out,
            *reader,
            b" again",
            &[u64::from(*attempts)],
        ),
        Reply::Looking { reader } => of_reader(out, *reader, b" looking", &[]),
        Reply::Idle { reader } => of_reader(out, *reader, b" idle", &[]),
        Reply::ReaderBusy { reader } => of_reader(out, *reader, b" busy", &[]),
        Reply::NoReader { reader } => of_reader(out, *reader, b" none", &[]),
        Reply::ReaderExists { reader } => of_reader(out, *reader, b" exists", &[]),
        Reply::OutOfRows {
            reader,
            from,
            count,
            rows,
        } => of_reader(out, *reader, b" outofrows", &[*from, *count, *rows]),
    }
}

/// Adds the line of a reply. Where memory is refused, a part of it may stand behind what was there.
pub fn write_reply(out: &mut Vec<u8>, reply: &Reply) -> Result<(), OutOfMemory>
    ensures { OnOk result (out.new.items ≡ out.old.items ++ reply_text reply.now) }
{
    words(out, reply)?;
    text(out, b"\n")
}
