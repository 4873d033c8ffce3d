ghost use Rattle.std.specs.Prelude.{◌≡◌, ◌++◌, false, is_some, IfSome, OnOk};
ghost use Rattle.h5w_text.specs.Errors.{error_text, error_words, is_fixed};
ghost use Rattle.h5w_text.specs.Statuses.{refusal_status, status_of};

use crate::digits::{text, value};
use crate::refusal::refusal;
use crate::reply::with_numbers;
use crate::status::Status;
use h5w_model::{OutOfMemory, ReadError};

/// An error that ends the program, with what its line tells. Lines count from 1.
#[derive(Drop)]
pub enum ErrorLine {
    Usage,
    /// No file has the name.
    Missing,
    /// Something has the name.
    Exists,
    /// A reader's call is refused.
    Read(ReadError),
    /// The first finding of a check, by its kind, and its place.
    Finding {
        kind: u8,
        at: u64,
    },
    /// The range of `len` bytes at `at` begins before the end of the one of `other_len` bytes at `other`.
    Overlap {
        at: u64,
        len: u64,
        other: u64,
        other_len: u64,
    },
    /// The file's end-of-file address is past its size.
    Cut {
        end: u64,
        size: u64,
    },
    /// The file to write has a superblock of this version.
    WriterVersion(u8),
    /// The layout message of the dataset to write, which is to have the index's address, stands outside of the header's chunk 0.
    Layout,
    /// A chunk of the dataset to write has so many bytes.
    ChunkBytes(u64),
    /// The dataset to write has no columns.
    NoColumns,
    /// Two of the names of datasets to write lead to one of them: their numbers, from 1 on.
    Same {
        first: u64,
        second: u64,
    },
    /// Rows need more chunks than an index has.
    FullChunks {
        chunks: u64,
        limit: u64,
    },
    /// The file has no place for so many bytes; the first that is free stands at `at`.
    FullSpace {
        at: u64,
        size: u64,
        limit: u64,
    },
    /// The tree has no room for one more chunk on the way to it.
    Deep,
    /// This line is outside the grammar.
    Line(u64),
    /// A value outside the type, by its line and its index there.
    Range {
        line: u64,
        index: u64,
        value: i128,
    },
    /// The input has more than so many bytes.
    Input {
        limit: u64,
    },
    Disk,
    /// The image that threads share has given all its turns.
    Image,
    Source,
    Memory,
}

/// The status of a reader's refusal.
fn refusal_status(error: ReadError) -> Status
    ensures { result ≡ refusal_status error }
{
    match error {
        ReadError::NotHdf5
        | ReadError::Super(_)
        | ReadError::Header { .. }
        | ReadError::Link(_)
        | ReadError::Unsupported(_) => Status::Format,
        ReadError::NotSwmr { .. } => Status::Flags,
        ReadError::TooManyChunks { .. } => Status::Limit,
        ReadError::Damaged { .. } | ReadError::Shrunk { .. } => Status::Damaged,
        ReadError::Again { .. } => Status::Again,
        ReadError::OutOfMemory => Status::Memory,
    }
}

impl ErrorLine {
    /// The status with which the program ends behind this line.
    pub fn status(&self) -> Status
        ensures { result ≡ status_of self.now }
    {
        match self {
            ErrorLine::Usage => Status::Usage,
            ErrorLine::Missing => Status::Missing,
            ErrorLine::Exists => Status::Exists,
            ErrorLine::Read(error) => refusal_status(*error),
            ErrorLine::Finding { .. } | ErrorLine::Overlap { .. } | ErrorLine::Cut { .. } => {
                Status::Damaged
            }
            ErrorLine::WriterVersion(_)
            | ErrorLine::Layout
            | ErrorLine::ChunkBytes(_)
            | ErrorLine::NoColumns
            | ErrorLine::Same { .. } => Status::Format,
            ErrorLine::FullChunks { .. } | ErrorLine::FullSpace { .. } | ErrorLine::Deep => {
                Status::Limit
            }
            ErrorLine::Line(_) | ErrorLine::Range { .. } | ErrorLine::Input { .. } => Status::Input,
            ErrorLine::Disk | ErrorLine::Image => Status::Disk,
            ErrorLine::Source => Status::Source,
            ErrorLine::Memory => Status::Memory,
        }
    }
}

/// Adds that a value of a line is outside the dataset's type.
fn range(out: &mut Vec<u8>, line: u64, index: u64, v: i128) -> Result<(), OutOfMemory>
    ensures { OnOk result (out.new.items ≡ out.old.items ++ error_words (ErrorLine.Range line index v)) }
{
    with_numbers(out, b"error range", &[line, index])?;
    value(out, v)
}

/// The line of an error that tells no more than its kind, with the byte 0a that ends it. None: it tells more.
pub fn fixed(error: &ErrorLine) -> Option<&'static [u8]>
    ensures line { IfSome result (λ line. line.now ≡ error_text error.now) }
    ensures some { is_some result ≡ is_fixed error.now }
{
    match error {
        ErrorLine::Usage => Some(b"error usage\n"),
        ErrorLine::Missing => Some(b"error missing\n"),
        ErrorLine::Exists => Some(b"error exists\n"),
        ErrorLine::Layout => Some(b"error writer layout\n"),
        ErrorLine::NoColumns => Some(b"error writer columns\n"),
        ErrorLine::Deep => Some(b"error deep\n"),
        ErrorLine::Disk => Some(b"error disk\n"),
        ErrorLine::Image => Some(b"error image\n"),
        ErrorLine::Source => Some(b"error source\n"),
        ErrorLine::Memory => Some(b"error memory\n"),
        ErrorLine::Read(_)
        | ErrorLine::Finding { .. }
        | ErrorLine::Overlap { .. }
        | ErrorLine::Cut { .. }
        | ErrorLine::WriterVersion(_)
        | ErrorLine::ChunkBytes(_)
        | ErrorLine::Same { .. }
        | ErrorLine::FullChunks { .. }
        | ErrorLine::FullSpace { .. }
        | ErrorLine::Line(_)
        | ErrorLine::Range { .. }
        | ErrorLine::Input { .. } => None,
    }
}

/// Adds the text of an error that tells more than its kind, without the byte 0a.
fn words(out: &mut Vec<u8>, error: &ErrorLine) -> Result<(), OutOfMemory>
    requires { is_fixed error.now ≡ false }
    ensures { OnOk result (out.new.items ≡ out.old.items ++ error_words error.now) }
{
    match error {
        ErrorLine::Read(error) => refusal(out, *error),
        ErrorLine::Finding { kind, at } => {
            with_numbers(out, b"finding", &[u64::from(*kind), *at])
        }
        ErrorLine::Overlap {
            at,
            len,
            other,
            other_len,
        } => with_numbers(out, b"finding 19", &[*at, *len, *other, *other_len]),
        ErrorLine::Cut { end, size } => with_numbers(out, b"error cut", &[*end, *size]),
        ErrorLine::WriterVersion(version) => {
            with_numbers(out, b"error writer version", &[u64::from(*version)])
        }
        ErrorLine::ChunkBytes(bytes) => with_numbers(out, b"error writer chunk", &[*bytes]),
        ErrorLine::Same { first, second } => {
            with_numbers(out, b"error writer same", &[*first, *second])
        }
        ErrorLine::FullChunks { chunks, limit } => {
            with_numbers(out, b"error full chunks", &[*chunks, *limit])
        }
        ErrorLine::FullSpace { at, size, limit } => {
            with_numbers(out, b"error full space", &[*at, *size, *limit])
        }
        ErrorLine::Line(line) => with_numbers(out, b"error line", &[*line]),
        ErrorLine::Range { line, index, value } => range(out, *line, *index, *value),
        ErrorLine::Input { limit } => with_numbers(out, b"error input", &[*limit]),
        ErrorLine::Usage
        | ErrorLine::Missing
        | ErrorLine::Exists
        | ErrorLine::Layout
        | ErrorLine::NoColumns
        | ErrorLine::Deep
        | ErrorLine::Disk
        | ErrorLine::Image
        | ErrorLine::Source
        | ErrorLine::Memory => unreachable!(),
    }
}

/// Adds an error's line. Where memory is refused, a part of it may stand behind what was there.
pub fn write_error(out: &mut Vec<u8>, error: &ErrorLine) -> Result<(), OutOfMemory>
    ensures { OnOk result (out.new.items ≡ out.old.items ++ error_text error.now) }
{
    match fixed(error) {
        Some(line) => text(out, line),
        None => {
            words(out, error)?;
            text(out, b"\n")
        }
    }
}
