ghost use Rattle.std.specs.Prelude.{◌≡◌, ◌++◌, OnOk};
ghost use Rattle.h5w_writer_lines.specs.Lines.{append_line, close_line, flush_line, line_text, open_line};

use h5w_model::{OutOfMemory, ReadError, Reply};
use h5w_opening::OpenError;
use h5w_text::{ErrorLine, write_error, write_reply};
use h5w_writer::{AppendError, CloseError, FlushError};

/// The line of a refusal of a session's call. That the session is stopped, or has pieces that are pending, ends no command: these are replies.
#[derive(Drop)]
pub enum WriterLine {
    Error(ErrorLine),
    /// So many pieces are pending.
    Busy { pending: u64 },
    Stopped,
}

/// Why a file is not opened to append to it.
pub fn open_line(error: OpenError) -> ErrorLine
    ensures { result ≡ open_line error }
{
    match error {
        OpenError::Read(refusal) => ErrorLine::Read(refusal),
        OpenError::Version { version } => ErrorLine::WriterVersion(version),
        OpenError::Flags { flags } => ErrorLine::Read(ReadError::NotSwmr { flags }),
        OpenError::Cut { end, size } => ErrorLine::Cut { end, size },
        OpenError::Layout => ErrorLine::Layout,
        OpenError::ChunkBytes { bytes, limit: _ } => ErrorLine::ChunkBytes(bytes),
        OpenError::NoColumns => ErrorLine::NoColumns,
        OpenError::Same { first, second } => ErrorLine::Same { first, second },
        OpenError::Finding { kind, at } => ErrorLine::Finding { kind, at },
        OpenError::Failed => ErrorLine::Disk,
        OpenError::OutOfMemory => ErrorLine::Memory,
    }
}

/// Why values are not appended, which are those of the line of this number.
pub fn append_line(line: u64, error: AppendError) -> WriterLine
    ensures { result ≡ append_line line error }
{
    match error {
        AppendError::Stopped => WriterLine::Stopped,
        AppendError::Busy { pending } => WriterLine::Busy { pending },
        AppendError::OutOfRange { index, value } => {
            WriterLine::Error(ErrorLine::Range { line, index, value })
        }
        AppendError::Chunks { chunks, limit } => {
            WriterLine::Error(ErrorLine::FullChunks { chunks, limit })
        }
        AppendError::Failed => WriterLine::Error(ErrorLine::Disk),
        AppendError::OutOfMemory => WriterLine::Error(ErrorLine::Memory),
    }
}

/// Why a flush is not planned.
pub fn flush_line(error: FlushError) -> WriterLine
    ensures { result ≡ flush_line error }
{
    match error {
        FlushError::Stopped => WriterLine::Stopped,
        FlushError::Busy { pending } => WriterLine::Busy { pending },
        FlushError::Space(full) => WriterLine::Error(ErrorLine::FullSpace {
            at: full.at,
            size: full.size,
            limit: full.limit,
        }),
        FlushError::Deep => WriterLine::Error(ErrorLine::Deep),
        FlushError::Failed => WriterLine::Error(ErrorLine::Disk),
        FlushError::OutOfMemory => WriterLine::Error(ErrorLine::Memory),
    }
}

/// Why a session is not closed.
pub fn close_line(error: CloseError) -> WriterLine
    ensures { result ≡ close_line error }
{
    match error {
        CloseError::Stopped => WriterLine::Stopped,
        CloseError::Busy { pending } => WriterLine::Busy { pending },
    }
}

/// Adds the line, with the byte 0a behind it. Where memory is refused, a part of it may stand behind what was there.
pub fn write_line(out: &mut Vec<u8>, line: &WriterLine) -> Result<(), OutOfMemory>
    ensures { OnOk result (out.new.items ≡ out.old.items ++ line_text line.now) }
{
    match line {
        WriterLine::Error(error) => write_error(out, error),
        WriterLine::Busy { pending } => write_reply(out, &Reply::Busy { pending: *pending }),
        WriterLine::Stopped => write_reply(out, &Reply::Stopped),
    }
}
