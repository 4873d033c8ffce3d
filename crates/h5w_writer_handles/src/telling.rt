//! What a session's answers are told as.
ghost use Rattle.std.specs.Prelude.{◌≡◌};
ghost use Rattle.h5w_writer_lines.specs.Lines.{line_text};
ghost use Rattle.h5w_writer_handles.specs.Tellings.{PutsLine, append_told, close_told, flush_told, open_told};

use h5w_handles::{H5wCode, H5wTold, put_text, refusal_told};
use h5w_writer::{AppendError, CloseError, FlushError};
use h5w_writer_lines::{WriterLine, write_line};
use h5w_writer_open::OpenError;
use std::alloc::Global;

/// Why a file is not opened.
pub fn open_told(error: &OpenError) -> H5wTold
    ensures { result ≡ open_told error.now }
{
    match error {
        OpenError::Read(refusal) => refusal_told(refusal),
        OpenError::Version { version } => H5wCode::Opened.with(1, u64::from(*version)),
        OpenError::Flags { flags } => H5wCode::Opened.with(2, u64::from(*flags)),
        OpenError::Cut { end, .. } => H5wCode::Opened.with(3, *end),
        OpenError::Layout => H5wCode::Opened.with(4, 0),
        OpenError::ChunkBytes { bytes, .. } => H5wCode::Opened.with(5, *bytes),
        OpenError::NoColumns => H5wCode::Opened.with(6, 0),
        OpenError::Same { second, .. } => H5wCode::Opened.with(7, *second),
        OpenError::Finding { kind, at } => H5wCode::Opened.with(u32::from(*kind), *at),
        OpenError::Failed | OpenError::OutOfMemory => H5wCode::Memory.alone(),
    }
}

/// Why rows are not appended.
pub fn append_told(error: &AppendError) -> H5wTold
    ensures { result ≡ append_told error.now }
{
    match error {
        AppendError::Stopped => H5wCode::Stopped.alone(),
        AppendError::Busy { pending } => H5wCode::Busy.with(0, *pending),
        AppendError::OutOfRange { index, .. } => H5wCode::Range.with(0, *index),
        AppendError::Chunks { limit, .. } => H5wCode::Chunks.with(0, *limit),
        AppendError::Failed | AppendError::OutOfMemory => H5wCode::Memory.alone(),
    }
}

/// Why a flush is not planned.
pub fn flush_told(error: &FlushError) -> H5wTold
    ensures { result ≡ flush_told error.now }
{
    match error {
        FlushError::Stopped => H5wCode::Stopped.alone(),
        FlushError::Busy { pending } => H5wCode::Busy.with(0, *pending),
        FlushError::Space(full) => H5wCode::Full.with(1, full.at),
        FlushError::Deep => H5wCode::Full.with(2, 0),
        FlushError::Failed | FlushError::OutOfMemory => H5wCode::Memory.alone(),
    }
}

/// Why a session is not closed.
pub fn close_told(error: &CloseError) -> H5wTold
    ensures { result ≡ close_told error.now }
{
    match error {
        CloseError::Stopped => H5wCode::Stopped.alone(),
        CloseError::Busy { pending } => H5wCode::Busy.with(0, *pending),
    }
}

/// Puts a line at the front of `text`, as much of it as there is room for, unless memory is wanting for it.
fn put(alloc: Global, line: &WriterLine, text: &mut [u8])
    ensures { PutsLine (line_text line.now) text.old text.new }
{
    let mut bytes = Vec::new(alloc);
    if write_line(&mut bytes, line).is_err() {
        return;
    }
    put_text(&bytes, text);
}

/// Tells why a call is refused, and puts its line.
pub fn refuse(alloc: Global, told: H5wTold, line: &WriterLine, text: &mut [u8]) -> H5wTold
    ensures told { result ≡ told }
    ensures line { PutsLine (line_text line.now) text.old text.new }
{
    put(alloc, line, text);
    told
}
