use crate::reader::ReaderState;
use crate::several::SeveralState;
use h5w_writer::WriterCore;

/// What a handle holds.
#[derive(Drop)]
pub enum Held {
    Reader(ReaderState),
    Writer(WriterCore),
    Several(SeveralState),
}
