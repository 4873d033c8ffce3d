//! The types that definitions name, and the definitions (in specs/): what the bytes of a file mean,
//! what a log of a writer's pieces is, what readers may be answered. No crate is below this one.
#![tactic(auto)]

mod cell;
mod checksum;
mod event;
mod memory;
mod message;
mod piece;
mod refusal;
mod reply;
mod report;
mod root;

pub use cell::{Cell, IndexKind, Key, Place};
pub use checksum::checksum_vectors;
pub use event::Event;
pub use memory::{Bytes, OutOfMemory, Values};
pub use message::{Msg, Prefix};
pub use piece::{PIECE, Piece, Write};
pub use refusal::{BlockFault, HeaderError, LinkError, ReadError, Sums, SuperError, Unsupported};
pub use reply::Reply;
pub use report::{FlushLine, Poll, PollLine};
pub use root::Super;
