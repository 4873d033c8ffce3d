//! A session: one writer that appends rows to a dataset, and plans the pieces that make them visible.
#![tactic(auto)]

mod backlog;
mod early;
mod finding;
mod flush;
mod over;
mod planned;
mod planning;
mod refusal;
mod state;
mod taking;
mod telling;
mod waiting;

pub use finding::session_finds;
pub use h5w_chunks::{Fill, Grid, IndexKind, IntType, Layout, Shape};
pub use h5w_model::{Bytes, Cell, OutOfMemory, Piece, Super, Write};
pub use h5w_options::Options;
pub use h5w_space::Full;
pub use over::FileParts;
pub use planned::Planned;
pub use refusal::{AppendError, CloseError, FlushError};
pub use state::WriterCore;
