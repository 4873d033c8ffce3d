use h5w_model::Write;
use h5w_several_writer::SeveralWriter;

/// A session of several datasets of one file, and the pieces of the file's creation.
#[derive(Drop)]
pub struct SeveralState {
    /// Those that are still to be written, the oldest first. The session goes on behind them.
    pub first: Vec<Write>,
    pub session: SeveralWriter,
}
