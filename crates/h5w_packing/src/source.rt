use h5w_chunks::Grid;
use h5w_model::Bytes;

/// A dataset of a file that is written anew: its name there, its grid of chunks, and where each chunk of its rows stands.
#[derive(Drop)]
pub struct Source {
    pub name: Bytes,
    pub grid: Grid,
    /// The addresses of the chunks, by their numbers; UNDEFINED where a chunk is not there.
    pub table: Vec<u64>,
}
