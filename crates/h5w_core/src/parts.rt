//! The parts of a world that was taken apart.
use h5w_reader::ReaderCore;
use h5w_steady::SteadyImage;
use h5w_writer::WriterCore;

/// What a world was made of.
#[derive(Drop)]
pub struct WorldParts {
    pub session: WriterCore,
    pub image: SteadyImage,
    /// The most attempts of a reader's call.
    pub attempts: u32,
    /// A place for each reader, by its number.
    pub readers: Vec<Option<ReaderCore>>,
}
