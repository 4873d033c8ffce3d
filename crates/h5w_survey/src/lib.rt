//! What a file has of datasets that are to be written anew: their grids of chunks, and where each chunk of their rows stands.
//!
//! The source may be of any maker. It is checked as a whole, nobody may be writing it, and then it is looked at as a reader looks, in
//! looks of at most 512 bytes. Chunks past the rows are not among what it has.
#![tactic(auto)]

mod addresses;
mod dataset;
mod error;
mod flags;
mod looking;
mod surveying;

pub use error::SurveyError;
pub use h5w_packing::Source;
pub use surveying::survey;
