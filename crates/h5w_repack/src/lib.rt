//! What a file has of some datasets, written anew into a file of its own without lost places.
//!
//! The source may be of any maker. Chunks past the rows, attributes and other datasets are not carried.
#![tactic(auto)]

mod copying;
mod error;
mod pair;
mod repacking;

pub use copying::copy;
pub use error::{CopyError, RepackError};
pub use h5w_packing::{Packing, PlanError, Range, Ranges, Source, kind, plan, tiles};
pub use h5w_survey::{SurveyError, survey};
pub use pair::{Images, Pair};
pub use repacking::repack;
