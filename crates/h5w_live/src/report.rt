//! What a run reports, and why it does not.
ghost use Rattle.h5w_live.specs.Reports.{TellsNone};

use crate::lists::{FlushLines, PollLines};
use h5w_image::Journal;
use h5w_model::OutOfMemory;
use h5w_shared::Worn;
use h5w_writer::Full;
use std::fmt;
use thiserror::Error;

/// What a run came to: all pieces that became visible, a line for each flush, and a line for each call of each reader.
#[derive(Drop)]
pub struct LiveReport {
    pub journal: Journal,
    pub flushes: FlushLines,
    pub polls: PollLines,
}

/// Why a run did not report.
#[derive(Drop, Error)]
pub enum LiveError {
    /// The first value outside the type, by its batch, counted from 1, and its index in the batch.
    #[error("value {index} of batch {batch} is {value}")]
    OutOfRange { batch: u64, index: u64, value: i128 },
    /// More chunks than the dataset's index has.
    #[error("{chunks} chunks, at most {limit}")]
    Chunks { chunks: u64, limit: u64 },
    /// The file has no place.
    #[error("{0}")]
    Space(Full),
    /// A seat was shown the ticket word at 2^63.
    #[error("image failed")]
    Failed(Worn),
    #[error("out of memory")]
    OutOfMemory,
}

impl fmt::Debug for LiveError {
    fn fmt<W: fmt::Write>(&self, f: &mut fmt::Formatter<W>) -> fmt::Result {
        write!(f, "{self}")
    }
}

/// What ends a run but the values and the file.
#[derive(Drop)]
pub enum Loss {
    /// A seat was shown the ticket word at 2^63.
    Failed(Worn),
    OutOfMemory,
}

impl From<OutOfMemory> for Loss {
    ghost use Rattle.h5w_live.specs.declared.report.Loss.TheVariants.{OutOfMemory as no_memory};
    ghost use Rattle.std.specs.Prelude.{◌≡◌};

    ghost from_gives = { λ _ r. r ≡ no_memory };

    fn from(_e: OutOfMemory) -> Loss {
        Loss::OutOfMemory
    }
}

/// The error of such an end.
pub fn lost(loss: Loss) -> LiveError
    ensures { TellsNone result }
{
    match loss {
        Loss::Failed(worn) => LiveError::Failed(worn),
        Loss::OutOfMemory => LiveError::OutOfMemory,
    }
}
