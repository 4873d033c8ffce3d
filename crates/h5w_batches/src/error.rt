use h5w_input::LineError;
use h5w_model::OutOfMemory;
use thiserror::Error;

/// Why the batches of an input were not read.
#[derive(Clone, Copy, Debug, PartialEq, Eq, Error)]
pub enum BatchError {
    /// The first line that has no values of rows, counted from 1.
    #[error("line {0}")]
    Line(u64),
    /// The input has more than so many bytes.
    #[error("more than {limit} bytes")]
    Input { limit: u64 },
    /// The source's count of faults rose in this call.
    #[error("source failed")]
    Source,
    #[error("out of memory")]
    OutOfMemory,
}

impl From<LineError> for BatchError {
    ghost use Rattle.std.specs.Prelude.{◌≡◌};
    ghost use Rattle.h5w_batches.specs.Reads.{error_of};

    ghost from_gives = { λ e error. error ≡ error_of e };

    fn from(e: LineError) -> BatchError {
        match e {
            LineError::Failed => BatchError::Source,
            LineError::Input { limit } => BatchError::Input { limit },
            LineError::OutOfMemory => BatchError::OutOfMemory,
        }
    }
}

impl From<OutOfMemory> for BatchError {
    ghost use Rattle.std.specs.Prelude.{◌≡◌};
    ghost use Rattle.h5w_batches.specs.declared.error.BatchError.TheVariants.{OutOfMemory as no_memory};

    ghost from_gives = { λ _ error. error ≡ no_memory };

    fn from(_e: OutOfMemory) -> BatchError {
        BatchError::OutOfMemory
    }
}
