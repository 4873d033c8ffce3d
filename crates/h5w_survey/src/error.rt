use h5w_check::CheckError;
use h5w_headers::FindError;
use thiserror::Error;

/// Why a file is not written anew, tried in this order.
#[derive(Clone, Copy, Debug, PartialEq, Eq, Error)]
pub enum SurveyError {
    /// The check's first finding, by its kind (docs/FORMAT.md, "What a check finds, in the order tried"), and its place. A file that was
    /// valid, and that somebody else changed before it was looked at again, has kind 8 at 0.
    #[error("finding {kind} at {at}")]
    Finding {
        kind: u8,
        at: u64,
    },
    /// The range of `len` bytes at `at` begins before the end of the one of `other_len` bytes at `other`.
    #[error("{len} bytes at {at} overlap {other_len} bytes at {other}")]
    Overlap {
        at: u64,
        len: u64,
        other: u64,
        other_len: u64,
    },
    /// Somebody writes the file, or did not close it: flag bit 0 or 2 is set.
    #[error("flags {flags}")]
    Flags {
        flags: u8,
    },
    /// The image's count of faults rose in this call.
    #[error("image failed")]
    Failed,
    #[error("out of memory")]
    OutOfMemory,
}

impl From<CheckError> for SurveyError {
    ghost use Rattle.std.specs.Prelude.{◌≡◌};
    ghost use Rattle.h5w_survey.specs.Errors.{of_check};

    ghost from_gives = { λ cause e. e ≡ of_check cause };

    fn from(e: CheckError) -> SurveyError {
        match e {
            CheckError::Finding { kind, at } => SurveyError::Finding { kind, at },
            CheckError::Overlap {
                at,
                len,
                other,
                other_len,
            } => SurveyError::Overlap {
                at,
                len,
                other,
                other_len,
            },
            CheckError::Failed => SurveyError::Failed,
            CheckError::OutOfMemory => SurveyError::OutOfMemory,
        }
    }
}

impl From<FindError> for SurveyError {
    ghost use Rattle.std.specs.Prelude.{◌≡◌};
    ghost use Rattle.h5w_survey.specs.Errors.{of_found};

    ghost from_gives = { λ cause e. e ≡ of_found cause };

    fn from(e: FindError) -> SurveyError {
        match e {
            FindError::Refused(_) => SurveyError::Finding { kind: 8, at: 0 },
            FindError::Failed => SurveyError::Failed,
            FindError::OutOfMemory => SurveyError::OutOfMemory,
        }
    }
}
