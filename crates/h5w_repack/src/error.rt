use h5w_packing::PlanError;
use h5w_space::Full;
use h5w_survey::SurveyError;
use thiserror::Error;

/// Why a planned file is not there.
#[derive(Clone, Copy, Debug, PartialEq, Eq, Error)]
pub enum CopyError {
    /// The source's count of faults rose in this call.
    #[error("source failed")]
    From,
    /// The new file's count of faults rose in this call.
    #[error("new file failed")]
    To,
    /// There is no room for the pieces of the new file. None was written.
    #[error("out of memory")]
    OutOfMemory,
}

/// Why a file is not written anew. The first four are tried in this order before anything is written.
#[derive(Clone, Copy, Debug, PartialEq, Eq, Error)]
pub enum RepackError {
    /// The check's first finding in the source, by its kind (docs/FORMAT.md, "What a check finds, in the order tried"), and its place. A
    /// source that was valid, and that somebody else changed before it was looked at again, has kind 8 at 0.
    #[error("finding {kind} at {at}")]
    Finding {
        kind: u8,
        at: u64,
    },
    /// In the source the range of `len` bytes at `at` begins before the end of the one of `other_len` bytes at `other`.
    #[error("{len} bytes at {at} overlap {other_len} bytes at {other}")]
    Overlap {
        at: u64,
        len: u64,
        other: u64,
        other_len: u64,
    },
    /// Somebody writes the source, or did not close it: flag bit 0 or 2 is set.
    #[error("flags {flags}")]
    Flags {
        flags: u8,
    },
    /// The first range of the new file, by its place, that would end past the limit.
    #[error("no space")]
    Space(Full),
    /// The source's count of faults rose in this call.
    #[error("source failed")]
    From,
    /// The new file's count of faults rose in this call.
    #[error("new file failed")]
    To,
    #[error("out of memory")]
    OutOfMemory,
}

impl From<SurveyError> for RepackError {
    ghost use Rattle.std.specs.Prelude.{◌≡◌};
    ghost use Rattle.h5w_repack.specs.Errors.{of_survey};

    ghost from_gives = { λ cause e. e ≡ of_survey cause };

    fn from(e: SurveyError) -> RepackError {
        match e {
            SurveyError::Finding { kind, at } => RepackError::Finding { kind, at },
            SurveyError::Overlap {
                at,
                len,
                other,
                other_len,
            } => RepackError::Overlap {
                at,
                len,
                other,
                other_len,
            },
            SurveyError::Flags { flags } => RepackError::Flags { flags },
            SurveyError::Failed => RepackError::From,
            SurveyError::OutOfMemory => RepackError::OutOfMemory,
        }
    }
}

impl From<PlanError> for RepackError {
    ghost use Rattle.std.specs.Prelude.{◌≡◌};
    ghost use Rattle.h5w_repack.specs.Errors.{of_plan};

    ghost from_gives = { λ cause e. e ≡ of_plan cause };

    fn from(e: PlanError) -> RepackError {
        match e {
            PlanError::Full(full) => RepackError::Space(full),
            PlanError::OutOfMemory => RepackError::OutOfMemory,
        }
    }
}

impl From<CopyError> for RepackError {
    ghost use Rattle.std.specs.Prelude.{◌≡◌};
    ghost use Rattle.h5w_repack.specs.Errors.{of_copy};

    ghost from_gives = { λ cause e. e ≡ of_copy cause };

    fn from(e: CopyError) -> RepackError {
        match e {
            CopyError::From => RepackError::From,
            CopyError::To => RepackError::To,
            CopyError::OutOfMemory => RepackError::OutOfMemory,
        }
    }
}
