ghost use Rattle.std.specs.Prelude.{◌≡◌};

use h5w_image::ImageError;
use h5w_model::OutOfMemory;
use std::alloc::{AllocError, AllocFailed};
use thiserror::Error;

/// What a valid file has of some datasets.
#[derive(Debug, PartialEq, Eq, Drop)]
pub struct Summary {
    /// The rows of each, in the order of the names.
    pub rows: Vec<u64>,
    /// The chunks that have an address in the index, those past the rows too.
    pub chunks: u64,
    /// The blocks that are no chunks, the superblock among them.
    pub blocks: u64,
    /// The end-of-file address.
    pub end: u64,
    /// The bytes below the end-of-file address that no block and no chunk has.
    pub lost: u64,
}

/// Why a file is not found valid.
#[derive(Clone, Copy, Debug, PartialEq, Eq, Error)]
pub enum CheckError {
    /// The first finding, by its kind (docs/FORMAT.md, "What a check finds, in the order tried"), and its place.
    #[error("finding {kind} at {at}")]
    Finding {
        kind: u8,
        at: u64,
    },
    /// The range of `len` bytes at `at` begins before the end of the one of `other_len` bytes at `other`.
    #[error("{len} bytes at {at} overlap {other_len} bytes at {other}")]
    Overlap {
        at: u64,
        len: u64,
        other: u64,
        other_len: u64,
    },
    /// The image's count of faults rose in this call.
    #[error("image failed")]
    Failed,
    #[error("out of memory")]
    OutOfMemory,
}

impl From<ImageError> for CheckError {
    ghost use Rattle.std.specs.Prelude.{◌≡◌};
    ghost use Rattle.h5w_check.specs.Outside.{outside};

    ghost from_gives = { λ cause e. e ≡ outside cause };

    fn from(e: ImageError) -> CheckError {
        match e {
            ImageError::Failed => CheckError::Failed,
            ImageError::OutOfMemory => CheckError::OutOfMemory,
        }
    }
}

impl From<OutOfMemory> for CheckError {
    ghost use Rattle.std.specs.Prelude.{◌≡◌};
    ghost use Rattle.h5w_check.specs.declared.error.CheckError.TheVariants.{OutOfMemory as no_memory};

    ghost from_gives = { λ _ e. e ≡ no_memory };

    fn from(_e: OutOfMemory) -> CheckError {
        CheckError::OutOfMemory
    }
}
