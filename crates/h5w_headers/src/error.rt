ghost use Rattle.std.specs.Prelude.{◌≡◌};

use h5w_image::ImageError;
use h5w_model::{OutOfMemory, ReadError};
use std::alloc::AllocError;
use thiserror::Error;

/// Why a header or a dataset is not found.
#[derive(Clone, Copy, Debug, PartialEq, Eq, Error)]
pub enum FindError {
    /// The first refusal. It is none of want of memory.
    #[error("refused")]
    Refused(ReadError),
    /// The image's count of faults rose in this call.
    #[error("image failed")]
    Failed,
    #[error("out of memory")]
    OutOfMemory,
}

impl From<ImageError> for FindError {
    ghost use Rattle.std.specs.Prelude.{◌≡◌};
    ghost use Rattle.h5w_headers.specs.Errors.{outside};

    ghost from_gives = { λ cause e. e ≡ outside cause };

    fn from(e: ImageError) -> FindError {
        match e {
            ImageError::Failed => FindError::Failed,
            ImageError::OutOfMemory => FindError::OutOfMemory,
        }
    }
}

impl From<OutOfMemory> for FindError {
    ghost use Rattle.std.specs.Prelude.{◌≡◌};
    ghost use Rattle.h5w_headers.specs.declared.error.FindError.TheVariants.{OutOfMemory as no_memory};

    ghost from_gives = { λ _ e. e ≡ no_memory };

    fn from(_e: OutOfMemory) -> FindError {
        FindError::OutOfMemory
    }
}

impl From<AllocError> for FindError {
    ghost use Rattle.std.specs.Prelude.{◌≡◌};
    ghost use Rattle.h5w_headers.specs.declared.error.FindError.TheVariants.{OutOfMemory as no_memory};

    ghost from_gives = { λ _ e. e ≡ no_memory };

    fn from(_e: AllocError) -> FindError {
        FindError::OutOfMemory
    }
}
