use h5w_model::OutOfMemory;
use thiserror::Error;

/// The thing outside failed. Its count of faults rose in this call.
#[derive(Clone, Copy, Debug, PartialEq, Eq, Error)]
#[error("failed")]
pub struct Failed;

/// Why room in an image was not reserved.
#[derive(Clone, Copy, Debug, PartialEq, Eq, Error)]
pub enum ImageError {
    /// Its count of faults rose in this call.
    #[error("image failed")]
    Failed,
    #[error("out of memory")]
    OutOfMemory,
}

/// Why a file was not made.
#[derive(Clone, Copy, Debug, PartialEq, Eq, Error)]
pub enum MakeError {
    /// The disk's count of faults rose in this call.
    #[error("disk failed")]
    Failed,
    #[error("out of memory")]
    OutOfMemory,
}

impl From<Failed> for ImageError {
    ghost use Rattle.std.specs.Prelude.{◌≡◌};
    ghost use Rattle.h5w_image.specs.declared.fault.ImageError.TheVariants.{Failed as failed};

    ghost from_gives = { λ _ e. e ≡ failed };

    fn from(_e: Failed) -> ImageError {
        ImageError::Failed
    }
}

impl From<OutOfMemory> for ImageError {
    ghost use Rattle.std.specs.Prelude.{◌≡◌};
    ghost use Rattle.h5w_image.specs.declared.fault.ImageError.TheVariants.{OutOfMemory as no_memory};

    ghost from_gives = { λ _ e. e ≡ no_memory };

    fn from(_e: OutOfMemory) -> ImageError {
        ImageError::OutOfMemory
    }
}

impl From<Failed> for MakeError {
    ghost use Rattle.std.specs.Prelude.{◌≡◌};
    ghost use Rattle.h5w_image.specs.declared.fault.MakeError.TheVariants.{Failed as failed};

    ghost from_gives = { λ _ e. e ≡ failed };

    fn from(_e: Failed) -> MakeError {
        MakeError::Failed
    }
}

impl From<OutOfMemory> for MakeError {
    ghost use Rattle.std.specs.Prelude.{◌≡◌};
    ghost use Rattle.h5w_image.specs.declared.fault.MakeError.TheVariants.{OutOfMemory as no_memory};

    ghost from_gives = { λ _ e. e ≡ no_memory };

    fn from(_e: OutOfMemory) -> MakeError {
        MakeError::OutOfMemory
    }
}
