ghost use Rattle.std.specs.Prelude.{◌≡◌};

use h5w_image::ImageError;
use h5w_model::{BlockFault, OutOfMemory};
use thiserror::Error;

/// Why an array cannot be opened.
#[derive(Clone, Copy, Debug, PartialEq, Eq, Error)]
pub enum OpenArrayError {
    /// The block at a place is refused.
    #[error("the block at {at} is refused")]
    Damaged { at: u64, fault: BlockFault },
    /// The image's count of faults rose in this call.
    #[error("image failed")]
    Failed,
    #[error("out of memory")]
    OutOfMemory,
}

impl From<ImageError> for OpenArrayError {
    ghost use Rattle.std.specs.Prelude.{◌≡◌};
    ghost use Rattle.h5w_ea_index.specs.Opened.{outside};

    ghost from_gives = { λ cause e. e ≡ outside cause };

    fn from(e: ImageError) -> OpenArrayError {
        match e {
            ImageError::Failed => OpenArrayError::Failed,
            ImageError::OutOfMemory => OpenArrayError::OutOfMemory,
        }
    }
}

impl From<OutOfMemory> for OpenArrayError {
    ghost use Rattle.std.specs.Prelude.{◌≡◌};
    ghost use Rattle.h5w_ea_index.specs.declared.error.OpenArrayError.TheVariants.{OutOfMemory as no_memory};

    ghost from_gives = { λ _ e. e ≡ no_memory };

    fn from(_e: OutOfMemory) -> OpenArrayError {
        OpenArrayError::OutOfMemory
    }
}
