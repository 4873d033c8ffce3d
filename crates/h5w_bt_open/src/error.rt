ghost use Rattle.std.specs.Prelude.{◌≡◌};

use h5w_image::ImageError;
use h5w_model::{BlockFault, OutOfMemory};
use thiserror::Error;

/// Why a tree cannot be opened.
#[derive(Clone, Copy, Debug, PartialEq, Eq, Error)]
pub enum OpenTreeError {
    /// The block at a place is refused.
    #[error("the block at {at} is refused")]
    Damaged { at: u64, fault: BlockFault },
    /// The image's count of faults rose in this call.
    #[error("image failed")]
    Failed,
    #[error("out of memory")]
    OutOfMemory,
}

impl From<ImageError> for OpenTreeError {
    ghost use Rattle.std.specs.Prelude.{◌≡◌};
    ghost use Rattle.h5w_bt_open.specs.Calls.{outside};

    ghost from_gives = { λ cause e. e ≡ outside cause };

    fn from(e: ImageError) -> OpenTreeError {
        match e {
            ImageError::Failed => OpenTreeError::Failed,
            ImageError::OutOfMemory => OpenTreeError::OutOfMemory,
        }
    }
}

impl From<OutOfMemory> for OpenTreeError {
    ghost use Rattle.std.specs.Prelude.{◌≡◌};
    ghost use Rattle.h5w_bt_open.specs.declared.error.OpenTreeError.TheVariants.{OutOfMemory as no_memory};

    ghost from_gives = { λ _ e. e ≡ no_memory };

    fn from(_e: OutOfMemory) -> OpenTreeError {
        OpenTreeError::OutOfMemory
    }
}
