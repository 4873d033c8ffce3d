use h5w_image::ImageError;
use thiserror::Error;

/// Why a second image does not follow.
#[derive(Clone, Copy, Debug, PartialEq, Eq, Error)]
pub enum FollowError {
    /// The batch begins at piece `first`, past the `have` pieces of the second image.
    #[error("the batch begins at piece {first}, past {have}")]
    Gap { first: u64, have: u64 },
    /// A seat's count of faults rose in this call.
    #[error("image failed")]
    Failed,
    #[error("out of memory")]
    OutOfMemory,
}

impl From<ImageError> for FollowError {
    ghost use Rattle.std.specs.Prelude.{◌≡◌};
    ghost use Rattle.h5w_replica.specs.Follows.{follow_error};

    ghost from_gives = { λ e r. r ≡ follow_error e };

    fn from(e: ImageError) -> FollowError {
        match e {
            ImageError::Failed => FollowError::Failed,
            ImageError::OutOfMemory => FollowError::OutOfMemory,
        }
    }
}
