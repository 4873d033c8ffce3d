//! Refusals of the decoders as a reader words them.
ghost use Rattle.std.specs.Prelude.{◌≡◌, ◌+◌, ◌≤◌, ◌^◌};
ghost use Rattle.h5w_headers.specs.Errors.{refused_header};
ghost use Rattle.h5w_dataset.specs.Listed.{OverrunBelow};

use crate::error::FindError;
use h5w_dataset::header_refusal;
use h5w_model::{BlockFault, HeaderError, ReadError};

/// The block at `place` is damaged.
pub fn damaged(place: u64, fault: BlockFault) -> FindError
    ensures { result ≡ FindError.Refused (ReadError.Damaged place fault) }
{
    FindError::Refused(ReadError::Damaged { at: place, fault })
}

/// The refusal of the header or continuation block at `place`, of which `got` bytes were found.
pub fn refused_header(place: u64, got: usize, error: HeaderError) -> FindError
    requires overrun { OverrunBelow got error }
    requires inside { place + got ≤ 2 ^ 64 }
    ensures { result ≡ refused_header place error }
{
    match header_refusal(place, got, error) {
        Ok(refusal) => FindError::Refused(refusal),
        Err(_) => FindError::OutOfMemory,
    }
}
