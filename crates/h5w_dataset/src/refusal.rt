//! Refusals of the decoders as a reader words them.
ghost use Rattle.std.specs.Prelude.{◌≡◌, ◌+◌, ◌≢◌, ◌≤◌, ◌^◌, IfOk, OnErr};
ghost use Rattle.h5w_model.specs.Datasets.{header_refusal, super_refusal};
ghost use Rattle.h5w_dataset.specs.Listed.{OverrunBelow};

use h5w_model::{BlockFault, HeaderError, OutOfMemory, ReadError, SuperError};

/// The refusal of the header or continuation block at `place`, of which `got` bytes were found; want of memory is none.
pub fn header_refusal(place: u64, got: usize, error: HeaderError) -> Result<ReadError, OutOfMemory>
    requires overrun { OverrunBelow got error }
    requires inside { place + got ≤ 2 ^ 64 }
    ensures exact { IfOk result (λ e. e ≡ header_refusal place error) }
    ensures other { IfOk result (λ _. error ≢ HeaderError.OutOfMemory) }
    ensures memory { OnErr result (error ≡ HeaderError.OutOfMemory) }
{
    Ok(match error {
        HeaderError::OutOfMemory => return Err(OutOfMemory),
        HeaderError::Short { need, got } => ReadError::Damaged {
            at: place,
            fault: BlockFault::Cut { need, got },
        },
        HeaderError::Sum(sums) => ReadError::Damaged {
            at: place,
            fault: BlockFault::Sum(sums),
        },
        HeaderError::Overrun { at } => ReadError::Header {
            at: place,
            error: HeaderError::Overrun { at: place + at },
        },
        error => ReadError::Header { at: place, error },
    })
}

/// The refusal of the superblock.
pub fn super_refusal(error: SuperError) -> ReadError
    ensures { result ≡ super_refusal error }
{
    match error {
        SuperError::NotHdf5 => ReadError::NotHdf5,
        SuperError::Short { got } => ReadError::Damaged {
            at: 0,
            fault: BlockFault::Cut { need: 48, got },
        },
        SuperError::Sum(sums) => ReadError::Damaged {
            at: 0,
            fault: BlockFault::Sum(sums),
        },
        error => ReadError::Super(error),
    }
}
