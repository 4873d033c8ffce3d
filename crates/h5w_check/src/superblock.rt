//! The superblock.
ghost use Rattle.std.specs.Prelude.{◌≡◌};
ghost use Rattle.h5w_model.specs.Numbers.{range};
ghost use Rattle.h5w_model.specs.Datasets.{is_swmr};
ghost use Rattle.h5w_model.specs.Findings.{checked_super};
ghost use Rattle.h5w_check.specs.Ran.{Ran, Told};

use crate::error::CheckError;
use crate::read::read;
use h5w_image::PieceRead;
use h5w_super::{LEN, Super, SuperError, decode};
use std::alloc::Global;

/// The kinds of findings about the superblock; their place is 0.
const NOT_HDF5: u8 = 1;

const NO_SUPERBLOCK: u8 = 2;

const SUM: u8 = 3;

const FLAGS: u8 = 4;

const END: u8 = 5;

/// Whether the flags say open for writing and open for SWMR writing, or neither. In version 2 they say nothing.
fn is_swmr(s: &Super) -> bool
    ensures { result ≡ is_swmr s.now }
{
    s.version == 2 || s.flags % 2 == s.flags / 4 % 2
}

/// A finding of the superblock.
fn found(kind: u8) -> CheckError
    ensures { result ≡ CheckError.Finding kind 0 }
{
    CheckError::Finding { kind, at: 0 }
}

/// The superblock that these bytes are, in an image of `size` bytes.
fn checked(b: &[u8], size: u64) -> Result<Super, CheckError>
    ensures { Told (checked_super size b.now) result }
{
    let s = match decode(b) {
        Ok(s) => s,
        Err(SuperError::NotHdf5) => return Err(found(NOT_HDF5)),
        Err(SuperError::Sum(_)) => return Err(found(SUM)),
        Err(_) => return Err(found(NO_SUPERBLOCK)),
    };
    if !is_swmr(&s) {
        return Err(found(FLAGS));
    }
    if size < s.end {
        return Err(found(END));
    }
    Ok(s)
}

/// The superblock of an image of `size` bytes.
pub fn superblock<I: PieceRead>(
    alloc: Global,
    image: &mut I,
    size: u64,
) -> Result<Super, CheckError>
    ensures { Ran (I.view image.old) (I.view image.new) (λ img. checked_super size (range img 0 48)) result }
{
    let bytes = read(alloc, image, 0, LEN as u64)?;
    checked(&bytes, size)
}
