//! The superblock.
ghost use Rattle.std.specs.Prelude.{◌≡◌, IfErr};
ghost use Rattle.h5w_model.specs.Numbers.{range};
ghost use Rattle.h5w_model.specs.Superblock.{super_at};
ghost use Rattle.h5w_model.specs.Datasets.{refused_as, super_refusal};
ghost use Rattle.h5w_headers.specs.Ran.{Ran, Told};
ghost use Rattle.h5w_headers.specs.Errors.{IsFindKind, find_errors};

use crate::error::FindError;
use crate::read::read;
use h5w_dataset::super_refusal;
use h5w_image::PieceRead;
use h5w_super::{LEN, Super, decode};
use std::alloc::Global;

/// The superblock that these bytes are.
fn decoded(b: &[u8]) -> Result<Super, FindError>
    ensures told { Told find_errors (refused_as super_refusal (super_at b.now)) result }
    ensures kinds { IfErr result IsFindKind }
{
    match decode(b) {
        Ok(s) => Ok(s),
        Err(error) => Err(FindError::Refused(super_refusal(error))),
    }
}

/// The superblock, whatever its flags say.
pub fn superblock<I: PieceRead>(alloc: Global, image: &mut I) -> Result<Super, FindError>
    // Where the image tells its bytes and nobody else writes it: Ok exactly where they begin with a superblock, and else its refusal,
    // unless the image failed, which its count of faults shows, or memory ran out.
    ensures ran { Ran find_errors (I.view image.old) (I.view image.new) (λ img. refused_as super_refusal (super_at (range img 0 48))) result }
    ensures kinds { IfErr result IsFindKind }
{
    let bytes = read(alloc, image, 0, LEN as u64)?;
    decoded(&bytes)
}
