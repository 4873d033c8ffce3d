//! The bytes of a header that is looked for.
ghost use Rattle.std.specs.Prelude.{◌≡◌, ◌+◌, ◌≤◌, ◌^◌, length, Ok, IfErr, IfOk};
ghost use Rattle.h5w_model.specs.Numbers.{range};
ghost use Rattle.h5w_headers.specs.Ran.{Ran, seen};
ghost use Rattle.h5w_headers.specs.Errors.{IsFindKind, find_errors};

use crate::error::FindError;
use h5w_image::PieceRead;
use std::alloc::Global;

/// The bytes of the image from `at` on, `len` of them, fewer where the image ends, and none from 2^64 on.
pub fn read<I: PieceRead>(
    alloc: Global,
    image: &mut I,
    at: u64,
    len: u64,
) -> Result<Vec<u8>, FindError>
    ensures ran { Ran find_errors (I.view image.old) (I.view image.new) (λ img. Ok (range img at len)) (seen (λ b. b.items) result) }
    ensures kinds { IfErr result IsFindKind }
    ensures inside { IfOk result (λ b. at + length b.items ≤ 2 ^ 64) }
    ensures few { IfOk result (λ b. length b.items ≤ len) }
{
    let bytes = h5w_looks::read(alloc, image, at, len)?;
    Ok(bytes)
}
