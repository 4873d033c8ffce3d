//! The dataset's header.
ghost use Rattle.std.specs.Prelude.{◌≡◌, ◌+◌, ◌≤◌, ◌^◌, length, IfErr};
ghost use Rattle.h5w_model.specs.Programs.{eval};
ghost use Rattle.h5w_headers.specs.Ran.{Ran, seen};
ghost use Rattle.h5w_headers.specs.Errors.{IsFindKind, find_errors};
ghost use Rattle.h5w_headers.specs.Walks.{dataset_header_for};
ghost use Rattle.h5w_headers.specs.Headers.{header_of};

use crate::error::FindError;
use crate::read::read;
use crate::refusal::refused_header;
use crate::walk::{Header, from_chunk_0};
use h5w_image::{PIECE, PieceRead};
use h5w_model::{ReadError, Unsupported};
use h5w_ohdr::prefix;
use std::alloc::Global;

/// Chunk 0 has more bytes than a piece.
fn too_long() -> FindError
    ensures { result ≡ FindError.Refused (ReadError.Unsupported (record { 0 = 1 })) }
{
    FindError::Refused(ReadError::Unsupported(Unsupported(1)))
}

/// The dataset header at `place`, with its continuation blocks; to be written too, where `writing` says so.
pub fn dataset_header<I: PieceRead>(
    alloc: Global,
    image: &mut I,
    writing: bool,
    place: u64,
) -> Result<Header, FindError>
    // Where the image tells its bytes and nobody else writes it: Ok exactly where they have this header, and else the first refusal,
    // unless the image failed, which its count of faults shows, or memory ran out.
    ensures ran { Ran find_errors (I.view image.old) (I.view image.new) (λ img. eval img (dataset_header_for writing place)) (seen header_of result) }
    ensures kinds { IfErr result IsFindKind }
{
    let mut bytes = read(alloc, image, place, PIECE as u64)?;
    let p = match prefix(&bytes) {
        Ok(p) => p,
        Err(error) => return Err(refused_header(place, 0, error)),
    };
    if p.total > PIECE as u64 {
        return Err(too_long());
    }
    bytes.truncate(p.total as usize);
    from_chunk_0(alloc, image, writing, place, &p, &bytes)
}
