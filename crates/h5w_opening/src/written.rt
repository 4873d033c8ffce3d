//! A file that somebody writes, or wrote and did not close, as another writer takes it over.
ghost use Rattle.std.specs.Prelude.{◌≡◌, true, length, IfErr, IfOk};
ghost use Rattle.h5w_model.specs.Programs.{eval};
ghost use Rattle.h5w_headers.specs.Ran.{Ran, Told, seen};
ghost use Rattle.h5w_opening.specs.Errors.{IsOpenKind, open_errors};
ghost use Rattle.h5w_opening.specs.Fronts.{written_front};
ghost use Rattle.h5w_opening.specs.Openings.{is_written, super_by, written_super};
ghost use Rattle.h5w_opening.specs.Views.{front_fields_of};

use crate::error::OpenError;
use crate::finding::READ_ONLY;
use crate::names::{Front, header_places};
use h5w_headers::superblock;
use h5w_image::PieceRead;
use h5w_model::Super;
use h5w_names::Names;
use std::alloc::Global;

/// Whether the file is open for writing and for SWMR writing.
fn is_written(flags: u8) -> bool
    ensures { result ≡ is_written flags }
{
    flags % 2 == 1 && flags / 4 % 2 == 1
}

/// The superblock, where it is of a version that is written, the file is open for SWMR writing and has all its bytes.
fn written(s: Super, size: u64) -> Result<Super, OpenError>
    ensures told { Told open_errors (written_super size s) result }
    ensures kinds { IfErr result IsOpenKind }
    ensures written { IfOk result (λ t. is_written t.flags ≡ true) }
{
    if s.version == READ_ONLY {
        return Err(OpenError::Version { version: READ_ONLY });
    }
    if !is_written(s.flags) {
        return Err(OpenError::Flags { flags: s.flags });
    }
    if size < s.end {
        return Err(OpenError::Cut { end: s.end, size });
    }
    Ok(s)
}

/// The superblock of a file of `size` bytes.
fn start_written<I: PieceRead>(alloc: Global, image: &mut I, size: u64) -> Result<Super, OpenError>
    ensures ran { Ran open_errors (I.view image.old) (I.view image.new) (super_by (written_super size)) result }
    ensures kinds { IfErr result IsOpenKind }
    ensures written { IfOk result (λ t. is_written t.flags ≡ true) }
{
    let s = superblock(alloc, image)?;
    written(s, size)
}

/// Finds the superblock and the datasets of these names in a file of `size` bytes that is open for SWMR writing, as one
/// is whose writer was stopped. Flags: one of its two flags is not set. All else is found, and refused, as [`find_front`]
/// finds it.
///
/// [`find_front`]: crate::find_front
pub fn find_written<I: PieceRead>(
    alloc: Global,
    image: &mut I,
    size: u64,
    names: &Names,
) -> Result<Front, OpenError>
    // Where the image tells its bytes and nobody else writes it: Ok exactly where they have this, and else the first refusal, unless the
    // image failed, which its count of faults shows, or memory ran out.
    ensures ran { Ran open_errors (I.view image.old) (I.view image.new) (λ img. eval img (written_front size names.now)) (seen front_fields_of result) }
    // On every image a Read is none of NotSwmr, Again, Shrunk and OutOfMemory.
    ensures kinds { IfErr result IsOpenKind }
    // On every image both flags are set, and each name has its place.
    ensures written { IfOk result (λ f. is_written f.root.flags ≡ true) }
    ensures len { IfOk result (λ f. length f.places.items ≡ length names.now) }
{
    let root = start_written(alloc, image, size)?;
    let places = header_places(alloc, image, root.root, names)?;
    Ok(Front { root, places })
}
