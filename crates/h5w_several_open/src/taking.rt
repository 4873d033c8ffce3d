//! A session over the datasets of a file that another writer left.
ghost use Rattle.std.specs.Prelude.{◌≡◌, ◌^◌, ◌≤◌, ℕ, List, false, length, IfErr, IfOk, Err};
ghost use Rattle.std.specs.List.{All};
ghost use Rattle.h5w_model.specs.Causes.{Rose};
ghost use Rattle.h5w_model.specs.Findings.{AllSummary, AllValid};
ghost use Rattle.h5w_model.specs.Relations.{AllPaired};
ghost use Rattle.h5w_model.specs.Several.{Begun};
ghost use Rattle.h5w_image.specs.View.{Looked};
ghost use Rattle.h5w_looks.specs.Still.{IsStill};
ghost use Rattle.h5w_opening.specs.Errors.{IsOpenKind};
ghost use Rattle.h5w_opening.specs.Openings.{is_open};
ghost use Rattle.h5w_several_writer_laws.specs.Bounds.{IsGrown};
ghost use Rattle.h5w_several_writer_laws.specs.Standing.{StandsAll};
ghost use Rattle.h5w_several_open.specs.Begins.{ReadsIt};
ghost use Rattle.h5w_several_open.specs.Stands.{opened_file};
ghost use Rattle.h5w_several_open.specs.Taken.{HasTakenAll, IsTakenAnswer, closed_front};

use crate::opening::parts_at;
use h5w_image::PieceRead;
use h5w_model::Super;
use h5w_names::Names;
use h5w_opening::{OpenError, find_written};
use h5w_several_writer::SeveralWriter;
use std::alloc::Global;

/// The superblock with the flags of a file that nobody writes.
pub(crate) fn closed_front(root: Super) -> Super
    ensures closed { result ≡ closed_front root }
    ensures flags { is_open result.flags ≡ false }
{
    Super {
        flags: root.flags - root.flags % 2 - root.flags / 4 % 2 * 4,
        ..root
    }
}

/// Takes over the datasets of these names, 1 to 8 of them, in a file of `size` bytes that another session left open for
/// SWMR writing: both flags are set. One session appends rows to all, up to `limit` bytes of the file, of which at most
/// `budget` bytes of each dataset wait unwritten. The image is only looked at. Nothing is pending: the superblock is the
/// file's. New places begin at its end-of-file address, and nothing is free. Rows that the other session had not flushed
/// are gone. Nobody else may write the file from then on.
///
/// Refusals come in the order that [`open_parts`] says; Flags where one of the two flags is not set. Failed: the image's
/// count of faults rose.
///
/// [`open_parts`]: crate::open_parts
pub fn takeover<I: PieceRead>(
    alloc: Global,
    image: &mut I,
    size: u64,
    names: &Names,
    limit: u64,
    budget: u64,
) -> Result<SeveralWriter, OpenError>
    requires some { 1 ≤ length names.now }
    requires few { length names.now ≤ 8 }
    requires names { All (λ name. length name ≤ 512) names.now }
    requires low { 1024 ≤ limit }
    requires high { limit ≤ 2 ^ 40 }
    requires budget { (1024 ≤ budget) × (budget ≤ 2 ^ 30) }
    ensures looked { Looked (I.view image.old) (I.view image.new) }
    ensures cause { result ≡ Err OpenError.Failed → Rose (I.view image.old).faults (I.view image.new).faults }
    // on every image a Read is none of NotSwmr, Again, Shrunk and OutOfMemory
    ensures kinds { IfErr result IsOpenKind }
    // where the image tells its bytes and nobody else writes it
    ensures exact { (img : List ℕ) → IsStill (I.view image.old) img → IsTakenAnswer img size names.now limit budget result }
    // on every image
    ensures begun { IfOk result (HasTakenAll names.now limit budget) }
    // where the file is valid for all names, the session stands for the log over it to which nothing happened yet
    ensures stands { IfOk result (λ s. (img : List ℕ) (t : AllSummary) (sets : List Begun) → IsStill (I.view image.old) img → AllValid img names.now t → AllPaired (ReadsIt img) names.now sets → StandsAll s (opened_file img sets)) }
    // the log has room for where the file ends
    ensures grown { IfOk result (λ s. (img : List ℕ) (sets : List Begun) → IsStill (I.view image.old) img → IsGrown s (opened_file img sets)) }
{
    let front = find_written(alloc, image, size, names)?;
    let parts = parts_at(
        alloc,
        image,
        closed_front(front.root),
        &front.places,
        names,
        limit,
        budget,
    )?;
    let root = parts[0].root();
    Ok(SeveralWriter::at_rest(parts, root, limit))
}
