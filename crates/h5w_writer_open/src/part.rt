//! What the opening of a file by several names asks of each of its datasets: all of it is read first; then a session begins over it.
ghost use Rattle.std.specs.Prelude.{◌≡◌, ◌⊎◌, ◌^◌, ◌≤◌, false, [], length, IfErr, IfOk, None, OnOk, Ok, Some};
ghost use Rattle.h5w_model.specs.Numbers.{range};
ghost use Rattle.h5w_model.specs.Superblock.{super_at, super_bytes};
ghost use Rattle.h5w_model.specs.declared.root.Super.{Super};
ghost use Rattle.h5w_headers.specs.Ran.{seen};
ghost use Rattle.h5w_index.specs.Held.{view_of};
ghost use Rattle.h5w_opening.specs.Openings.{is_open};
ghost use Rattle.h5w_opening.specs.Views.{opened_of};
ghost use Rattle.h5w_writer_open.specs.OpenAnswers.{HasBegun, IsKeptIndexOf, writing_flags};
ghost use Rattle.h5w_writer_open.specs.OpenParts.{IsPartOver, IsReadAt, IsReadWell, IsUnfit, IsUnread, refused_part};
ghost use Rattle.h5w_writer_open.specs.OpenSteps.{OpenStep};

use crate::index::NoIndex;
use crate::opening::{check_block, header_piece, index_of, session_over};
use crate::ranges::{check_ranges, is_starting, kept_index};
use h5w_image::PieceRead;
use h5w_index::Index;
use h5w_model::Super;
use h5w_opening::{OpenError, Opening, check, dataset_at};
use h5w_writer::WriterCore;
use std::alloc::Global;

/// What a file with this superblock has of the dataset whose header stands at `place`, and its index. Tried in this order: the dataset header and
/// what its messages say; the blocks of its index; and the ranges of both, in the order that `open` says.
pub fn read_at<I: PieceRead>(
    alloc: Global,
    image: &mut I,
    root: Super,
    place: u64,
) -> Result<(Opening, Result<Index, NoIndex>), OpenError>
    requires closed { is_open root.flags ≡ false }
    // Where the image tells its bytes and nobody else writes it: what they have, or, where they begin with a superblock, the first refusal.
    ensures step { OpenStep (I.view image.old) (I.view image.new) (λ img x. IsReadAt img root place (opened_of x.0) (seen view_of x.1)) (λ img e. (s : Super) → super_at (range img 0 48) ≡ Ok s → IsUnread img root place e) result }
    // On every image.
    ensures well { IfOk result (λ x. IsReadWell (opened_of x.0) (seen view_of x.1)) }
    ensures root { IfOk result (λ x. (opened_of x.0).root ≡ root) }
{
    let header = dataset_at(alloc, image, place)?;
    let found = Opening {
        root,
        place,
        header,
    };
    let index = index_of(alloc, image, &found.header.dataset)?;
    check_block(&index)?;
    check_ranges(alloc, &found, &index)?;
    Ok((found, index))
}

/// The index that a session begins with over a dataset that was read, where nothing refuses it.
fn fit_index(
    alloc: Global,
    found: &Opening,
    index: Result<Index, NoIndex>,
) -> Result<Index, OpenError>
    requires read { IsReadWell (opened_of found.now) (seen view_of index) }
    ensures kept { IfOk result (λ v. IsKeptIndexOf (opened_of found.now).header.dataset (seen view_of index) (view_of v)) }
    ensures none { OnOk result (refused_part (opened_of found.now) (seen view_of index) ≡ None) }
    ensures first { IfErr result (λ e. (refused_part (opened_of found.now) (seen view_of index) ≡ Some e) ⊎ (e ≡ OpenError.OutOfMemory)) }
{
    check(found)?;
    kept_index(alloc, &found.header.dataset, index)
}

/// A session over a dataset that was read, up to `limit` bytes of the file, of which at most `budget` bytes wait unwritten. The image is only looked
/// at. One piece is pending, the superblock. A dataset is refused by what [`OpenError`] says from Layout on.
pub fn begin_over<I: PieceRead>(
    alloc: Global,
    image: &mut I,
    name: &[u8],
    found: &Opening,
    index: Result<Index, NoIndex>,
    limit: u64,
    budget: u64,
) -> Result<WriterCore, OpenError>
    requires name { length name.now ≤ 512 }
    requires high { limit ≤ 2 ^ 40 }
    requires budget { (1024 ≤ budget) × (budget ≤ 2 ^ 30) }
    requires read { IsReadWell (opened_of found.now) (seen view_of index) }
    // Where the image tells its bytes and nobody else writes it: the session over it, or, where the dataset header was found in it, the first
    // refusal.
    ensures step { OpenStep (I.view image.old) (I.view image.new) (λ img s. IsPartOver img (opened_of found.now) (seen view_of index) name.now limit budget s) (λ img e. IsUnfit img (opened_of found.now) (seen view_of index) e) result }
    // On every image.
    ensures begun { IfOk result (λ s. HasBegun name.now limit budget s) }
    ensures root { IfOk result (λ s. s.root ≡ record ((opened_of found.now).root) { version = 3; flags = writing_flags (opened_of found.now).root.flags }) }
    ensures places { IfOk result (λ s. s.places ≡ record { end = s.root.end; limit = limit; free = []; retired = []; spare = 0 }) }
    ensures long { IfOk result (λ s. 48 ≤ s.root.end) }
    ensures reads { IfOk result (λ s. super_at (super_bytes s.root) ≡ Ok s.root) }
{
    let index = fit_index(alloc, found, index)?;
    let starts = is_starting(&found.header.dataset);
    let header = header_piece(alloc, image, found.place, found.header.len, starts)?;
    let session = session_over(alloc, found, header, index, name, limit, budget)?;
    Ok(session)
}
