//! A session over one dataset of a file that another session left.
ghost use Rattle.std.specs.Prelude.{◌≡◌, ◌^◌, ◌≤◌, ℕ, ℤ, List, true, length, IfOk, Err, Ok};
ghost use Rattle.h5w_model.specs.Findings.{Summary, Valid};
ghost use Rattle.h5w_model.specs.Tables.{Reads};
ghost use Rattle.h5w_looks.specs.Still.{IsStill};
ghost use Rattle.h5w_opening.specs.Openings.{is_written};
ghost use Rattle.h5w_writer.specs.Openings.{opened_log};
ghost use Rattle.h5w_writer.specs.Stands.{Stands};
ghost use Rattle.h5w_writer_open.specs.OpenSteps.{OpenStep};
ghost use Rattle.h5w_several_open.specs.Beginnings.{HasBegunBy, IsBegunOver, IsNotBegun, taken_over, written_at};

use crate::taking::closed_front;
use h5w_image::PieceRead;
use h5w_model::Super;
use h5w_names::Names;
use h5w_opening::{OpenError, find_written};
use h5w_writer::WriterCore;
use h5w_writer_open::{begin_over, read_at};
use std::alloc::Global;

/// The superblock of a file of `size` bytes that another session left, and the place of the dataset header, by the link of
/// this name.
fn written_at<I: PieceRead>(
    alloc: Global,
    image: &mut I,
    size: u64,
    name: &[u8],
) -> Result<(Super, u64), OpenError>
    ensures step { OpenStep (I.view image.old) (I.view image.new) (λ img x. written_at size name.now img ≡ Ok (x.0, x.1)) (λ img e. written_at size name.now img ≡ Err e) result }
    ensures written { IfOk result (λ x. is_written x.0.flags ≡ true) }
{
    let names = Names::of(alloc, name)?;
    let front = find_written(alloc, image, size, &names)?;
    Ok((front.root, front.places[0]))
}

/// Takes over the dataset of this name, as [`begin_one`](crate::begin_one) says.
pub(crate) fn takeover_one<I: PieceRead>(
    alloc: Global,
    image: &mut I,
    size: u64,
    name: &[u8],
    limit: u64,
    budget: u64,
) -> Result<WriterCore, OpenError>
    requires name { length name.now ≤ 512 }
    requires low { 1024 ≤ limit }
    requires high { limit ≤ 2 ^ 40 }
    requires budget { (1024 ≤ budget) × (budget ≤ 2 ^ 30) }
    ensures step { OpenStep (I.view image.old) (I.view image.new) (λ img s. IsBegunOver taken_over img size name.now limit budget s) (λ img e. IsNotBegun taken_over img size name.now e) result }
    ensures begun { IfOk result (λ s. HasBegunBy taken_over name.now limit budget s) }
    ensures stands { IfOk result (λ s. (img : List ℕ) (rows columns : ℕ) (values : List ℤ) (sm : Summary) → IsStill (I.view image.old) img → Valid img name.now sm → Reads img name.now rows columns values
        → Stands s (opened_log img columns values)) }
{
    let (root, place) = written_at(alloc, image, size, name)?;
    let (found, index) = read_at(alloc, image, closed_front(root), place)?;
    let mut session = begin_over(alloc, image, name, &found, index, limit, budget)?;
    session.written();
    Ok(session)
}
