//! The sessions over the datasets of a file that is opened by several names.
ghost use Rattle.std.specs.Prelude.{◌≡◌, ◌^◌, ◌≤◌, ℕ, List, false, length, IfErr, IfOk, OnOk, OnErr, Err, Ok};
ghost use Rattle.std.specs.List.{All};
ghost use Rattle.h5w_model.specs.Causes.{Rose};
ghost use Rattle.h5w_model.specs.Numbers.{range};
ghost use Rattle.h5w_model.specs.Superblock.{super_at};
ghost use Rattle.h5w_model.specs.declared.root.Super.{Super};
ghost use Rattle.h5w_image.specs.View.{Looked};
ghost use Rattle.h5w_looks.specs.Still.{IsStill};
ghost use Rattle.h5w_headers.specs.Ran.{seen};
ghost use Rattle.h5w_opening.specs.Errors.{IsOpenKind};
ghost use Rattle.h5w_opening.specs.Openings.{is_open};
ghost use Rattle.h5w_writer_open.specs.OpenParts.{IsUnread};
ghost use Rattle.h5w_writer_open.specs.OpenSteps.{OpenStep};
ghost use Rattle.h5w_several_open.specs.Answers.{HasBegunWith, HaveBegun, IsOpenAnswerOf};
ghost use Rattle.h5w_several_open.specs.Progress.{ArePartsAnswer, IsPartAt, first_refusal, joined, writing_root};

use h5w_image::PieceRead;
use h5w_model::{OutOfMemory, Super};
use h5w_names::Names;
use h5w_opening::{OpenError, find_front};
use h5w_writer::WriterCore;
use h5w_writer_open::{begin_over, read_at};
use std::alloc::Global;

/// The session over the dataset of this name, whose header stands at `place`, or why no rows are appended to it: that is told once all datasets
/// were read.
fn open_part<I: PieceRead>(
    alloc: Global,
    image: &mut I,
    root: Super,
    place: u64,
    name: &[u8],
    limit: u64,
    budget: u64,
) -> Result<Result<WriterCore, OpenError>, OpenError>
    requires closed { is_open root.flags ≡ false }
    requires name { length name.now ≤ 512 }
    requires high { limit ≤ 2 ^ 40 }
    requires budget { (1024 ≤ budget) × (budget ≤ 2 ^ 30) }
    ensures step { OpenStep (I.view image.old) (I.view image.new) (λ img r. IsPartAt img root place name.now limit budget r) (λ img e. (s : Super) → super_at (range img 0 48) ≡ Ok s → IsUnread img root place e) result }
    ensures cause { IfOk result (λ r. r ≡ Err OpenError.Failed → Rose (I.view image.old).faults (I.view image.new).faults) }
    ensures kinds { IfOk result (λ r. IfErr r IsOpenKind) }
    ensures begun { IfOk result (λ r. IfOk r (HasBegunWith limit budget (writing_root root) name.now)) }
{
    let (found, index) = read_at(alloc, image, root, place)?;
    Ok(begin_over(alloc, image, name, &found, index, limit, budget))
}

/// Puts a session behind others, or keeps why there is none, where it is the first such.
fn keep(
    parts: &mut Vec<WriterCore>,
    refused: &mut Option<OpenError>,
    part: Result<WriterCore, OpenError>,
) -> Result<(), OutOfMemory>
    ensures parts { OnOk result (parts.new.items ≡ joined parts.old.items part) }
    ensures refused { OnOk result (refused.new ≡ first_refusal refused.old part) }
{
    match part {
        Ok(part) => parts.push(part)?,
        Err(e) => {
            if refused.is_none() {
                *refused = Some(e);
            }
        }
    }
    Ok(())
}

/// The sessions over the datasets of these names, whose headers stand at these places.
pub(crate) fn parts_at<I: PieceRead>(
    alloc: Global,
    image: &mut I,
    root: Super,
    places: &[u64],
    names: &Names,
    limit: u64,
    budget: u64,
) -> Result<Vec<WriterCore>, OpenError>
    requires closed { is_open root.flags ≡ false }
    requires len { length places.now ≡ length names.now }
    requires names { All (λ name. length name ≤ 512) names.now }
    requires high { limit ≤ 2 ^ 40 }
    requires budget { (1024 ≤ budget) × (budget ≤ 2 ^ 30) }
    ensures looked { Looked (I.view image.old) (I.view image.new) }
    ensures cause { result ≡ Err OpenError.Failed → Rose (I.view image.old).faults (I.view image.new).faults }
    ensures kinds { IfErr result IsOpenKind }
    ensures exact { (img : List ℕ) → IsStill (I.view image.old) img → ArePartsAnswer img root names.now places.now limit budget (seen (λ v. v.items) result) }
    ensures begun { IfOk result (λ parts. HaveBegun names.now limit budget parts.items) }
{
    let mut parts = Vec::new(alloc);
    let mut refused = None;
    for (k, name) in names.as_slice().iter().enumerate() {
        let part = open_part(
            alloc,
            image,
            root,
            places[k],
            name.as_slice(),
            limit,
            budget,
        )?;
        keep(&mut parts, &mut refused, part)?;
    }
    match refused {
        Some(e) => Err(e),
        None => Ok(parts),
    }
}

/// Opens the datasets of these names in a file of `size` bytes that is there, as one session will append to all of them up to `limit` bytes of the
/// file: one session for each, in the order of the names, of which at most `budget` bytes wait unwritten. The image is only looked at. Each has the
/// superblock pending by which the file says that it is written, the same for all, and the same places.
///
/// Tried in this order: the superblock, its version, flags and end-of-file address; the root header; all links, in the order of the names; whether two
/// lead to one dataset header; then dataset after dataset all that a look at its header and its index refuses, in the order that
/// [`open`](h5w_writer_open::open) says; and once all were read, dataset after dataset, what [`OpenError`] says from Layout on.
///
/// Failed: the image's count of faults rose.
pub fn open_parts<I: PieceRead>(
    alloc: Global,
    image: &mut I,
    size: u64,
    names: &Names,
    limit: u64,
    budget: u64,
) -> Result<Vec<WriterCore>, OpenError>
    requires names { All (λ name. length name ≤ 512) names.now }
    requires high { limit ≤ 2 ^ 40 }
    requires budget { (1024 ≤ budget) × (budget ≤ 2 ^ 30) }
    ensures looked { Looked (I.view image.old) (I.view image.new) }
    ensures cause { result ≡ Err OpenError.Failed → Rose (I.view image.old).faults (I.view image.new).faults }
    // on every image a Read is none of NotSwmr, Again, Shrunk and OutOfMemory
    ensures kinds { IfErr result IsOpenKind }
    // where the image tells its bytes and nobody else writes it
    ensures exact { (img : List ℕ) → IsStill (I.view image.old) img → IsOpenAnswerOf img size names.now limit budget (seen (λ v. v.items) result) }
    // on every image
    ensures begun { IfOk result (λ parts. HaveBegun names.now limit budget parts.items) }
{
    let front = find_front(alloc, image, size, names)?;
    parts_at(
        alloc,
        image,
        front.root,
        &front.places,
        names,
        limit,
        budget,
    )
}
