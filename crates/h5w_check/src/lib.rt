//! The check of a whole file: whether it is valid, and what it has; else the first finding.
//!
//! docs/FORMAT.md, "What a check finds, in the order tried". The file may be of any maker. A block is looked at where it is named, in looks of
//! at most 512 bytes; but a node of a tree that is known is not looked at again where keys fell. docs/DECISIONS.md says what bounds that.
#![tactic(auto)]

mod array;
mod block;
mod error;
mod header;
mod index;
mod known;
mod overlap;
mod part;
mod ranges;
mod read;
mod refusal;
mod root;
mod span;
mod superblock;
mod tree;

ghost use Rattle.std.specs.Prelude.{◌≡◌, ℕ, List, length, Some, Err, IfSome, IsTrue};
ghost use Rattle.h5w_model.specs.Causes.{Rose};
ghost use Rattle.h5w_model.specs.Programs.{eval};
ghost use Rattle.h5w_model.specs.Tables.{format_limits};
ghost use Rattle.h5w_model.specs.Findings.{check_all};
ghost use Rattle.h5w_image.specs.View.{Looked};
ghost use Rattle.h5w_check.specs.Ran.{Ran, Tells, seen};
ghost use Rattle.h5w_check.specs.Verdicts.{datasets_found, summary_of};

pub use error::{CheckError, Summary};
use h5w_image::PieceRead;
use h5w_names::Names;
use h5w_super::Super;
use ranges::Ranges;
use std::alloc::Global;

/// Checks the file that an image of `size` bytes is, by the datasets that the root group's links of these names lead to.
pub fn check<I: PieceRead>(
    alloc: Global,
    image: &mut I,
    size: u64,
    names: &Names,
) -> Result<Summary, CheckError>
    requires { IfSome (I.view image.old).bytes (λ img. size ≡ length img) }
    // Where the image tells its bytes and nobody else writes it: Ok exactly where they are a valid file that has this, and else the
    // first finding with its place, or the overlap, unless the image failed or memory ran out.
    ensures exact { (img : List ℕ) → (I.view image.old).bytes ≡ Some img → IsTrue (I.view image.old).alone
        → Tells (eval img (check_all format_limits names.now (length img))) (seen summary_of result) }
    ensures looked { Looked (I.view image.old) (I.view image.new) }
    ensures failed { result ≡ Err CheckError.Failed → Rose (I.view image.old).faults (I.view image.new).faults }
{
    verdict_on(alloc, image, size, names)
}

/// The same, given the size.
fn verdict_on<I: PieceRead>(
    alloc: Global,
    image: &mut I,
    size: u64,
    names: &Names,
) -> Result<Summary, CheckError>
    ensures { Ran (I.view image.old) (I.view image.new) (λ img. eval img (check_all format_limits names.now size)) (seen summary_of result) }
{
    let s = superblock::superblock(alloc, image, size)?;
    let (rows, ranges) = datasets(alloc, image, &s, names)?;
    overlap::verdict(alloc, ranges, &s, rows)
}

/// The rows of all datasets, and all ranges: those of the superblock, of the root header, and of one dataset after another.
fn datasets<I: PieceRead>(
    alloc: Global,
    image: &mut I,
    s: &Super,
    names: &Names,
) -> Result<(Vec<u64>, Ranges), CheckError>
    ensures { Ran (I.view image.old) (I.view image.new) (datasets_found names.now s.now) (seen (λ x. (x.0.items, x.1)) result) }
{
    let mut ranges = Ranges::new(alloc);
    ranges.put_block(0, h5w_super::LEN as u64)?;
    let places = root::root(alloc, image, s, names, &mut ranges)?;
    let rows = part::parts(alloc, image, s, &places, &mut ranges)?;
    Ok((rows, ranges))
}
