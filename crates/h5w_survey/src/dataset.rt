//! A dataset, from the root header on.
ghost use Rattle.std.specs.Prelude.{None};
ghost use Rattle.h5w_model.specs.Programs.{eval};
ghost use Rattle.h5w_headers.specs.Errors.{find_errors};
ghost use Rattle.h5w_headers.specs.Ran.{Ran, seen};
ghost use Rattle.h5w_lookup.specs.Descents.{reading_news};
ghost use Rattle.h5w_survey.specs.Lookups.{behind_place, behind_root, place_behind};

use crate::addresses::addresses;
use h5w_headers::{FindError, dataset_header, place_of, root_header};
use h5w_image::PieceRead;
use h5w_lookup::{News, Rules};
use std::alloc::Global;

/// The place to which the link of this name leads, by the root header at `root`.
fn header_place<I: PieceRead>(
    alloc: Global,
    image: &mut I,
    root: u64,
    name: &[u8],
) -> Result<u64, FindError>
    ensures ran { Ran find_errors (I.view image.old) (I.view image.new) (λ img. eval img (place_behind root name.now)) result }
{
    let header = root_header(alloc, image, false, root)?;
    place_of(alloc, header.messages, name)
}

/// The dataset whose header stands at `place`, with the addresses of its chunks.
fn described<I: PieceRead>(alloc: Global, image: &mut I, place: u64) -> Result<News, FindError>
    ensures ran { Ran find_errors (I.view image.old) (I.view image.new) (λ img. eval img (behind_place place)) (seen (reading_news None) result) }
{
    let header = dataset_header(alloc, image, false, place)?;
    let rules = Rules { attempts: 1, place };
    addresses(alloc, image, &rules, &header.messages)
}

/// The dataset of this name, with the addresses of its chunks, by the root header at `root`.
pub fn dataset<I: PieceRead>(
    alloc: Global,
    image: &mut I,
    root: u64,
    name: &[u8],
) -> Result<News, FindError>
    ensures ran { Ran find_errors (I.view image.old) (I.view image.new) (λ img. eval img (behind_root root name.now)) (seen (reading_news None) result) }
{
    let place = header_place(alloc, image, root, name)?;
    described(alloc, image, place)
}
