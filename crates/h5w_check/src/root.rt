//! The root group's header, and the places of the datasets' headers.
ghost use Rattle.std.specs.Prelude.{◌≡◌, []};
ghost use Rattle.h5w_model.specs.Programs.{eval};
ghost use Rattle.h5w_model.specs.Datasets as model;
ghost use Rattle.h5w_model.specs.Findings.{checked_links, checked_names};
ghost use Rattle.h5w_dataset.specs.Founds.{founds};
ghost use Rattle.h5w_headers.specs.Headers.{header_of};
ghost use Rattle.h5w_check.specs.Ran.{Ran, Told, seen};
ghost use Rattle.h5w_check.specs.Headers.{finding_for};
ghost use Rattle.h5w_check.specs.Roots.{met_again, names_after};

use crate::error::CheckError;
use crate::ranges::Ranges;
use crate::refusal::finding;
use h5w_dataset::FoundMessage;
use h5w_headers::{Header, places_of};
use h5w_image::PieceRead;
use h5w_names::Names;
use h5w_super::Super;
use std::alloc::Global;

/// The root header is refused.
const ROOT_HEADER: u8 = 6;

/// The root group has no such link.
const LINK: u8 = 7;

/// Two names lead to one dataset header.
const SAME_HEADER: u8 = 21;

/// The root header at `place`.
fn root_header<I: PieceRead>(alloc: Global, image: &mut I, place: u64) -> Result<Header, CheckError>
    ensures { Ran (I.view image.old) (I.view image.new) (λ img. finding_for 6 place (eval img (model.root_header place))) (seen header_of result) }
{
    match h5w_headers::root_header(alloc, image, false, place) {
        Ok(header) => Ok(header),
        Err(error) => Err(finding(&error, ROOT_HEADER, place)),
    }
}

/// The first of these places that stands among those before it too.
fn met_again(places: &[u64]) -> Option<u64>
    ensures { result ≡ met_again [] places.now }
{
    for (i, place) in places.iter().enumerate() {
        if places[..i].contains(place) {
            return Some(*place);
        }
    }
    None
}

/// The places that the links of these names give, in the root header at `root` with these messages, where no two are the same. Link
/// after link: what is found of a name comes before any later name.
fn places(
    alloc: Global,
    root: u64,
    found: Vec<FoundMessage>,
    names: &Names,
) -> Result<Vec<u64>, CheckError>
    ensures { Told (checked_links root [] names.now (founds found.items)) (seen (λ v. v.items) result) }
{
    let linked = places_of(alloc, found, names)?;
    if let Some(at) = met_again(&linked.places) {
        return Err(CheckError::Finding {
            kind: SAME_HEADER,
            at,
        });
    }
    match linked.refused {
        Some(_) => Err(CheckError::Finding {
            kind: LINK,
            at: root,
        }),
        None => Ok(linked.places),
    }
}

/// The places of the dataset headers, by the root header's links of these names. Adds the root header's ranges.
pub fn root<I: PieceRead>(
    alloc: Global,
    image: &mut I,
    s: &Super,
    names: &Names,
    ranges: &mut Ranges,
) -> Result<Vec<u64>, CheckError>
    ensures { Ran (I.view image.old) (I.view image.new) (λ img. names_after ranges.old (eval img (checked_names names.now s.now))) (seen (λ v. (v.items, ranges.new)) result) }
{
    let header = root_header(alloc, image, s.root)?;
    ranges.put_header(s.end, &header.extents)?;
    places(alloc, s.root, header.messages, names)
}
