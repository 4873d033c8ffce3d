//! What a file has that is opened by several names, before the first dataset header.
ghost use Rattle.std.specs.Prelude.{◌≡◌, false, length, IfErr, IfOk, Ok};
ghost use Rattle.h5w_model.specs.Programs.{eval};
ghost use Rattle.h5w_model.specs.Datasets.{number_of, same_link};
ghost use Rattle.h5w_dataset.specs.Founds.{founds};
ghost use Rattle.h5w_headers.specs.Ran.{Ran, Told, seen};
ghost use Rattle.h5w_opening.specs.Errors.{IsOpenKind, open_errors};
ghost use Rattle.h5w_opening.specs.Fronts.{front_for, places_by, places_found};
ghost use Rattle.h5w_opening.specs.Openings.{is_open};
ghost use Rattle.h5w_opening.specs.Views.{front_fields_of};

use crate::error::OpenError;
use crate::finding::start;
use h5w_dataset::FoundMessage;
use h5w_headers::{places_of, root_header};
use h5w_image::PieceRead;
use h5w_model::Super;
use h5w_names::Names;
use std::alloc::Global;

/// What a file has that is opened by several names, before the first dataset header.
#[derive(Drop)]
pub struct Front {
    pub root: Super,
    /// The places of the dataset headers, in the order of the names. No two are the same.
    pub places: Vec<u64>,
}

/// The number of the first of these places that is this one, from 1 on.
fn number_of(places: &[u64], place: u64) -> Option<u64>
    ensures { result ≡ number_of place 1 places.now }
{
    for (i, other) in places.iter().enumerate() {
        if *other == place {
            return Some(i as u64 + 1);
        }
    }
    None
}

/// The numbers of the first two of these places that are the same: the least second, and with it the least first.
fn same_link(places: &[u64]) -> Option<(u64, u64)>
    ensures { result ≡ same_link places.now }
{
    for (i, place) in places.iter().enumerate() {
        if let Some(first) = number_of(&places[..i], *place) {
            return Some((first, i as u64 + 1));
        }
    }
    None
}

/// The places that the links of these names give, in the root header with these messages. All are found before two are refused as the same.
fn places_by(alloc: Global, found: Vec<FoundMessage>, names: &Names) -> Result<Vec<u64>, OpenError>
    ensures told { Told open_errors (places_by names.now (founds found.items)) (seen (λ v. v.items) result) }
    ensures kinds { IfErr result IsOpenKind }
    ensures len { IfOk result (λ v. length v.items ≡ length names.now) }
{
    let linked = places_of(alloc, found, names)?;
    if let Some(refusal) = linked.refused {
        return Err(OpenError::Read(refusal));
    }
    if let Some((first, second)) = same_link(&linked.places) {
        return Err(OpenError::Same { first, second });
    }
    Ok(linked.places)
}

/// The places of the dataset headers, by the links of these names in the root header at `root`.
pub(crate) fn header_places<I: PieceRead>(
    alloc: Global,
    image: &mut I,
    root: u64,
    names: &Names,
) -> Result<Vec<u64>, OpenError>
    ensures ran { Ran open_errors (I.view image.old) (I.view image.new) (places_found names.now root) (seen (λ v. v.items) result) }
    ensures kinds { IfErr result IsOpenKind }
    ensures len { IfOk result (λ v. length v.items ≡ length names.now) }
{
    let header = root_header(alloc, image, true, root)?;
    places_by(alloc, header.messages, names)
}

/// Finds the superblock and the datasets of these names in a file of `size` bytes that is to be written.
pub fn find_front<I: PieceRead>(
    alloc: Global,
    image: &mut I,
    size: u64,
    names: &Names,
) -> Result<Front, OpenError>
    // Where the image tells its bytes and nobody else writes it: Ok exactly where they have this, and else the first refusal, unless the
    // image failed, which its count of faults shows, or memory ran out.
    ensures ran { Ran open_errors (I.view image.old) (I.view image.new) (λ img. eval img (front_for size names.now)) (seen front_fields_of result) }
    // On every image a Read is none of NotSwmr, Again, Shrunk and OutOfMemory.
    ensures kinds { IfErr result IsOpenKind }
    // On every image nobody writes the file, and each name has its place.
    ensures closed { IfOk result (λ f. is_open f.root.flags ≡ false) }
    ensures len { IfOk result (λ f. length f.places.items ≡ length names.now) }
{
    let root = start(alloc, image, size)?;
    let places = header_places(alloc, image, root.root, names)?;
    Ok(Front { root, places })
}
