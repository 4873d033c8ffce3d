//! The places that the links of several names give.
ghost use Rattle.std.specs.Prelude.{◌≡◌, IfOk, IfSome};
ghost use Rattle.h5w_model.specs.Datasets.{linked, refused_as};
ghost use Rattle.h5w_model.specs.Links.{find_link};
ghost use Rattle.h5w_model.specs.declared.refusal.ReadError.TheVariants.{Link};
ghost use Rattle.h5w_headers.specs.Errors.{IsOfBytes};
ghost use Rattle.h5w_dataset.specs.Founds.{founds};
ghost use Rattle.h5w_headers.specs.Linked.{led_by, linked_of, not_led};

use h5w_dataset::{FoundMessage, listed};
use h5w_links::{Links, find, links};
use h5w_model::{LinkError, OutOfMemory, ReadError};
use h5w_names::Names;
use std::alloc::Global;

/// Where the links of some names lead, in the order of the names, up to the first name whose link is refused.
#[derive(Drop)]
pub struct Linked {
    pub places: Vec<u64>,
    /// That refusal; none where each name has its place.
    pub refused: Option<ReadError>,
}

/// The places that these links give.
fn places_in(alloc: Global, links: &Links<'_>, names: &Names) -> Result<Linked, OutOfMemory>
    ensures exact { IfOk result (λ l. linked_of l ≡ led_by (λ name. refused_as Link (find_link links.now name)) names.now) }
    ensures kinds { IfOk result (λ l. IfSome l.refused IsOfBytes) }
{
    let mut places = Vec::new(alloc);
    for name in names.as_slice() {
        match find(links, name.as_slice()) {
            Ok(place) => places.push(place)?,
            Err(error) => {
                return Ok(Linked {
                    places,
                    refused: Some(ReadError::Link(error)),
                });
            }
        }
    }
    Ok(Linked {
        places,
        refused: None,
    })
}

/// No place: the links are refused, which the first name tells, where there is one.
fn no_places(alloc: Global, names: &Names, error: LinkError) -> Linked
    ensures exact { linked_of result ≡ not_led (Link error) names.now }
    ensures kinds { IfSome result.refused IsOfBytes }
{
    let refused = if names.is_empty() {
        None
    } else {
        Some(ReadError::Link(error))
    };
    Linked {
        places: Vec::new(alloc),
        refused,
    }
}

/// The places that the links of these names give, in the root header with these messages. The links are decoded once.
pub fn places_of(
    alloc: Global,
    found: Vec<FoundMessage>,
    names: &Names,
) -> Result<Linked, OutOfMemory>
    ensures exact { IfOk result (λ l. linked_of l ≡ led_by (λ name. linked name (founds found.items)) names.now) }
    ensures kinds { IfOk result (λ l. IfSome l.refused IsOfBytes) }
{
    let msgs = listed(alloc, found)?;
    match links(alloc, &msgs) {
        Ok(links) => places_in(alloc, &links, names),
        Err(LinkError::OutOfMemory) => Err(OutOfMemory),
        Err(error) => Ok(no_places(alloc, names, error)),
    }
}
