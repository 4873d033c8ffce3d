//! The place of the dataset header, by the messages of the root header.
ghost use Rattle.std.specs.Prelude.{◌≡◌, ◌⊎◌, map, Err, IfOk};
ghost use Rattle.h5w_model.specs.Datasets.{linked};
ghost use Rattle.h5w_dataset.specs.Founds.{founds};
ghost use Rattle.h5w_dataset.specs.Founds.{listed};
ghost use Rattle.h5w_reader.specs.Calling.{link_refusal};

use h5w_dataset::{FoundMessage, listed};
use h5w_links::{find, links};
use h5w_model::{LinkError, ReadError};
use std::alloc::Global;

/// The refusal of a link.
fn link_refusal(error: LinkError) -> ReadError
    ensures { result ≡ link_refusal error }
{
    match error {
        LinkError::OutOfMemory => ReadError::OutOfMemory,
        error => ReadError::Link(error),
    }
}

/// The place that the root's link of this name gives.
pub fn place_of(alloc: Global, found: Vec<FoundMessage>, name: &[u8]) -> Result<u64, ReadError>
    ensures { (result ≡ linked name.now (founds found.items)) ⊎ (result ≡ Err ReadError.OutOfMemory) }
{
    let Ok(msgs) = listed(alloc, found) else {
        return Err(ReadError::OutOfMemory);
    };
    let links = match links(alloc, &msgs) {
        Ok(links) => links,
        Err(error) => return Err(link_refusal(error)),
    };
    match find(&links, name) {
        Ok(place) => Ok(place),
        Err(error) => Err(ReadError::Link(error)),
    }
}
