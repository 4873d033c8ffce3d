//! A place for a reader.
ghost use Rattle.std.specs.Prelude.{◌≡◌, IfOk, None, Ok, OnErr, map};
ghost use Rattle.h5w_space.specs.declared.Full.{Full};
ghost use Rattle.h5w_reader.specs.Readers.{reader_rules};
ghost use Rattle.h5w_core.specs.Worlds.{full_reply};
ghost use Rattle.h5w_several_core.specs.Places.{SeatOpens, only_place, seated};

use h5w_core::readers;
use h5w_model::{OutOfMemory, Reply};
use h5w_reader::ReaderCore;
use std::alloc::Global;

/// A reader that may not be opened yet, and the dataset that it was opened for.
#[derive(Drop)]
pub(crate) struct Place {
    pub(crate) dataset: usize,
    pub(crate) reader: Option<ReaderCore>,
}

/// The readers of the only dataset, each in its place.
pub(crate) fn of_one(
    alloc: Global,
    readers: Vec<Option<ReaderCore>>,
) -> Result<Vec<Place>, OutOfMemory>
    ensures { IfOk result (λ places. places.items ≡ map only_place readers.items) }
{
    let mut places = Vec::new(alloc);
    for reader in readers {
        places.push(Place { dataset: 0, reader })?;
    }
    Ok(places)
}

/// Begins to open a reader of a dataset, which has this name, where none is there.
pub(crate) fn open(
    place: &mut Place,
    alloc: Global,
    reader: u64,
    dataset: usize,
    name: &[u8],
    attempts: u32,
) -> Result<Reply, OutOfMemory>
    ensures gives { IfOk result (λ reply. SeatOpens reader dataset (reader_rules name.now attempts) (seated place.old) reply (seated place.new)) }
    ensures kept { OnErr result (seated place.new ≡ seated place.old) }
    ensures memory { OnErr result (seated place.old ≡ None) }
    ensures no_space { (full : Full) → result ≡ Ok (full_reply full) → ⊥ }
{
    if place.reader.is_some() {
        return Ok(Reply::ReaderExists { reader });
    }
    place.dataset = dataset;
    readers::open(&mut place.reader, alloc, reader, name, attempts)
}
