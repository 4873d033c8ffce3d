//! The chunks of a dataset by number.

ghost use Rattle.h5w_laws.specs.ChunkNumbers.{NumbersChunks, PlacesChunks};

/// The chunks of the grid have the numbers from 0 on, and by these their keys in the index.
pub fn numbers_chunks()
    ensures { NumbersChunks }
{}

/// By the keys of the index or by places in the grid the same is said of a table of addresses.
pub fn places_chunks()
    ensures { PlacesChunks }
{}
