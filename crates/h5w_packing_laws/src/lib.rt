//! A file that is written anew from nothing, as tight as it goes: places one behind the other, an index that is made for its chunks in the
//! order of their keys, and the file that stands once all blocks are written, in whatever order. Each law is the clause of a function
//! without parameters; its statement is a definition in specs/. Nothing here runs.
//!
//! HDF5 File Format Specification 3.0, "The Extensible Array Index" and "Version 2 B-trees".
#![tactic(auto)]

ghost use Rattle.h5w_packing_laws.specs.Growing.{TightTakes};
ghost use Rattle.h5w_packing_laws.specs.Standing.{IndexStands};
ghost use Rattle.h5w_packing_laws.specs.PackingLaws.{PackedBlocks, PackedFile, PackedIndex, PackedMade, PackedTiles};
ghost use Rattle.h5w_packing_laws.specs.Sources.{ValidSource};

/// Where none is free, a place is taken at the end.
pub fn tight_takes()
    ensures { TightTakes }
{}

/// An index that stands in a file, unchanged, is the index of a dataset that names it, whichever its kind.
pub fn index_stands()
    ensures { IndexStands }
{}

/// The blocks of the plan of a new index stand one after another.
pub fn packed_tiles()
    ensures { PackedTiles }
{}

/// The index that is made has the chunks' addresses by their keys, and no ranges but those of chunks and blocks.
pub fn packed_made()
    ensures { PackedMade }
{}

/// All blocks of a file of several datasets follow one another from its first byte to its end, and are written each within its range.
pub fn packed_blocks()
    ensures { PackedBlocks }
{}

/// An index stands on each image on which its blocks do.
pub fn packed_index()
    ensures { PackedIndex }
{}

/// An image on which all blocks stand is the file, valid for all its names together, and uses all its ranges, each once.
pub fn packed_file()
    ensures { PackedFile }
{}

/// Each chunk that a valid file shows stands in it whole.
pub fn valid_source()
    ensures { ValidSource }
{}
