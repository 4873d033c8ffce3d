//! The ranges of a packed file, each with the kind of its block.
ghost use Rattle.std.specs.Prelude.{◌≡◌, ◌↔◌, ◌++◌, ◌∷◌, [], IsTrue, OnOk, OnErr, map};
ghost use Rattle.h5w_model.specs.Tiles.{Tiled};
ghost use Rattle.h5w_packing.specs.Tiles.{tile_of};

use h5w_model::OutOfMemory;
use std::alloc::Global;
use std::marker::Model;

/// What a range of a file has.
pub mod kind {
    pub const SUPERBLOCK: u8 = 0;

    pub const ROOT_HEADER: u8 = 1;

    pub const DATASET_HEADER: u8 = 2;

    /// The header of an array or of a tree.
    pub const INDEX_HEADER: u8 = 3;

    pub const INDEX_BLOCK: u8 = 4;

    pub const SECONDARY_BLOCK: u8 = 5;

    pub const DATA_BLOCK: u8 = 6;

    /// A node of a tree.
    pub const NODE: u8 = 7;

    pub const CHUNK: u8 = 8;
}

/// `len` bytes of a file from byte `at` on, and what they have, by its number in [`kind`].
#[derive(Clone, Copy, Debug, PartialEq, Eq)]
pub struct Range {
    pub at: u64,
    pub len: u64,
    pub kind: u8,
}

/// The ranges of a file, by rising places.
#[derive(Drop)]
pub struct Ranges {
    list: Vec<Range>,
}

impl Model for Ranges {
    ghost use Rattle.std.specs.Prelude.{List, map};
    ghost use Rattle.h5w_model.specs.Tiles.{TileFields};
    ghost use Rattle.h5w_packing.specs.Tiles.{tile_of};

    ghost Value = { List TileFields };

    ghost view = { λ r. map tile_of r.list.items };
}

impl Ranges {
    /// No ranges.
    pub fn new(alloc: Global) -> Ranges
        ensures { result ≡ [] }
    {
        Ranges {
            list: Vec::new(alloc),
        }
    }

    /// Puts a range behind the others.
    pub fn push(&mut self, at: u64, len: u64, kind: u8) -> Result<(), OutOfMemory>
        ensures put { OnOk result (self.new ≡ self.old ++ record { place = at; len = len; kind = kind } ∷ []) }
        ensures kept { OnErr result (self.new ≡ self.old) }
    {
        self.list.push(Range { at, len, kind })?;
        Ok(())
    }

    /// Moves these ranges behind the others.
    pub fn append(&mut self, more: &mut Ranges) -> Result<(), OutOfMemory>
        ensures { OnOk result (self.new ≡ self.old ++ more.old) }
    {
        self.list.append(&mut more.list)?;
        Ok(())
    }

    /// The ranges.
    pub fn as_slice(&self) -> &[Range]
        ensures { map tile_of result.now ≡ self.now }
    {
        &self.list
    }
}

/// Whether the first range begins at 0, each next one where the one before ends, and the last ends at `end`. Where there is none, `end`
/// is to be 0.
pub fn tiles(ranges: &Ranges, end: u64) -> bool
    ensures { IsTrue result ↔ Tiled ranges.now end }
{
    let mut at = 0;
    for range in ranges.as_slice() {
        if range.at != at || range.len > end - at {
            return false;
        }
        at += range.len;
    }
    at == end
}
