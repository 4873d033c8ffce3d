//! An array on the image of a file: what stands, what a check and a reader find, and what a plan's writes leave.

ghost use Rattle.h5w_array_laws.specs.ArrayImages.{AllStand, ArrayIsRead, ArrayStays, CopiesStand, CreatedStands, CreatedStarts, InPlaceSays, StandingSays};

/// An array without chunks stands where its two blocks were written.
pub fn created_stands()
    ensures { CreatedStands }
{}

/// It is a store of an array with its six numbers true, and has no chunk and no range behind the blocks in place.
pub fn created_starts()
    ensures { CreatedStarts }
{}

/// A write that misses the blocks of an array leaves it.
pub fn array_stays()
    ensures { ArrayStays }
{}

/// Where the blocks behind those in place stand, a check behind the index block finds their ranges, and a reader each chunk's address.
pub fn array_is_read()
    ensures { ArrayIsRead }
{}

/// Once a plan's copies are written, the blocks behind those in place stand.
pub fn copies_stand()
    ensures { CopiesStand }
{}

/// After each of a plan's pieces in place, the new index block is read in place.
pub fn in_place_says()
    ensures { InPlaceSays }
{}

/// Once a plan's writes are all there, the array stands.
pub fn all_stand()
    ensures { AllStand }
{}

/// The blocks in place of an array that stands, unchanged, are read as they are kept.
pub fn standing_says()
    ensures { StandingSays }
{}
