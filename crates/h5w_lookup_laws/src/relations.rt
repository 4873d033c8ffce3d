ghost use Rattle.h5w_lookup_laws.specs.Relations.{FindsTreeSlots, FindsChunks, FindsReadings};

/// The address of a chunk is found exactly where the blocks of the tree say it, at each depth.
pub fn tree_slots()
    ensures { FindsTreeSlots }
{}

/// The address of a chunk is found exactly where the dataset's index says it: undefined without an index, and else by the
/// array or the tree.
pub fn chunk_addresses()
    ensures { FindsChunks }
{}

/// An image shows a reading exactly where it has the dataset, the needed chunks are within the limits, and each of them has
/// the address that is listed.
pub fn readings()
    ensures { FindsReadings }
{}
