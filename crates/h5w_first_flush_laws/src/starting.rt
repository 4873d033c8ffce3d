//! What a session knows of a file whose array is not there yet.

ghost use Rattle.h5w_first_flush_laws.specs.Starting.{BlankHeld, BlankMap, CreatedBlank, RestsStay, StartBegins, StartEnds, StartFreed, StartOf, StartTakes, TakenAgain};

/// An array that was just made has no chunks, and places for its header and its index block alone.
pub fn created_blank()
    ensures { CreatedBlank }
{}

/// The map of such an array is that of an index that is not there.
pub fn blank_map()
    ensures { BlankMap }
{}

/// It stays such a one where blocks are held and no chunk is named.
pub fn blank_held()
    ensures { BlankHeld }
{}

/// What a session knows of such a file that begins with it.
pub fn start_begins()
    ensures { StartBegins }
{}

/// A file that is known by the map of such an array is known so.
pub fn start_of()
    ensures { StartOf }
{}

/// The superblock with other flags leaves that known.
pub fn start_ends()
    ensures { StartEnds }
{}

/// Places where what was let go is free leave it known.
pub fn start_freed()
    ensures { StartFreed }
{}

/// The places of the array's two blocks are taken.
pub fn start_takes()
    ensures { StartTakes }
{}

/// Where they were taken before the flush, the same leaves that known.
pub fn rests_stay()
    ensures { RestsStay }
{}

/// Places that were taken together are taken in any order.
pub fn taken_again()
    ensures { TakenAgain }
{}
