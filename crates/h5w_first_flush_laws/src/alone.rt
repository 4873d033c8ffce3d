//! What a session knows of a file whose array is a header alone.

ghost use Rattle.h5w_first_flush_laws.specs.HeaderAlone.{AloneBegins, AloneEnds, AloneFreed, AloneNowhere};

/// A header alone is the map by which no chunk has an address; the index has its range alone.
pub fn alone_nowhere()
    ensures { AloneNowhere }
{}

/// What a session knows of such a file that begins with it.
pub fn alone_begins()
    ensures { AloneBegins }
{}

/// The superblock with other flags leaves that known.
pub fn alone_ends()
    ensures { AloneEnds }
{}

/// Places where what was let go is free leave it known.
pub fn alone_freed()
    ensures { AloneFreed }
{}
