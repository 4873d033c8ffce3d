//! Chunk addresses that a reader knows.

ghost use Rattle.h5w_reader_laws.specs.Known.{KnownAddresses};

/// Where each known address is the image's, an attempt that begins with them finds the same addresses, and looks at nothing
/// that it would not look at without them.
pub fn known_addresses()
    ensures { KnownAddresses }
{}
