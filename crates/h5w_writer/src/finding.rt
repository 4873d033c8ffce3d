//! Which chunks HDF5's library finds.

ghost use Rattle.h5w_writer.specs.Finding.{SessionFinds};

/// Once a session over an array brought rows, if it is not stopped or closed, nothing is pending and no rows wait: the max index set of the
/// array's header on the image is above each chunk that the rows need and that has an address, so that HDF5's library looks for it. Whatever
/// file the session began over, also one that a stopped writer left.
pub fn session_finds()
    ensures { SessionFinds }
{}
