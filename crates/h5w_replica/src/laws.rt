//! A law over what looks at a second image come to, for the crates above to use. Nothing here runs.
ghost use Rattle.h5w_replica.specs.Mirrors.{MirroredCall};

/// Looks through one seat on the second image are a call over the log of the first, over the pieces that the second has.
pub fn mirrored_call()
    ensures { MirroredCall }
{}
