//! The root header and the dataset header.

ghost use Rattle.h5w_step_laws.specs.Headers.{RootTells, RootMissed, HeaderTells, HeaderMissed};

/// The root header's ranges are blocks within the end of the file, none empty; with another end the same is found.
pub fn root_tells()
    ensures { RootTells }
{}

/// A write that misses its ranges leaves the root header, and what is looked at in it.
pub fn root_missed()
    ensures { RootMissed }
{}

/// The dataset header's ranges are chunk 0, of which the first look takes what counts, and its continuation blocks,
/// which are looked at next.
pub fn header_tells()
    ensures { HeaderTells }
{}

/// A write that misses its ranges leaves the dataset header, and what counts of chunk 0.
pub fn header_missed()
    ensures { HeaderMissed }
{}
