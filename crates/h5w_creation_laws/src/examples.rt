//! Created files beside bytes from outside.

ghost use Rattle.h5w_creation_laws.specs.CreatedExamples.{AreAsOutside};

/// A file of one dimension and one of two that grow, with a fill, have the bytes that independent programs made, and one of fixed columns
/// has such a dataset header.
pub fn as_outside()
    ensures { AreAsOutside }
{}
