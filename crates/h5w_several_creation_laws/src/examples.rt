//! A created file of two datasets beside bytes from outside.

ghost use Rattle.h5w_several_creation_laws.specs.SeveralExamples.{AreAsOutside};

/// A file of two datasets has the bytes that an independent program made.
pub fn several_as_outside()
    ensures { AreAsOutside }
{}
