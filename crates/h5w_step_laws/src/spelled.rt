//! The header of a dataset as it is created.

ghost use Rattle.h5w_step_laws.specs.Spelled.{SpelledRead, SpelledStands};

/// It has at most 512 bytes, is read as its four messages, and rows and index address stand at known places.
pub fn spelled_read()
    ensures { SpelledRead }
{}

/// Where it stands in a file, it is read as the dataset.
pub fn spelled_stands()
    ensures { SpelledStands }
{}
