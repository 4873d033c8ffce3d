//! The log of a session that creates its file.

ghost use Rattle.h5w_creation_laws.specs.CreationLaws.{CreationLaws};

/// Before its superblock is there the log owes nothing; once it is there the session rests.
pub fn creation_laws()
    ensures { CreationLaws }
{}
