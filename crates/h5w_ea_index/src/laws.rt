//! What is known of an array that was opened, whichever file it stands in.

ghost use Rattle.h5w_ea_index.specs.OpenedLaws.{OpenedFinds, OpenedStands};

/// An array that was opened stands on its image, where a check of the index finds nothing.
pub fn opened_stands()
    ensures { OpenedStands }
{}

/// An array that was opened has the addresses that a reader finds on its image, from the chunk number on from which it was opened.
pub fn opened_finds()
    ensures { OpenedFinds }
{}
