//! What is known of a tree that was opened, whichever file it stands in.

ghost use Rattle.h5w_bt_open.specs.OpenedLaws.{OpenedFinds, OpenedIsIndex};

/// A tree that was opened has the addresses that a reader finds on its image, from the key on from which it was opened.
pub fn opened_finds()
    ensures { OpenedFinds }
{}

/// Where a check of its nodes finds nothing, the keys of a tree that was opened rise, its totals are true, and nothing was passed over.
pub fn opened_is_index()
    ensures { OpenedIsIndex }
{}
