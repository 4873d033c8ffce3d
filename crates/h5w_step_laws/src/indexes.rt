//! The index: an extensible array or a version 2 B-tree.

ghost use Rattle.h5w_step_laws.specs.Indexes.{CheckedIndex, IndexOfParts, IndexByEnd, IndexMissed, VisitedBehind, BehindMissed};

/// The ranges that the check of an index finds are those of its blocks in place, and behind them those of all other blocks
/// and of the chunks; what is looked at lies in them, and each key is answered.
pub fn checked_index()
    ensures { CheckedIndex }
{}

/// Where the blocks in place are read and what stands behind them is visited, it is an index.
pub fn index_of_parts()
    ensures { IndexOfParts }
{}

/// With another end of the file, which its ranges do not pass, it is the same index.
pub fn index_by_end()
    ensures { IndexByEnd }
{}

/// A write that misses its blocks leaves an index, what is looked at for each key, and what is found.
pub fn index_missed()
    ensures { IndexMissed }
{}

/// What is visited behind blocks in place, wherever those were read: its ranges, and each key's address.
pub fn visited_behind()
    ensures { VisitedBehind }
{}

/// A write that misses the blocks behind leaves them, and what is found for each key.
pub fn behind_missed()
    ensures { BehindMissed }
{}
