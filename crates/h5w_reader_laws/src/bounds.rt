//! How many looks a call takes before its answer.

ghost use Rattle.h5w_reader_laws.specs.Bounds.{BoundsFromOne, OpensInLooks, ReadsInLooks, RefreshesInLooks, ShortBounds};

/// An open without an answer has taken fewer looks than those on the way to the dataset header and, an attempt, two for that
/// header, those at its continuation blocks, and 21 for each needed chunk.
pub fn opens_in_looks()
    ensures { OpensInLooks }
{}

/// A refresh likewise, without the way.
pub fn refreshes_in_looks()
    ensures { RefreshesInLooks }
{}

/// Where the root header is shown by two looks and the dataset header by one, an open without an answer has taken fewer than
/// two, and two and 21 for each needed chunk in each attempt.
pub fn short_bounds()
    ensures { ShortBounds }
{}

/// A read without an answer has taken fewer looks than those at all of each touched chunk, whatever it was shown.
pub fn reads_in_looks()
    ensures { ReadsInLooks }
{}

/// What these bounds ask of every position follows from one position each.
pub fn bounds_from_one()
    ensures { BoundsFromOne }
{}
