//! The ranges that a check finds.

ghost use Rattle.h5w_step_laws.specs.Ranges.{MissedStay, OverlapLaws};

/// A write that misses the blocks leaves what is looked at in them.
pub fn missed_stay()
    ensures { MissedStay }
{}

/// The check's test of the ranges by their places finds no overlap exactly where none of them meets another.
pub fn overlap_laws()
    ensures { OverlapLaws }
{}
