//! Ranges that do not meet, by counting.

ghost use Rattle.h5w_step_laws.specs.Counts.{DisjointPart};

/// Ranges that are among ranges that do not meet, none of them twice, do not meet.
pub fn disjoint_part()
    ensures { DisjointPart }
{}
