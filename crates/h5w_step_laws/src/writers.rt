//! What a writer shows before a block in place or a header is written again.

ghost use Rattle.h5w_step_laws.specs.Writers.{NamingSwitches, GrowingCommits, StartingCommits};

/// A block in place that names what stands there already is a safe piece.
pub fn naming_switches()
    ensures { NamingSwitches }
{}

/// A header that says more rows, over cells that are there, is a safe piece.
pub fn growing_commits()
    ensures { GrowingCommits }
{}

/// A header that names an index for the first time, which stands there already, is a safe piece.
pub fn starting_commits()
    ensures { StartingCommits }
{}
