//! What a dataset sees of the log of its file, and what a takeover leaves.

ghost use Rattle.h5w_several_laws.specs.Dues.{PieceDue, PlanDue};
ghost use Rattle.h5w_several_laws.specs.Seen.{SeenLaws};
ghost use Rattle.h5w_several_laws.specs.Settled.{SettledGoes, SettledLaws};
ghost use Rattle.h5w_several_laws.specs.Takes.{TakesOver};

/// The oldest pending piece becomes visible, where the rows are due before the last.
pub fn piece_due()
    ensures { PieceDue }
{}

/// A flush is planned between the pieces of other datasets.
pub fn plan_due()
    ensures { PlanDue }
{}

/// What a takeover leaves of a log.
pub fn settled_laws()
    ensures { SettledLaws }
{}

/// A log that has come to a moment has come to it also without what a takeover drops.
pub fn settled_goes()
    ensures { SettledGoes }
{}

/// What a dataset sees of the log of its file.
pub fn seen_laws()
    ensures { SeenLaws }
{}

/// A session that begins with the file of a log, wherever that stopped, rests over it.
pub fn takes_over()
    ensures { TakesOver }
{}
