//! What follows for a script, and for a list of events.

ghost use Rattle.h5w_several_core.specs.Runs.{RunsLawfullyAll, UsesLawfully};

/// Another dataset is taken into use: the line is lawful, and changes no machine.
pub fn uses_lawfully()
    ensures { UsesLawfully }
{}

/// Events that were done one after another have lawful replies, and what they leave fits the state that the replies lead
/// to.
pub fn runs_lawfully()
    ensures { RunsLawfullyAll }
{}
