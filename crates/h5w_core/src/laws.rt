//! What follows for a list of events.

ghost use Rattle.h5w_core.specs.Runs.{RunsLawfully};

/// Events that were done one after another have lawful replies, and what they leave fits the state that the replies lead to.
pub fn runs_lawfully()
    ensures { RunsLawfully }
{}
