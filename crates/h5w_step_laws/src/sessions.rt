//! Sessions over their logs.

ghost use Rattle.h5w_step_laws.specs.Sessions.{PieceRuns, AppendRuns, FlushRuns, GoesRuns, RunsLead, Opens, OpenedGoes, OtherLaws};

/// The oldest pending piece becomes visible.
pub fn piece_runs()
    ensures { PieceRuns }
{}

/// Values are appended, with pieces that bring no rows or without any.
pub fn append_runs()
    ensures { AppendRuns }
{}

/// A flush is planned.
pub fn flush_runs()
    ensures { FlushRuns }
{}

/// A log that has come to a moment, with no flush under way, is a run without pending pieces.
pub fn goes_runs()
    ensures { GoesRuns }
{}

/// The image once all pending pieces are shown is the file at the moment to which they lead.
pub fn runs_lead()
    ensures { RunsLead }
{}

/// A valid file, whoever made it, is a file at a moment.
pub fn opens()
    ensures { Opens }
{}

/// A log that begins with a valid file has come to it.
pub fn opened_goes()
    ensures { OpenedGoes }
{}

/// Several datasets in one file: a piece of one is unseen for another, and the superblock ends for all.
pub fn other_laws()
    ensures { OtherLaws }
{}
