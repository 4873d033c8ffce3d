//! A file is continued after any stop: whatever piece of a session was the last that became visible, the file is opened again once the flags
//! of writers are cleared, with the rows that were flushed then. Each law is the clause of a function without parameters; its statement
//! is a definition in specs/. Nothing here runs.
#![tactic(auto)]

ghost use Rattle.h5w_reopening_laws.specs.Reopens.{OpenedIsWritable, StopReopens};

/// At each position of the log of each session, whether it created its file or opened it, the image with its flags cleared is a valid file
/// with the rows that are flushed there, and `open` answers no refusal: a session over these rows, unless the image fails or memory runs out.
pub fn stop_reopens()
    ensures { StopReopens }
{}

/// What `stop_reopens` asks of the file that a session was opened over holds of each such file.
pub fn opened_is_writable()
    ensures { OpenedIsWritable }
{}
