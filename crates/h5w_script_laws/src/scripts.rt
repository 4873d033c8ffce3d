//! All readers of a script, line by line.

ghost use Rattle.h5w_script_laws.specs.Scripts.{WriterLineLaws, BeginLineLaws, LookLineLaws};

/// The writer's lines, and what they add to the log, leave all readers polling.
#[tactic(auto, using(crate::proofs::ScriptLemmas::writer_line_laws))]
pub fn writer_lines()
    ensures { WriterLineLaws }
{}

/// An open, a refresh and a read may be given the reply that says whether a call began, or which of the other cases it is.
#[tactic(auto, using(crate::proofs::ScriptLemmas::begin_line_laws))]
pub fn begin_lines()
    ensures { BeginLineLaws }
{}

/// A look may be given the reply that comes of what is left of the reader's call, and some reply comes of it.
#[tactic(auto, using(crate::proofs::ScriptLemmas::look_line_laws))]
pub fn look_lines()
    ensures { LookLineLaws }
{}
