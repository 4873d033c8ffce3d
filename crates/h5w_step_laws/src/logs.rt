//! A log that has come to a file at a moment.

ghost use Rattle.h5w_step_laws.specs.Logs.{MomentFound, BeginGoes, EventGoes, PieceGoes};

/// An image that is a file at a moment is valid, and reads as its values.
pub fn moment_found()
    ensures { MomentFound }
{}

/// A log that is at its first position has come to the file that its image is.
pub fn begin_goes()
    ensures { BeginGoes }
{}

/// An event that shows no piece leaves a log at its moment.
pub fn event_goes()
    ensures { EventGoes }
{}

/// One safe piece takes a log that has come to a moment to the next: the image is valid and reads as what is flushed then,
/// and what readers rest on stays.
pub fn piece_goes()
    ensures { PieceGoes }
{}
