//! That readers can rest on a session's log.

ghost use Rattle.h5w_writer_laws.specs.Serves.{SessionServes};

/// Readers can rest on each log for which a session stands, whether it created its file or opened it, if that file ends by 2^64. So the
/// promises to readers, of which each asks for such a log, hold beside each session.
pub fn session_serves()
    ensures { SessionServes }
{}
