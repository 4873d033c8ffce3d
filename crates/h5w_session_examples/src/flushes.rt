//! A flush of a log from outside by its parts, so that the premises of the laws of a flush are known to hold of something.
ghost use Rattle.h5w_session_examples.specs.FirstFlush.{IsFirstFlush};

/// The first flush of a created file, of three rows in two new chunks, meets what is asked of a flush; its pieces are those of the log.
pub fn first_flush()
    ensures { IsFirstFlush }
{}
