//! Readers of a file that one writer after another took over: one log has all that happened, and what a reader was given before a takeover
//! binds what it is given behind it. Each law is the clause of a function without parameters; its statement is a definition in specs/.
//! Nothing here runs.
#![tactic(auto)]

ghost use Rattle.h5w_takeover_reading_laws.specs.Across.{AllServe, AloneGoesOn, ReadersGoOn, ReadsAcross, RefreshesAcross};
ghost use Rattle.h5w_takeover_reading_laws.specs.Seats.{SeatsGoOn};

/// Readers of each dataset can rest on what it sees of each log for which a session stands, whoever took the file over in it.
pub fn all_serve()
    ensures { AllServe }
{}

/// Whatever happens later, what a reader was shown was shown at the same position of the longer log, and its calls are calls over that log.
pub fn readers_go_on()
    ensures { ReadersGoOn }
{}

/// So it is where a session of one dataset was the first, over the log of the file with this one dataset.
pub fn alone_goes_on()
    ensures { AloneGoesOn }
{}

/// A refresh behind any number of takeovers gives the rows that are flushed at its look at the dataset header, and no fewer than the reader
/// was shown before them.
pub fn refreshes_across()
    ensures { RefreshesAcross }
{}

/// A read of rows that were shown before them gives the values of the longer log.
pub fn reads_across()
    ensures { ReadsAcross }
{}

/// The writer's seat of a shared image is moved to the session that takes over: what it has seen are the pieces of the longer log.
pub fn seats_go_on()
    ensures { SeatsGoOn }
{}
