//! A takeover of a file with several datasets.

ghost use Rattle.h5w_takeover_laws.specs.Created.{AnswersAll};
ghost use Rattle.h5w_takeover_laws.specs.Several.{CarriesAll, NeverRefusedAll, StaysAlike, TakenAnew};

/// At each position of the log of each session a takeover of the image with both flags of a writer has no refusal to
/// answer.
pub fn never_refused_all()
    ensures { NeverRefusedAll }
{}

/// The session that takes the file over, at any position, stands for the log that begins with the image there and the
/// values that were flushed then.
pub fn taken_anew()
    ensures { TakenAnew }
{}

/// The session that takes the file over where it is now stands for the log of before, with the takeover: what was not flushed is gone,
/// and what readers rest on stays.
pub fn carries_all()
    ensures { CarriesAll }
{}

/// A dataset of a file that was taken over is the one that it was, but for its rows.
pub fn stays_alike()
    ensures { StaysAlike }
{}

/// Nothing refuses a takeover of a file that its session created, by the session's names, where the image has both flags of a
/// writer.
pub fn answers_all()
    ensures { AnswersAll }
{}
