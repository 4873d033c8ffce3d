//! A takeover of a file with one dataset.

ghost use Rattle.h5w_takeover_laws.specs.One.{AnswersOne, CarriesOne, CreatedTold};
ghost use Rattle.h5w_takeover_laws.specs.Refused.{AnswersSession, BegunReopens, NeverRefused, TakenIsBegun};
ghost use Rattle.h5w_takeover_laws.specs.Restarts.{Carries, TakenRuns};

/// At each position of the log of each session, whether it created its file, opened it or took it over, a takeover of the
/// image with both flags of a writer has no refusal to answer.
pub fn never_refused()
    ensures { NeverRefused }
{}

/// So it answers a session, unless the image fails or memory runs out.
pub fn answers_session()
    ensures { AnswersSession }
{}

/// What `never_refused` asks of the file that a session began over holds of each such file.
pub fn taken_is_begun()
    ensures { TakenIsBegun }
{}

/// At each of these positions the image with its flags cleared is a file that is opened, with the rows flushed there.
pub fn begun_reopens()
    ensures { BegunReopens }
{}

/// The session that begins over the image of a log runs over a log of its own, at the moment to which that log has come;
/// and what readers of that log may hold it does not touch.
pub fn taken_runs()
    ensures { TakenRuns }
{}

/// So it is of the session that takes over the file of another one, wherever that stopped since a reader found a file.
pub fn carries()
    ensures { Carries }
{}

/// A session tells of the file that it created how that began and grew, once a reader finds it.
pub fn created_told()
    ensures { CreatedTold }
{}

/// The session of several datasets that takes such a file over by its one name stands for the log of before, with the takeover: what
/// was not flushed is gone, and what readers rest on stays.
pub fn carries_one()
    ensures { CarriesOne }
{}

/// Nothing refuses that takeover, where the image has both flags of a writer.
pub fn answers_one()
    ensures { AnswersOne }
{}
