//! A file is continued after any stop of the program, whatever piece an append put last. `clear` makes a file of it that `append` opens, and
//! `append --takeover` goes on with it as it is: with all rows that it had before, and the first of those that were appended. Each law is the
//! clause of a function without parameters; its statement is a definition in specs/. Nothing here runs.
#![tactic(auto)]

ghost use Rattle.h5w_continuing_laws.specs.Continues.{AppendOpens, ClearClears, StoppedContinues, StoppedGoesOn, StoppedIsTaken, TakeoverBegins};

/// Where an append over a valid file, opened or taken over, was stopped behind any of the pieces that it put, the file is opened again once
/// the flags of writers are cleared. It has the rows that it had, and the first of those appended.
pub fn stopped_continues()
    ensures { StoppedContinues }
{}

/// Where the file says that it is written it is taken over with such rows, as it was left.
pub fn stopped_is_taken()
    ensures { StoppedIsTaken }
{}

/// So a file with a superblock of version 3 goes on as it was left: by `append`, or by `append --takeover`. Its flags tell by which.
pub fn stopped_goes_on()
    ensures { StoppedGoesOn }
{}

/// What `clear` leaves with no error are the file's bytes with the flags of writers cleared, as `stopped_continues` asks for.
pub fn clear_clears()
    ensures { ClearClears }
{}

/// `append` over what `stopped_continues` tells of is refused by nothing before its input, unless the disk fails or memory runs out.
pub fn append_opens()
    ensures { AppendOpens }
{}

/// So is `append --takeover` over what `stopped_is_taken` tells of.
pub fn takeover_begins()
    ensures { TakeoverBegins }
{}
