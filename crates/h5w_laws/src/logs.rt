//! Logs: their positions, what is flushed there, and what holds at each of them.

ghost use Rattle.h5w_laws.specs.Logs.{PositionLaws, FlushedLaws, EachGivesPrefixed, EventLaws};

/// The log at a position has the first so many pieces, and later events leave it as it was.
#[tactic(auto, using(crate::proofs::LogLemmas::position_laws))]
pub fn position_laws()
    ensures { PositionLaws }
{}

/// What is flushed is the beginning of what was appended, and never becomes less.
#[tactic(auto, using(crate::proofs::LogLemmas::flushed_laws))]
pub fn flushed_laws()
    ensures { FlushedLaws }
{}

/// Where the image reads as the flushed rows after each event, it does so at each position.
#[tactic(auto, using(crate::proofs::LogLemmas::each_gives_prefixed))]
pub fn each_gives_prefixed()
    ensures { EachGivesPrefixed }
{}

/// What holds of each position of a log holds of each of the log with one more event, where it holds of that one.
pub fn event_laws()
    ensures { EventLaws }
{}
