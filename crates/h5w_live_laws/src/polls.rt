//! The calls of a reader, over the log of the writer whose pieces its seat has seen.

ghost use Rattle.h5w_live_laws.specs.Laws.{PollLaws};

/// Each call that was answered with rows has those of a flush that was whole at some moment of the call, and the sum of the values that were
/// appended for them; and where it gave up, flushes became whole as often as it made attempts. No other refusal comes.
#[tactic(auto, using(crate::proofs::PollLemmas::poll_laws))]
pub fn poll_laws()
    ensures { PollLaws }
{}
