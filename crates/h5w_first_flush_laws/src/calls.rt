//! Such a flush by its calls.

ghost use Rattle.h5w_first_flush_laws.specs.StartCalls.{StartCalls, StartPending, TwoTaken};

/// The places of the array's two blocks, taken one after the other.
pub fn two_taken()
    ensures { TwoTaken }
{}

/// What the calls of a first flush give is such a flush, and these are its pieces.
pub fn start_calls()
    ensures { StartCalls }
{}

/// A session over its log that plans such a flush: what its pending pieces are, and what they lead to.
pub fn start_pending()
    ensures { StartPending }
{}
