//! The plan of an array's blocks as the index's part of a flush. Each law is the clause of a function without parameters; its statement is
//! a definition in specs/. Nothing here runs.
#![tactic(auto)]

ghost use Rattle.h5w_array_flush_laws.specs.ArrayBegins.{ArrayBegins};
ghost use Rattle.h5w_array_flush_laws.specs.ArrayFlushes.{ArrayFlushed, ArrayIsFlush, ArrayPlaces, ArrayRestsAgain, ArrayRestsThen};

/// What an array's plan does is what a flush asks of the index.
pub fn array_flushed()
    ensures { ArrayFlushed }
{}

/// The places that an array's plan takes and lets go are those that a flush asks for.
pub fn array_places()
    ensures { ArrayPlaces }
{}

/// A flush whose index is an array: from what a session knows and what its calls show.
pub fn array_is_flush()
    ensures { ArrayIsFlush }
{}

/// Once all pieces of such a flush are shown, the array stands as the session keeps it.
pub fn array_rests_then()
    ensures { ArrayRestsThen }
{}

/// So it does where what was let go is free.
pub fn array_rests_again()
    ensures { ArrayRestsAgain }
{}

/// A session that begins with an array that stands in its file knows the file by its map, and the array rests.
pub fn array_begins()
    ensures { ArrayBegins }
{}
