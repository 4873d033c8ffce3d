//! What a piece that becomes visible leaves of its session.

ghost use Rattle.h5w_writer_laws.specs.Leaves.{EachLeaves};

/// Once a piece became visible, a session is as before, but for the places, the committed rows, what is pending, and whether a flush is on its
/// way. The file ends where it ended, within the same limit, and pending are the pieces behind this one. With the last piece of a flush its rows
/// are committed. After a last piece no flush is on its way. Where none is on its way, a piece changes nothing but what is pending.
#[tactic(auto, using(crate::proofs::LeavingLemmas::each_leaves))]
pub fn piece_leaves()
    ensures { EachLeaves }
{}
