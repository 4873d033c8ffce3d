//! The pieces of a session of several datasets become visible, those of the file's creation first.
ghost use Rattle.std.specs.Prelude.{◌≡◌, ◌<◌, List, ◌∷◌, length, slice_get};
ghost use Rattle.std.specs.Option.{option_copied};
ghost use Rattle.h5w_model.specs.declared.piece.Write.{Write};
ghost use Rattle.h5w_several_writer_laws.specs.Sessions.{all_pending};
ghost use Rattle.h5w_writer_handles.specs.WriterCalls.{next_out, next_place};
ghost use Rattle.h5w_several_handles.specs.SetCalls.{WrittenSet};
ghost use Rattle.h5w_several_handles.specs.Sets.{pending_of};

use h5w_handles::{H5wCode, H5wPlace, H5wTold, SeveralState};
use h5w_model::Write;
use h5w_writer_handles::put_piece;

/// How many pieces are pending.
#[tactic(auto, using(crate::proofs::PieceLemmas::none_left, crate::proofs::PieceLemmas::some_left))]
pub fn pending(state: &SeveralState) -> u64
    ensures { result ≡ length (pending_of state.now) }
{
    if state.first.is_empty() {
        return state.session.pending();
    }
    state.first.len() as u64
}

/// The oldest pending piece.
#[tactic(auto, using(crate::proofs::PieceLemmas::none_left, crate::proofs::PieceLemmas::some_left))]
fn oldest(state: &SeveralState) -> Option<&Write>
    ensures { option_copied result ≡ slice_get (pending_of state.now) 0 }
{
    if state.first.is_empty() {
        return state.session.next();
    }
    state.first.first()
}

/// Puts the oldest pending piece at the front of `out`, and answers where it is to be written. None if no piece is pending or `out` is shorter
/// than the piece, which has at most 512 bytes.
#[tactic(auto, using(crate::proofs::PieceLemmas::place_first, crate::proofs::PieceLemmas::bytes_first, crate::proofs::PieceLemmas::none_first))]
pub fn next(state: &SeveralState, out: &mut [u8]) -> Option<H5wPlace>
    ensures place { result ≡ next_place (pending_of state.now) (length out.old) }
    ensures bytes { out.new ≡ next_out (pending_of state.now) out.old }
{
    let write = oldest(state)?;
    put_piece(write, out)
}

/// The oldest piece of the creation became visible.
fn show_first(state: &mut SeveralState)
    requires { 0 < length state.old.first.items }
    ensures first { (w : Write) (ws : List Write) → state.old.first.items ≡ w ∷ ws → state.new.first.items ≡ ws }
    ensures session { state.new.session ≡ state.old.session }
{
    drop(state.first.remove(0));
}

/// The oldest piece of the creation became visible, which tells how many are pending then.
fn written_created(state: &mut SeveralState) -> H5wTold
    requires { 0 < length state.old.first.items }
    ensures { WrittenSet state.old result state.new }
{
    show_first(state);
    H5wCode::Done.with(0, pending(state))
}

/// The oldest piece of the session became visible, likewise: none of the creation is left.
fn written_planned(state: &mut SeveralState) -> H5wTold
    requires none { length state.old.first.items ≡ 0 }
    requires some { 0 < length (all_pending state.old.session.parts) }
    ensures { WrittenSet state.old result state.new }
{
    state.session.written();
    H5wCode::Done.with(0, pending(state))
}

/// The oldest pending piece became visible.
pub fn written(state: &mut SeveralState) -> H5wTold
    ensures { WrittenSet state.old result state.new }
{
    let left = state.first.len() as u64;
    if left > 0 {
        written_created(state)
    } else if state.session.pending() == 0 {
        H5wCode::Misuse.alone()
    } else {
        written_planned(state)
    }
}
