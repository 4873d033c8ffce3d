//! What a session of several datasets counts of one of them.
ghost use Rattle.std.specs.Prelude.{◌≡◌, ◌≤◌, Some, length, slice_get};
ghost use Rattle.h5w_writer.specs.Sessions.{Session, rows_of};

use h5w_handles::SeveralState;

/// How many rows were appended to dataset `d`; 0 if there is none.
pub fn rows(state: &SeveralState, d: usize) -> u64
    ensures outside { length state.now.session.parts ≤ d → result ≡ 0 }
    ensures inside { (part : Session) → slice_get state.now.session.parts d ≡ Some part → result ≡ rows_of part }
{
    if d < state.session.count() {
        state.session.rows(d)
    } else {
        0
    }
}

/// How many columns dataset `d` has; 0 if there is none.
pub fn columns(state: &SeveralState, d: usize) -> u64
    ensures outside { length state.now.session.parts ≤ d → result ≡ 0 }
    ensures inside { (part : Session) → slice_get state.now.session.parts d ≡ Some part → result ≡ part.dataset.shape.cols }
{
    if d < state.session.count() {
        state.session.columns(d)
    } else {
        0
    }
}

/// How many datasets there are.
pub fn count(state: &SeveralState) -> u64
    ensures { result ≡ length state.now.session.parts }
{
    state.session.count() as u64
}
