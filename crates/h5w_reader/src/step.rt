//! What a reader answers.
ghost use Rattle.std.specs.Prelude.{◌≡◌};

use h5w_model::{OutOfMemory, ReadError, Values};
use thiserror::Error;

/// What a look's piece makes of a call.
#[derive(Debug, Drop)]
pub enum Step {
    /// The call wants another look.
    More,
    /// An open or a refresh is answered: so many rows.
    Rows(u64),
    /// A read is answered: the values of its rows, one after another.
    Values(Values),
    /// The call is refused, and what is known stays as before it.
    Refused(ReadError),
}

/// Why a call is not begun, tried in this order.
#[derive(Clone, Copy, Debug, PartialEq, Eq, Error)]
pub enum ReadBegin {
    /// A call is unfinished.
    #[error("a call is unfinished")]
    Busy,
    /// `count` rows from row `from` on pass the `rows` that were seen.
    #[error("{count} rows from {from} of {rows}")]
    OutOfRows { from: u64, count: u64, rows: u64 },
    #[error("out of memory")]
    OutOfMemory,
}

impl From<OutOfMemory> for ReadBegin {
    ghost use Rattle.h5w_reader.specs.declared.step.ReadBegin.TheVariants.{OutOfMemory};

    ghost from_gives = { λ _ e. e ≡ OutOfMemory };

    fn from(_e: OutOfMemory) -> ReadBegin {
        ReadBegin::OutOfMemory
    }
}
