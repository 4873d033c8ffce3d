//! What a reader's answers are told as.
ghost use Rattle.std.specs.Prelude.{◌≡◌};
ghost use Rattle.h5w_handles.specs.ReaderTellings.{begin_told, read_told, refusal_told, step_told};

use crate::code::{H5wCode, H5wTold};
use h5w_model::{ReadError, Unsupported, Values};
use h5w_reader::{ReadBegin, Step};

/// A reader's refusal.
pub fn refusal_told(error: &ReadError) -> H5wTold
    ensures { result ≡ refusal_told error.now }
{
    match error {
        ReadError::Again { attempts, at, .. } => H5wCode::Again.with(*attempts, *at),
        ReadError::Shrunk { found, .. } => H5wCode::Shrunk.with(0, *found),
        ReadError::OutOfMemory => H5wCode::Memory.alone(),
        ReadError::NotHdf5 => H5wCode::Refused.with(1, 0),
        ReadError::Super(_) => H5wCode::Refused.with(2, 0),
        ReadError::NotSwmr { flags } => H5wCode::Refused.with(3, u64::from(*flags)),
        ReadError::Header { at, .. } => H5wCode::Refused.with(4, *at),
        ReadError::Link(_) => H5wCode::Refused.with(5, 0),
        ReadError::Unsupported(Unsupported(number)) => {
            H5wCode::Refused.with(6, u64::from(*number))
        }
        ReadError::TooManyChunks { limit, .. } => H5wCode::Refused.with(7, *limit),
        ReadError::Damaged { at, .. } => H5wCode::Refused.with(8, *at),
    }
}

/// Why a call is not begun.
pub fn begin_told(error: &ReadBegin) -> H5wTold
    ensures { result ≡ begin_told error.now }
{
    match error {
        ReadBegin::Busy => H5wCode::Busy.alone(),
        ReadBegin::OutOfRows { rows, .. } => H5wCode::Rows.with(0, *rows),
        ReadBegin::OutOfMemory => H5wCode::Memory.alone(),
    }
}

/// What a look made of a call.
pub fn step_told(step: &Step) -> H5wTold
    ensures { result ≡ step_told step.now }
{
    match step {
        Step::More => H5wCode::More.alone(),
        Step::Rows(rows) => H5wCode::Done.with(0, *rows),
        Step::Values(values) => H5wCode::Values.with(0, values.as_slice().len() as u64),
        Step::Refused(error) => refusal_told(error),
    }
}

/// A read has begun, or its values are there.
pub fn read_told(values: &Option<Values>) -> H5wTold
    ensures { result ≡ read_told values.now }
{
    match values {
        None => H5wCode::More.alone(),
        Some(values) => H5wCode::Values.with(0, values.as_slice().len() as u64),
    }
}
