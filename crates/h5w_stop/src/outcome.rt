//! What a reader's open finds in an image.
ghost use Rattle.std.specs.Prelude.{◌≡◌, ◌≢◌, ℕ, List, Err, IfOk, IsSome, OnOk};
ghost use Rattle.h5w_model.specs.Unfinished.{wanted};
ghost use Rattle.h5w_reader.specs.Cores.{reader as reader_of};
ghost use Rattle.h5w_reader.specs.Readers.{new_reader, reader_rules};
ghost use Rattle.h5w_stop.specs.Outcomes.{outcome_in, outcome_of};

use crate::image::Image;
use h5w_answers::{ReaderCore, Step, answer};
use h5w_model::{OutOfMemory, ReadError};
use std::alloc::Global;

/// How often a call may look at a dataset header that changes, which it does not here.
const ATTEMPTS: u32 = 8;

/// What an open finds.
#[derive(Clone, Copy, Debug, PartialEq, Eq)]
pub enum Outcome {
    /// No HDF5 file.
    NoFile,
    /// A dataset of so many rows.
    Rows(u64),
    /// Any other refusal.
    Refused,
}

/// What an open finds that is refused so.
fn refused(error: ReadError) -> Result<Outcome, OutOfMemory>
    ensures outcome { IfOk result (λ outcome. outcome ≡ outcome_of (Err error)) }
    ensures known { OnOk result (error ≢ ReadError.OutOfMemory) }
{
    match error {
        ReadError::NotHdf5 => Ok(Outcome::NoFile),
        ReadError::OutOfMemory => Err(OutOfMemory),
        _ => Ok(Outcome::Refused),
    }
}

/// What the open finds that the reader begins.
fn found(reader: &mut ReaderCore, image: &mut Image) -> Result<Outcome, OutOfMemory>
    requires begun { (name : List ℕ) × (reader_of reader.old ≡ new_reader (reader_rules name 8)) }
    requires wanting { IsSome (wanted (reader_of reader.old).left) }
    ensures outcome { (name : List ℕ) → reader_of reader.old ≡ new_reader (reader_rules name 8) → IfOk result (λ outcome. outcome ≡ outcome_in image.old name) }
    ensures image { image.new ≡ image.old }
{
    // What the bytes give rests on their end, which is below 2^64.
    let _end = image.len();
    let mut uncounted = 0;
    match answer(reader, image, &mut uncounted) {
        Ok(Step::Rows(rows)) => Ok(Outcome::Rows(rows)),
        Ok(Step::Refused(error)) => refused(error),
        _ => unreachable!(),
    }
}

/// What the open of a dataset of this name finds in the image.
pub fn find(alloc: Global, image: &mut Image, name: &[u8]) -> Result<Outcome, OutOfMemory>
    ensures outcome { IfOk result (λ outcome. outcome ≡ outcome_in image.old name.now) }
    ensures image { image.new ≡ image.old }
{
    let mut reader = ReaderCore::open(alloc, name, ATTEMPTS)?;
    found(&mut reader, image)
}
