//! The dataset's header.
ghost use Rattle.std.specs.Prelude.{◌≡◌, ℕ};
ghost use Rattle.h5w_model.specs.Numbers.{range};
ghost use Rattle.h5w_model.specs.Programs.{eval};
ghost use Rattle.h5w_model.specs.Headers.{header_view};
ghost use Rattle.h5w_model.specs.Datasets.{dataset_messages, refused_as};
ghost use Rattle.h5w_model.specs.Tables.{format_limits};
ghost use Rattle.h5w_model.specs.Findings.{checked_dataset, dataset_finding, found};
ghost use Rattle.h5w_dataset.specs.Founds.{founds};
ghost use Rattle.h5w_headers.specs.Headers.{header_of};
ghost use Rattle.h5w_dataset.specs.Described.{described_of};
ghost use Rattle.h5w_check.specs.Ran.{Ran, Told, seen};
ghost use Rattle.h5w_check.specs.Headers.{error_for};
ghost use Rattle.h5w_check.specs.Described.{known};
ghost use Rattle.h5w_check.specs.Roots.{dataset_after};

use crate::error::CheckError;
use crate::ranges::Ranges;
use h5w_dataset::{Dataset, FoundMessage, describe};
use h5w_headers::{FindError, Header};
use h5w_image::PieceRead;
use h5w_model::ReadError;
use h5w_super::Super;
use std::alloc::Global;

/// The dataset header is refused.
const DATASET_HEADER: u8 = 8;

/// The dataset is one that the format allows and this profile leaves out.
const UNSUPPORTED: u8 = 9;

/// The rows need more chunks than are read.
const TOO_MANY_CHUNKS: u8 = 20;

/// The kind of the finding about a dataset header that is refused so.
fn kind_of(refusal: &ReadError) -> u8
    ensures { (at : ℕ) → dataset_finding at refusal.now ≡ found result at }
{
    match refusal {
        ReadError::Unsupported(_) => UNSUPPORTED,
        _ => DATASET_HEADER,
    }
}

/// The finding about the dataset header at `at` that stands for this refusal.
#[tactic(auto, using(crate::proofs::FoundLemmas::by_kind))]
fn dataset_finding(error: &FindError, at: u64) -> CheckError
    ensures { result ≡ error_for (dataset_finding at) error.now }
{
    match error {
        FindError::Refused(refusal) => CheckError::Finding {
            kind: kind_of(refusal),
            at,
        },
        FindError::Failed => CheckError::Failed,
        FindError::OutOfMemory => CheckError::OutOfMemory,
    }
}

/// The dataset header at `at`.
fn dataset_header<I: PieceRead>(alloc: Global, image: &mut I, at: u64) -> Result<Header, CheckError>
    ensures { Ran (I.view image.old) (I.view image.new)
        (λ img. refused_as (dataset_finding at) (eval img (dataset_messages at (header_view (range img at 512)))))
        (seen header_of result) }
{
    match h5w_headers::dataset_header(alloc, image, false, at) {
        Ok(header) => Ok(header),
        Err(error) => Err(dataset_finding(&error, at)),
    }
}

/// What the messages of the dataset header at `at` say.
fn known(at: u64, found: &[FoundMessage]) -> Result<Dataset, CheckError>
    ensures { Told (known at (founds found.now)) (seen described_of result) }
{
    let d = match describe(found) {
        Ok(d) => d,
        Err(_) => {
            return Err(CheckError::Finding {
                kind: UNSUPPORTED,
                at,
            });
        }
    };
    if d.needed() > u128::from(d.limit()) {
        return Err(CheckError::Finding {
            kind: TOO_MANY_CHUNKS,
            at,
        });
    }
    Ok(d)
}

/// What the dataset header at `at` says. Adds its ranges.
pub fn dataset<I: PieceRead>(
    alloc: Global,
    image: &mut I,
    s: &Super,
    at: u64,
    ranges: &mut Ranges,
) -> Result<Dataset, CheckError>
    ensures { Ran (I.view image.old) (I.view image.new)
        (λ img. dataset_after ranges.old (eval img (checked_dataset format_limits s.now at)))
        (seen (λ d. (described_of d, ranges.new)) result) }
{
    let header = dataset_header(alloc, image, at)?;
    ranges.put_header(s.end, &header.extents)?;
    known(at, &header.messages)
}
