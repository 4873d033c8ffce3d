//! The index of a dataset's chunks.
ghost use Rattle.h5w_model.specs.Programs.{eval};
ghost use Rattle.h5w_model.specs.Findings.{index_visit};
ghost use Rattle.h5w_check.specs.Ran.{Ran, answering};
ghost use Rattle.h5w_check.specs.Ranges.{after};
ghost use Rattle.h5w_dataset.specs.Described.{described_of};

use crate::array::array;
use crate::error::CheckError;
use crate::ranges::{Bounds, Ranges};
use crate::tree::tree;
use h5w_bytes::UNDEFINED;
use h5w_dataset::Dataset;
use h5w_image::PieceRead;
use h5w_model::IndexKind;
use std::alloc::Global;

/// Visits the index of a dataset, if it is there.
#[tactic(auto, using(crate::proofs::ArrayLemmas::run_absent))]
pub fn index<I: PieceRead>(
    alloc: Global,
    image: &mut I,
    end: u64,
    d: &Dataset,
    ranges: &mut Ranges,
) -> Result<(), CheckError>
    ensures { Ran (I.view image.old) (I.view image.new) (λ img. after ranges.old (eval img (index_visit end (described_of d.now)))) (answering ranges.new result) }
{
    let at = d.layout.address;
    if at == UNDEFINED {
        return Ok(());
    }
    let bounds = Bounds {
        end,
        chunk: d.chunk_bytes(),
    };
    match d.layout.index {
        IndexKind::Array => array(alloc, image, &bounds, at, ranges),
        IndexKind::Tree => tree(alloc, image, &bounds, at, ranges),
    }
}
