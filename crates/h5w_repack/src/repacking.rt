//! A file written anew into another one.
ghost use Rattle.std.specs.Prelude.{◌≡◌, ◌⊎◌, ◌*◌, ◌≤◌, ◌^◌, ℕ, List, [], length, Some, Err, IfSome, IfOk, IfErr, OnErr};
ghost use Rattle.h5w_model.specs.Causes.{Rose};
ghost use Rattle.h5w_image.specs.View.{Looked, Wrote};
ghost use Rattle.h5w_looks.specs.Still.{IsStill};
ghost use Rattle.h5w_repack.specs.Packed.{ArePacks, IsNoFile, IsNotPacked, IsPacked, MayBeLate};

use crate::copying::copy;
use crate::error::RepackError;
use crate::pair::Images;
use h5w_image::{PieceRead, PieceWrite};
use h5w_names::Names;
use h5w_packing::{Ranges, plan};
use h5w_survey::survey;
use std::alloc::Global;

/// Writes the datasets that the root group's links of these names lead to, in the file that an image of `size` bytes is, into an image without
/// bytes, which is a file of its own then and ends by `limit`. The answer has its ranges.
pub fn repack<I: PieceRead, O: PieceWrite>(
    alloc: Global,
    images: &mut Images<I, O>,
    size: u64,
    names: &Names,
    limit: u64,
) -> Result<Ranges, RepackError>
    requires size { IfSome (I.view images.old.from).bytes (λ img. size ≡ length img) }
    requires empty { IfSome (O.view images.old.to).bytes (λ b. b ≡ []) }
    requires names { ArePacks names.now }
    requires low { 1024 * length names.now ≤ limit }
    requires high { limit ≤ 2 ^ 40 }
    // the source stays
    ensures looked { Looked (I.view images.old.from) (I.view images.new.from) }
    ensures packed { IfOk result (λ ranges. (img b : List ℕ) → IsStill (I.view images.old.from) img → (O.view images.new.to).bytes ≡ Some b → IsPacked img names.now limit ranges b) }
    // where the source tells its bytes and nobody else writes it: its first finding, its flags, or the first range without a place
    ensures refused { IfErr result (λ e. (img : List ℕ) → IsStill (I.view images.old.from) img → IsNotPacked img names.now limit e) }
    // only a failed look or write leaves some of the new file, in which no reader finds one
    ensures unborn { OnErr result ((b : List ℕ) → (O.view images.new.to).bytes ≡ Some b → IsNoFile b) }
    ensures before { IfErr result (λ e. MayBeLate e ⊎ Wrote [] (O.view images.old.to) (O.view images.new.to)) }
    ensures from_fault { result ≡ Err RepackError.From → Rose (I.view images.old.from).faults (I.view images.new.from).faults }
    ensures to_fault { result ≡ Err RepackError.To → Rose (O.view images.old.to).faults (O.view images.new.to).faults }
{
    let found = survey(alloc, &mut images.from, size, names)?;
    let mut packing = plan(alloc, &found, limit)?;
    copy(&mut packing, images)?;
    Ok(packing.into_ranges())
}
