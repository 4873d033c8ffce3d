//! The nodes of a tree that stands on an image, loaded one after another in the order in which a check visits them.

ghost use Rattle.std.specs.Prelude.{◌≡◌, ◌≢◌, ℕ, suc, ◌+◌, ◌*◌, ◌<◌, ◌≤◌, ◌^◌, ◌∷◌, [], List, Err, IfErr, IfOk, IfSome, OnOk, false, true, length, map, is_some};
ghost use Rattle.std.specs.List.{All};
ghost use Rattle.h5w_model.specs.Causes.{Rose};
ghost use Rattle.h5w_model.specs.Numbers.{range};
ghost use Rattle.h5w_model.specs.Trees.{btin_at, btlf_at, capacity_of, pointer_size};
ghost use Rattle.h5w_model.specs.declared.refusal.BlockFault.TheVariants.{Cut, OutOfMemory as no_memory};
ghost use Rattle.h5w_image.specs.View.{Looked};
ghost use Rattle.h5w_looks.specs.Still.{IsStill};
ghost use Rattle.h5w_bt.specs.Fields.{btin_of, btlf_of};
ghost use Rattle.h5w_bt.specs.Parts.{child_of, record_of};
ghost use Rattle.h5w_bt_open.specs.Calls.{IfDamaged, IsJudged, Loads};
ghost use Rattle.h5w_bt_open.specs.Opened.{IsRead, no_chunk};

use crate::error::OpenTreeError;
use h5w_bt::{Btin, Btlf, Child, Key, Record};
use h5w_bytes::UNDEFINED;
use h5w_image::PieceRead;
use h5w_looks::read;
use h5w_model::{BlockFault, OutOfMemory};
use std::alloc::Global;

/// The `len` bytes of the image from `at` on, fewer where it ends.
pub fn bytes_at<I: PieceRead>(
    alloc: Global,
    image: &mut I,
    at: u64,
    len: u64,
) -> Result<Vec<u8>, OpenTreeError>
    ensures looked { Looked (I.view image.old) (I.view image.new) }
    ensures cause { result ≡ Err OpenTreeError.Failed → Rose (I.view image.old).faults (I.view image.new).faults }
    ensures exact { IfOk result (λ b. (img : List ℕ) → IsStill (I.view image.old) img → b.items ≡ range img at len) }
    ensures few { IfOk result (λ b. length b.items ≤ len) }
    ensures inside { IfOk result (λ b. at + length b.items ≤ 2 ^ 64) }
    ensures sound { IfErr result (λ e. IfDamaged e (λ a f. ⊥)) }
{
    let bytes = read(alloc, image, at, len)?;
    Ok(bytes)
}

/// No header ends at 2^64 or later.
pub fn check_end(at: u64, len: usize) -> Result<(), OpenTreeError>
    requires { len ≤ 10000 }
    ensures fits { OnOk result (at + len < 2 ^ 64) }
    ensures quiet { IfErr result (λ e. e ≢ OpenTreeError.Failed) }
    ensures damaged { IfErr result (λ e. IfDamaged e (λ a f. (a ≡ at) × ((f ≡ Cut len 0) × (2 ^ 64 ≤ at + len)))) }
{
    let need = len as u64;
    if at > u64::MAX - need {
        let fault = BlockFault::Cut { need, got: 0 };
        return Err(OpenTreeError::Damaged { at, fault });
    }
    Ok(())
}

/// Whether a node that is refused is passed over: only one that is not needed.
fn judge(at: u64, fault: BlockFault, needed: bool) -> Result<(), OpenTreeError>
    ensures passed { OnOk result (needed ≡ false) }
    ensures memory { OnOk result (fault ≢ no_memory) }
    ensures quiet { IfErr result (λ e. e ≢ OpenTreeError.Failed) }
    ensures damaged { IfErr result (λ e. IfDamaged e (λ a f. (a ≡ at) × ((f ≡ fault) × ((fault ≢ no_memory) × (needed ≡ true))))) }
{
    match fault {
        BlockFault::OutOfMemory => Err(OpenTreeError::OutOfMemory),
        fault => {
            if needed {
                Err(OpenTreeError::Damaged { at, fault })
            } else {
                Ok(())
            }
        }
    }
}

/// The leaf of these bytes at `at`; none where they are refused, and the leaf is not needed.
pub fn leaf_in(
    alloc: Global,
    bytes: &[u8],
    at: u64,
    records: u64,
    needed: bool,
) -> Result<Option<Btlf>, OpenTreeError>
    requires below { at + length bytes.now ≤ 2 ^ 64 }
    requires records { records ≤ 84 }
    ensures judged { IfOk result (λ o. IsJudged btlf_of (btlf_at bytes.now at records) needed o) }
    ensures quiet { IfErr result (λ e. e ≢ OpenTreeError.Failed) }
    ensures damaged { IfErr result (λ e. IfDamaged e (λ a f. (a ≡ at) × ((btlf_at bytes.now at records ≡ Err f) × (needed ≡ true)))) }
{
    match Btlf::decode(alloc, bytes, at, records) {
        Ok(leaf) => Ok(Some(leaf)),
        Err(fault) => {
            judge(at, fault, needed)?;
            Ok(None)
        }
    }
}

/// The inner node of these bytes at `at`; none where they are refused, and the node is not needed.
pub fn node_in(
    alloc: Global,
    bytes: &[u8],
    at: u64,
    records: u64,
    depth: u64,
    needed: bool,
) -> Result<Option<Btin>, OpenTreeError>
    requires below { at + length bytes.now ≤ 2 ^ 64 }
    requires deep { 1 ≤ depth }
    requires shallow { depth ≤ 3 }
    requires records { records ≤ capacity_of depth }
    ensures judged { IfOk result (λ o. IsJudged btin_of (btin_at bytes.now at records depth) needed o) }
    ensures read { IfOk result (λ o. IfSome o (λ n. (d : ℕ) → depth ≡ suc d → IsRead d records (btin_of n))) }
    ensures quiet { IfErr result (λ e. e ≢ OpenTreeError.Failed) }
    ensures damaged { IfErr result (λ e. IfDamaged e (λ a f. (a ≡ at) × ((btin_at bytes.now at records depth ≡ Err f) × (needed ≡ true)))) }
{
    match Btin::decode(alloc, bytes, at, records, depth) {
        Ok(node) => Ok(Some(node)),
        Err(fault) => {
            judge(at, fault, needed)?;
            Ok(None)
        }
    }
}

/// Two records of one key, without an address.
pub fn no_chunks(alloc: Global) -> Result<Vec<Record>, OutOfMemory>
    ensures { IfOk result (λ v. v.items ≡ no_chunk ∷ no_chunk ∷ []) }
{
    let key = Key {
        i: UNDEFINED,
        j: UNDEFINED,
    };
    let none = Record {
        address: UNDEFINED,
        key,
    };
    let mut items = Vec::new(alloc);
    items.extend_from_slice(&[none, none])?;
    Ok(items)
}
