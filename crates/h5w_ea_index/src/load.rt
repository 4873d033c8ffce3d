//! The blocks of an array that stands on an image, loaded one after another in the order in which a check visits them.

ghost use Rattle.std.specs.Prelude.{◌≡◌, ◌≢◌, ℕ, ◌+◌, ◌*◌, ◌<◌, ◌≤◌, ◌^◌, List, Err, IfErr, IfOk, OnOk, Some, false, true, length};
ghost use Rattle.h5w_model.specs.Causes.{Rose};
ghost use Rattle.h5w_model.specs.Numbers.{range};
ghost use Rattle.h5w_model.specs.declared.refusal.BlockFault.TheVariants.{Cut, OutOfMemory as no_memory};
ghost use Rattle.h5w_model.specs.Tables.{format_limits};
ghost use Rattle.h5w_image.specs.View.{Looked};
ghost use Rattle.h5w_looks.specs.Still.{IsStill};
ghost use Rattle.h5w_array_laws.specs.Parts.{IsPart, length_of};
ghost use Rattle.h5w_ea_index.specs.Loading.{IsLoading, copied_part, rank};
ghost use Rattle.h5w_ea_index.specs.Opened.{IfDamaged, IsDamaged, IsJudged, IsMade, IsOpened, IsSound, Loads, Refuses, StandsAt, past, refusal_of};

use crate::address::read as read_address;
use crate::copied::{
    Copied, block, empty, len, look_over, name_offset, number, parent_number, past,
};
use crate::create::keep;
use crate::error::OpenArrayError;
use h5w_bytes::UNDEFINED;
use h5w_cache::{Block, Cache};
use h5w_ea::{FIRST_SECONDARY, SUPER_BLOCKS, super_block};
use h5w_image::PieceRead;
use h5w_looks::read;
use h5w_model::{BlockFault, OutOfMemory};
use std::alloc::Global;

/// The `len` bytes of the image from `at` on, fewer where it ends.
pub fn bytes_at<I: PieceRead>(
    alloc: Global,
    image: &mut I,
    at: u64,
    len: usize,
) -> Result<Vec<u8>, OpenArrayError>
    ensures looked { Looked (I.view image.old) (I.view image.new) }
    ensures cause { result ≡ Err OpenArrayError.Failed → Rose (I.view image.old).faults (I.view image.new).faults }
    ensures exact { IfOk result (λ b. (img : List ℕ) → IsStill (I.view image.old) img → b.items ≡ range img at len) }
    ensures few { IfOk result (λ b. length b.items ≤ len) }
    ensures inside { IfOk result (λ b. at + length b.items ≤ 2 ^ 64) }
    ensures sound { IfErr result (λ e. IfDamaged e (λ a f. ⊥)) }
{
    let bytes = read(alloc, image, at, len as u64)?;
    Ok(bytes)
}

/// No block in place ends at 2^64 or later.
pub fn check_end(at: u64, len: usize) -> Result<(), OpenArrayError>
    requires { len ≤ 10000 }
    ensures fits { OnOk result (at + len < 2 ^ 64) }
    ensures quiet { IfErr result (λ e. e ≢ OpenArrayError.Failed) }
    ensures damaged { IfErr result (λ e. IfDamaged e (λ a f. (a ≡ at) × ((f ≡ Cut len 0) × (2 ^ 64 ≤ at + len)))) }
{
    let need = len as u64;
    if at > u64::MAX - need {
        let fault = BlockFault::Cut { need, got: 0 };
        return Err(OpenArrayError::Damaged { at, fault });
    }
    Ok(())
}

/// Whether a block that is refused is passed over: only one that is not needed.
fn judge(at: u64, fault: BlockFault, needed: bool) -> Result<(), OpenArrayError>
    ensures passed { OnOk result (needed ≡ false) }
    ensures memory { OnOk result (fault ≢ no_memory) }
    ensures quiet { IfErr result (λ e. e ≢ OpenArrayError.Failed) }
    ensures damaged { IfErr result (λ e. IfDamaged e (λ a f. (a ≡ at) × ((f ≡ fault) × ((fault ≢ no_memory) × (needed ≡ true))))) }
{
    match fault {
        BlockFault::OutOfMemory => Err(OpenArrayError::OutOfMemory),
        fault => {
            if needed {
                Err(OpenArrayError::Damaged { at, fault })
            } else {
                Ok(())
            }
        }
    }
}

/// True if `bytes`, which stand at `at`, decode as the block. If they do not: false when no chunk from `first` on needs the block,
/// else the refusal.
fn is_whole(
    alloc: Global,
    part: Copied,
    bytes: &[u8],
    at: u64,
    first: u64,
) -> Result<bool, OpenArrayError>
    requires part { IsPart (copied_part part) }
    requires below { at + length bytes.now ≤ 2 ^ 64 }
    ensures judged { IfOk result (λ whole. IsJudged (copied_part part) bytes.now at first whole) }
    ensures quiet { IfErr result (λ e. e ≢ OpenArrayError.Failed) }
    ensures damaged { IfErr result (λ e. IfDamaged e (λ a f. (a ≡ at) × ((first < past (copied_part part)) × (refusal_of (copied_part part) bytes.now at ≡ Some f)))) }
{
    match look_over(alloc, part, bytes, at) {
        Ok(()) => Ok(true),
        Err(fault) => {
            judge(at, fault, first < past(part))?;
            Ok(false)
        }
    }
}

/// The block of these bytes, or one that names nothing, of the array whose header stands at `header`.
fn block_or_empty(
    alloc: Global,
    header: u64,
    part: Copied,
    bytes: Vec<u8>,
    whole: bool,
) -> Result<Block, OutOfMemory>
    requires part { IsPart (copied_part part) }
    requires len { whole ≡ true → length bytes.items ≡ length_of (copied_part part) }
    ensures { IfOk result (λ b. IsMade header (copied_part part) bytes.items whole b) }
{
    if whole {
        block(alloc, part, bytes)
    } else {
        empty(alloc, header, part)
    }
}

/// The block that stands at `at`, of the array whose header stands at `header`. Where what stands there is refused and leads to no
/// chunk from number `first` on, an empty one.
fn loaded<I: PieceRead>(
    alloc: Global,
    image: &mut I,
    header: u64,
    part: Copied,
    at: u64,
    first: u64,
) -> Result<Block, OpenArrayError>
    requires { IsPart (copied_part part) }
    ensures loads { Loads (I.view image.old) (I.view image.new) (λ img a f. (a ≡ at) × Refuses img first (copied_part part) at f) result }
    ensures sound { IfOk result (λ b. IsSound (copied_part part) b) }
    ensures stands { IfOk result (λ b. (img : List ℕ) → IsStill (I.view image.old) img → StandsAt img first (copied_part part) at b) }
{
    let bytes = bytes_at(alloc, image, at, len(part))?;
    let whole = is_whole(alloc, part, &bytes, at, first)?;
    let block = block_or_empty(alloc, header, part, bytes, whole)?;
    Ok(block)
}

/// Loads a block of the array whose header stands at `header`, where the one that names it says that it is there.
fn load<I: PieceRead>(
    alloc: Global,
    image: &mut I,
    cache: &mut Cache,
    header: u64,
    part: Copied,
    first: u64,
) -> Result<(), OpenArrayError>
    requires part { IsPart (copied_part part) }
    requires low { first < format_limits.array }
    requires loading { IsLoading header (rank (copied_part part)) cache.old }
    ensures loads { Loads (I.view image.old) (I.view image.new) (λ img a f. IsOpened img first cache.old → IsDamaged img header first a f) result }
    ensures loading { OnOk result (IsLoading header (rank (copied_part part) + 1) cache.new) }
    ensures opened { OnOk result ((img : List ℕ) → IsStill (I.view image.old) img → IsOpened img first cache.old → IsOpened img first cache.new) }
{
    let at = read_address(cache, parent_number(part), name_offset(part));
    if at == UNDEFINED {
        return Ok(());
    }
    let block = loaded(alloc, image, header, part, at, first)?;
    keep(cache, number(part), block, at);
    Ok(())
}

/// Loads the data blocks of a super block.
fn load_data<I: PieceRead>(
    alloc: Global,
    image: &mut I,
    cache: &mut Cache,
    header: u64,
    sblock: u32,
    first: u64,
) -> Result<(), OpenArrayError>
    requires known { sblock ≤ 12 }
    requires low { first < format_limits.array }
    requires loading { IsLoading header (65 * sblock + 1) cache.old }
    ensures loads { Loads (I.view image.old) (I.view image.new) (λ img a f. IsOpened img first cache.old → IsDamaged img header first a f) result }
    ensures loading { OnOk result (IsLoading header (65 * (sblock + 1)) cache.new) }
    ensures opened { OnOk result ((img : List ℕ) → IsStill (I.view image.old) img → IsOpened img first cache.old → IsOpened img first cache.new) }
{
    let (blocks, _, _) = super_block(sblock);
    let blocks = blocks as u32;
    for block in 0..blocks {
        load(
            alloc,
            image,
            cache,
            header,
            Copied::Data { sblock, block },
            first,
        )?;
    }
    Ok(())
}

/// Loads the secondary block of a super block, if that has one.
fn load_secondary<I: PieceRead>(
    alloc: Global,
    image: &mut I,
    cache: &mut Cache,
    header: u64,
    sblock: u32,
    first: u64,
) -> Result<(), OpenArrayError>
    requires known { sblock ≤ 12 }
    requires low { first < format_limits.array }
    requires loading { IsLoading header (65 * sblock) cache.old }
    ensures loads { Loads (I.view image.old) (I.view image.new) (λ img a f. IsOpened img first cache.old → IsDamaged img header first a f) result }
    ensures loading { OnOk result (IsLoading header (65 * sblock + 1) cache.new) }
    ensures opened { OnOk result ((img : List ℕ) → IsStill (I.view image.old) img → IsOpened img first cache.old → IsOpened img first cache.new) }
{
    if sblock < FIRST_SECONDARY {
        return Ok(());
    }
    load(
        alloc,
        image,
        cache,
        header,
        Copied::Secondary { sblock },
        first,
    )
}

/// Loads the blocks of a super block.
fn load_super_block<I: PieceRead>(
    alloc: Global,
    image: &mut I,
    cache: &mut Cache,
    header: u64,
    sblock: u32,
    first: u64,
) -> Result<(), OpenArrayError>
    requires known { sblock ≤ 12 }
    requires low { first < format_limits.array }
    requires loading { IsLoading header (65 * sblock) cache.old }
    ensures loads { Loads (I.view image.old) (I.view image.new) (λ img a f. IsOpened img first cache.old → IsDamaged img header first a f) result }
    ensures loading { OnOk result (IsLoading header (65 * (sblock + 1)) cache.new) }
    ensures opened { OnOk result ((img : List ℕ) → IsStill (I.view image.old) img → IsOpened img first cache.old → IsOpened img first cache.new) }
{
    load_secondary(alloc, image, cache, header, sblock, first)?;
    load_data(alloc, image, cache, header, sblock, first)
}

/// Loads all data blocks and secondary blocks.
pub fn load_all<I: PieceRead>(
    alloc: Global,
    image: &mut I,
    cache: &mut Cache,
    header: u64,
    first: u64,
) -> Result<(), OpenArrayError>
    requires loading { IsLoading header 0 cache.old }
    requires low { first < format_limits.array }
    ensures loads { Loads (I.view image.old) (I.view image.new) (λ img a f. IsOpened img first cache.old → IsDamaged img header first a f) result }
    ensures loading { OnOk result (IsLoading header 845 cache.new) }
    ensures opened { OnOk result ((img : List ℕ) → IsStill (I.view image.old) img → IsOpened img first cache.old → IsOpened img first cache.new) }
{
    for sblock in 0..SUPER_BLOCKS {
        load_super_block(alloc, image, cache, header, sblock, first)?;
    }
    Ok(())
}
