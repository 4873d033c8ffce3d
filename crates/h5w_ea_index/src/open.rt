//! An array that stands on an image.

ghost use Rattle.std.specs.Prelude.{◌≡◌, ◌≢◌, ℕ, ◌+◌, ◌<◌, ◌≤◌, ◌^◌, List, [], length, IfErr, IfOk, OnOk, None, Some};
ghost use Rattle.h5w_model.specs.Numbers.{field};
ghost use Rattle.h5w_model.specs.Images.{At};
ghost use Rattle.h5w_model.specs.Tables.{format_limits};
ghost use Rattle.h5w_looks.specs.Still.{IsStill};
ghost use Rattle.h5w_array_laws.specs.Parts.{header, index_block};
ghost use Rattle.h5w_array_laws.specs.ArrayStores.{IsArray, header_place};
ghost use Rattle.h5w_ea_index.specs.Opened.{IfDamaged, IfFound, IfNowhere, IsDamaged, IsHeaderAt, IsOpened, IsSound, IsThere, Loads, NamesBlock, NamesNone, refusal_of, refused_on};

use crate::create::{NAMED, NUMBERS, bare, keep, links};
use crate::error::OpenArrayError;
use crate::load::{bytes_at, check_end, load_all};
use crate::slot::{HEADER, INDEX_BLOCK};
use h5w_bytes::UNDEFINED;
use h5w_cache::{Block, Cache, Placement};
use h5w_ea::{Eahd, Eaib};
use h5w_image::PieceRead;
use std::alloc::Global;

/// The place of the index block that the header of these bytes at `at` names.
fn named_block(bytes: &[u8], at: u64) -> Result<u64, OpenArrayError>
    requires { at + length bytes.now ≤ 2 ^ 64 }
    ensures read { IfOk result (λ p. NamesBlock bytes.now at p) }
    ensures refused { IfErr result (λ e. IfDamaged e (λ a f. (a ≡ at) × (refusal_of header bytes.now at ≡ Some f))) }
    ensures quiet { IfErr result (λ e. e ≢ OpenArrayError.Failed) }
{
    match Eahd::decode(bytes, at) {
        Ok(found) => Ok(found.block),
        Err(fault) => Err(OpenArrayError::Damaged { at, fault }),
    }
}

/// Refuses what is no index block.
fn check_index(bytes: &[u8], at: u64) -> Result<(), OpenArrayError>
    requires { at + length bytes.now ≤ 2 ^ 64 }
    ensures sound { OnOk result (refusal_of index_block bytes.now at ≡ None) }
    ensures refused { IfErr result (λ e. IfDamaged e (λ a f. (a ≡ at) × (refusal_of index_block bytes.now at ≡ Some f))) }
    ensures quiet { IfErr result (λ e. e ≢ OpenArrayError.Failed) }
{
    match Eaib::decode(bytes, at) {
        Ok(_) => Ok(()),
        Err(fault) => Err(OpenArrayError::Damaged { at, fault }),
    }
}

/// The header that stands at `at`, and the place of the index block that it names.
fn header_at<I: PieceRead>(
    alloc: Global,
    image: &mut I,
    at: u64,
) -> Result<(Block, u64), OpenArrayError>
    ensures loads { Loads (I.view image.old) (I.view image.new) (λ img a f. (a ≡ at) × (refused_on img header at ≡ Some f)) result }
    ensures sound { IfOk result (λ x. IsSound header x.0) }
    ensures names { IfOk result (λ x. field x.0.bytes 60 8 ≡ x.1) }
    ensures fits { IfOk result (λ x. at + 72 < 2 ^ 64) }
    ensures stands { IfOk result (λ x. (img : List ℕ) → IsStill (I.view image.old) img → IsHeaderAt img at x.0.bytes x.1) }
{
    let bytes = bytes_at(alloc, image, at, Eahd::LEN)?;
    let place = named_block(&bytes, at)?;
    check_end(at, Eahd::LEN)?;
    let links = links(alloc, 60, &[INDEX_BLOCK])?;
    let turn = u64::from(HEADER);
    let block = Block::new(bytes, links, turn, Placement::InPlace, Eahd::LEN);
    Ok((block, place))
}

/// The index block that stands at `at`.
fn index_block_at<I: PieceRead>(
    alloc: Global,
    image: &mut I,
    at: u64,
) -> Result<Block, OpenArrayError>
    ensures loads { Loads (I.view image.old) (I.view image.new) (λ img a f. (a ≡ at) × (refused_on img index_block at ≡ Some f)) result }
    ensures sound { IfOk result (λ b. IsSound index_block b) }
    ensures fits { IfOk result (λ b. at + 298 < 2 ^ 64) }
    ensures stands { IfOk result (λ b. (img : List ℕ) → IsStill (I.view image.old) img → IsThere img index_block at b) }
{
    let bytes = bytes_at(alloc, image, at, Eaib::LEN)?;
    check_index(&bytes, at)?;
    check_end(at, Eaib::LEN)?;
    let links = links(alloc, Eaib::FIRST, &NAMED)?;
    let turn = u64::from(INDEX_BLOCK);
    Ok(Block::new(bytes, links, turn, Placement::InPlace, Eaib::LEN))
}

/// The array whose header stands at `header`. None where the header names no index block.
pub fn open<I: PieceRead>(
    alloc: Global,
    image: &mut I,
    header: u64,
    first: u64,
) -> Result<Option<Cache>, OpenArrayError>
    requires { first < format_limits.array }
    ensures loads { Loads (I.view image.old) (I.view image.new) (λ img a f. IsDamaged img header first a f) result }
    ensures array { IfFound result IsArray }
    ensures clean { IfFound result (λ v. v.changed ≡ []) }
    ensures at { IfFound result (λ v. header_place v ≡ header) }
    ensures opened { IfFound result (λ v. (img : List ℕ) → IsStill (I.view image.old) img → IsOpened img first v) }
    ensures nowhere { IfNowhere result ((img : List ℕ) → IsStill (I.view image.old) img → NamesNone img header) }
{
    let (top, place) = header_at(alloc, image, header)?;
    if place == UNDEFINED {
        return Ok(None);
    }
    let index = index_block_at(alloc, image, place)?;
    let mut cache = bare(alloc, NUMBERS)?;
    keep(&mut cache, INDEX_BLOCK, index, place);
    keep(&mut cache, HEADER, top, header);
    load_all(alloc, image, &mut cache, header, first)?;
    Ok(Some(cache))
}
