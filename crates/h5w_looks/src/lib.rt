//! Ranges of an image that are longer than one look: its bytes in looks of at most 512, from a place on, one after another.
#![tactic(auto)]

ghost use Rattle.std.specs.Prelude.{◌≡◌, ◌+◌, ◌-◌, ◌≤◌, ◌^◌, ◌++◌, ℕ, List, length, IfOk, OnOk};
ghost use Rattle.h5w_model.specs.Causes.{Rose};
ghost use Rattle.h5w_model.specs.Numbers.{range};
ghost use Rattle.h5w_model.specs.Programs.{below_end};
ghost use Rattle.h5w_image.specs.View.{Looked, GivesRange};
ghost use Rattle.h5w_looks.specs.Still.{IsStill};

use h5w_image::{ImageError, PIECE, Piece, PieceRead};
use h5w_model::OutOfMemory;
use std::alloc::Global;

/// How many of `len` bytes from `place` on stand below 2^64.
fn below_end(place: u64, len: u64) -> u64
    ensures { result ≡ below_end place len }
{
    let most = u64::MAX - place;
    if len <= most { len } else { most + 1 }
}

/// Puts the bytes of a piece behind others.
fn put_behind(bytes: &mut Vec<u8>, piece: &Piece) -> Result<usize, OutOfMemory>
    ensures bytes { OnOk result (bytes.new.items ≡ bytes.old.items ++ piece.now) }
    ensures got { IfOk result (λ n. n ≡ length piece.now) }
{
    bytes.extend_from_slice(piece.as_slice())?;
    Ok(piece.len())
}

/// Looks at `len` bytes from `at` on, and puts what the image has of them behind `bytes`: so many bytes.
#[tactic(auto, using(h5w_image::proofs::ViewLemmas::views))]
fn add_look<I: PieceRead>(
    image: &mut I,
    at: u64,
    len: usize,
    bytes: &mut Vec<u8>,
) -> Result<usize, ImageError>
    requires some { 1 ≤ len }
    requires piece { len ≤ 512 }
    ensures looked { Looked (I.view image.old) (I.view image.new) }
    ensures cause { result ≡ Err ImageError.Failed → Rose (I.view image.old).faults (I.view image.new).faults }
    ensures exact { IfOk result (λ n. (img : List ℕ) → IsStill (I.view image.old) img → bytes.new.items ≡ bytes.old.items ++ range img at len) }
    ensures counted { IfOk result (λ n. length bytes.new.items ≡ length bytes.old.items + n) }
    ensures bound { IfOk result (λ n. n ≤ len) }
{
    let mut piece = Piece::new();
    image.look(at, len, &mut piece)?;
    let n = put_behind(bytes, &piece)?;
    Ok(n)
}

/// The bytes of the image from `at` on, `len` of them, fewer where the image ends, and none from 2^64 on. A look that gives
/// less than it asks for is the last.
///
/// Failed: the image's count of faults rose.
pub fn read<I: PieceRead>(
    alloc: Global,
    image: &mut I,
    at: u64,
    len: u64,
) -> Result<Vec<u8>, ImageError>
    ensures looked { Looked (I.view image.old) (I.view image.new) }
    ensures cause { result ≡ Err ImageError.Failed → Rose (I.view image.old).faults (I.view image.new).faults }
    ensures exact { IfOk result (λ b. (img : List ℕ) → IsStill (I.view image.old) img → b.items ≡ range img at len) }
    ensures inside { IfOk result (λ b. at + length b.items ≤ 2 ^ 64) }
    ensures few { IfOk result (λ b. length b.items ≤ len) }
{
    let mut bytes = Vec::new(alloc);
    let mut place = at;
    let mut rest = below_end(at, len);
    while rest > PIECE as u64 {
        let n = add_look(image, place, PIECE, &mut bytes)?;
        if n < PIECE {
            return Ok(bytes);
        }
        place += PIECE as u64;
        rest -= PIECE as u64;
    }
    if rest == 0 {
        return Ok(bytes);
    }
    add_look(image, place, rest as usize, &mut bytes)?;
    Ok(bytes)
}
