//! What counts of a look at a header.
ghost use Rattle.std.specs.Prelude.{◌≡◌, ◌-◌, ◌≤◌, ◌++◌, ◌∷◌, [], take, length, IfOk};
ghost use Rattle.h5w_model.specs.Headers.{prefix_at, header_view, zeros};
ghost use Rattle.h5w_lookup.specs.Looks.{FitsLook};
ghost use Rattle.h5w_model.specs.Datasets.{root_view};

use h5w_model::{Bytes, HeaderError, OutOfMemory, PIECE, Piece};
use h5w_ohdr::prefix;
use std::alloc::Global;

/// How many bytes count where signature or version is refused.
const REFUSED: usize = 5;

/// A copy of these bytes.
fn copy(alloc: Global, b: &[u8]) -> Result<Bytes, OutOfMemory>
    ensures { IfOk result (λ v. v ≡ b.now) }
{
    Ok(Bytes::from_vec(Vec::from_slice(alloc, b)?))
}

/// These bytes, and zeros up to 512.
fn filled(alloc: Global, b: &[u8]) -> Result<Bytes, OutOfMemory>
    requires { length b.now ≤ 512 }
    ensures { IfOk result (λ v. v ≡ b.now ++ zeros (512 - length b.now)) }
{
    let mut bytes = Vec::from_slice(alloc, b)?;
    bytes.resize(PIECE, 0)?;
    Ok(Bytes::from_vec(bytes))
}

/// The first 5 of these bytes, and a zero.
fn front(alloc: Global, b: &[u8]) -> Result<Bytes, OutOfMemory>
    requires { 6 ≤ length b.now }
    ensures { IfOk result (λ v. v ≡ take 5 b.now ++ 0 ∷ []) }
{
    let mut bytes = Vec::from_slice(alloc, &b[..REFUSED])?;
    bytes.push(0)?;
    Ok(Bytes::from_vec(bytes))
}

/// What counts of a look of up to 512 bytes at a dataset's header.
#[tactic(auto, unfolding(h5w_model::specs::Headers::header_view))]
pub fn header_view(alloc: Global, look: &Piece) -> Result<Bytes, OutOfMemory>
    ensures exact { IfOk result (λ v. v ≡ header_view look.now) }
    ensures fits { IfOk result (λ v. FitsLook (prefix_at look.now) (prefix_at v) (length v) (length look.now)) }
{
    let b = look.as_slice();
    match prefix(b) {
        Ok(p) if p.total > PIECE as u64 => filled(alloc, b),
        Ok(p) => copy(alloc, &b[..b.len().min(p.total as usize)]),
        Err(error) => match error {
            HeaderError::Signature => front(alloc, b),
            HeaderError::Version(_) => front(alloc, b),
            _ => copy(alloc, b),
        },
    }
}

/// What counts of the first look at the root header: all of it where chunk 0 is longer.
pub fn root_view(alloc: Global, look: &Piece) -> Result<Bytes, OutOfMemory>
    ensures exact { IfOk result (λ v. v ≡ root_view look.now) }
    ensures fits { IfOk result (λ v. length v ≤ length look.now) }
{
    let b = look.as_slice();
    match prefix(b) {
        Ok(p) if p.total > PIECE as u64 => copy(alloc, b),
        _ => header_view(alloc, look),
    }
}
