//! The messages of chunk 0 and of a continuation block.
ghost use Rattle.std.specs.Prelude.{◌≡◌, ◌⊎◌, ◌≤◌, ◌-◌, length, Err, OnOk};
ghost use Rattle.h5w_model.specs.Headers.{messages_at, block_at, whole_block, inside_block};
ghost use Rattle.h5w_model.specs.declared.refusal.HeaderError.TheVariants.{OutOfMemory};

use crate::header::{header, inside};
use crate::known::all_known;
use crate::list::Msgs;
use crate::walk::{before_data, walk};
use h5w_model::HeaderError;
use h5w_sum::sealed;
use std::alloc::Global;

/// What a continuation block begins with.
const SIGNATURE: [u8; 4] = *b"OCHK";

/// How many bytes of a continuation block are no messages: the signature and the sum.
const AROUND: usize = 8;

/// The messages of the header at the front of `chunk`, each with its place in it.
pub fn messages(alloc: Global, chunk: &[u8]) -> Result<Msgs, HeaderError>
    ensures exact { (result ≡ messages_at chunk.now) ⊎ (result ≡ Err OutOfMemory) }
{
    let p = header(chunk)?;
    let bytes = inside(chunk, &p);
    all_known(walk(alloc, bytes, before_data(p.tracked), p.at)?)
}

/// Whether `b` is a continuation block by its length, signature and sum; else the first refusal.
fn whole_block(b: &[u8]) -> Result<(), HeaderError>
    ensures exact { result ≡ whole_block b.now }
    ensures long { OnOk result (8 ≤ length b.now) }
{
    if b.len() < AROUND {
        return Err(HeaderError::Short {
            need: 8,
            got: b.len() as u64,
        });
    }
    if !b.starts_with(&SIGNATURE) {
        return Err(HeaderError::Signature);
    }
    sealed(b).map_err(HeaderError::Sum)
}

/// The bytes between signature and sum of a continuation block.
fn inside_block(b: &[u8]) -> &[u8]
    requires { 8 ≤ length b.now }
    ensures bytes { result.now ≡ inside_block b.now }
    ensures length { length result.now ≡ length b.now - 8 }
{
    let (_, behind) = b.split_at(SIGNATURE.len());
    let (inside, _) = behind.split_at(b.len() - AROUND);
    inside
}

/// The messages of the continuation block that `bytes` are, each with its place in it. `tracked` says whether the header's messages
/// have creation orders.
pub fn block(alloc: Global, bytes: &[u8], tracked: bool) -> Result<Msgs, HeaderError>
    ensures exact { (result ≡ block_at tracked bytes.now) ⊎ (result ≡ Err OutOfMemory) }
{
    whole_block(bytes)?;
    let inside = inside_block(bytes);
    all_known(walk(alloc, inside, before_data(tracked), SIGNATURE.len())?)
}
