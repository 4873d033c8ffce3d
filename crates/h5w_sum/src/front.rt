//! Sums that are gone on with behind bytes that were summed before.
ghost use Rattle.std.specs.Prelude.{◌≡◌, ℕ, ◌+◌, ◌%◌, ◌<◌, ◌≤◌, List, ◌++◌, length, take, if◌then◌else◌, Ok, Err, IfOk};
ghost use Rattle.std.proofs.Props.{props};
ghost use Rattle.h5w_model.specs.Blocks.{block_tests};
ghost use Rattle.h5w_model.specs.Checked.{checked, viewed};
ghost use Rattle.h5w_model.specs.Checksum.{is_sealed, sum_of, sums_of};
ghost use Rattle.h5w_sum.specs.Fronts.{IsFront};

use crate::LEN;
use crate::words::Words;
use h5w_bytes::word;
use h5w_model::{BlockFault, OutOfMemory, Sums};
use std::alloc::Global;

/// How many bytes more a front has at least than the one before it: to sum fewer again costs less than to keep another.
const FURTHER: usize = 384;

/// The front of bytes that were summed, and the words of their sum behind it.
#[derive(Drop)]
struct Summed {
    /// How many bytes were summed.
    len: usize,
    bytes: Vec<u8>,
    words: Words,
    ghost goes: { IsFront len bytes.items words } by { Prim.hlevel props },
}

/// A front of bytes that were summed. The sum of as many bytes with the same front goes on behind it.
#[derive(Drop)]
pub struct Front {
    summed: Box<Summed>,
}

impl Front {
    /// A copy of these bytes as a front, with the words behind them.
    fn of(alloc: Global, len: usize, front: &[u8], words: &Words) -> Result<Front, OutOfMemory>
        requires { IsFront len front.now words.now }
    {
        let summed = Summed {
            len,
            bytes: Vec::from_slice(alloc, front)?,
            words: words.copied(),
        };
        Ok(Front {
            summed: Box::new(alloc, summed)?,
        })
    }
}

/// Where the sum of some bytes goes on, and its words there: behind a front that was summed before, where it is theirs, else at
/// the first byte.
fn begun_with(b: &[u8], old: Option<&Front>) -> (usize, Words)
    requires { 0 < length b.now }
    ensures inside { result.0 < length b.now }
    ensures front { IsFront (length b.now) (take result.0 b.now) result.1 }
{
    if let Some(front) = old {
        let summed = &*front.summed;
        let at = summed.bytes.len();
        if summed.len == b.len() && at < b.len() && &b[..at] == summed.bytes.as_slice() {
            return (at, summed.words.copied());
        }
    }
    (0, Words::begun(b.len()))
}

/// The sum of some bytes, gone on with behind a front that was summed before, where it is theirs. Their front up to place `upto` comes
/// with it, where that is longer by 384 bytes and there is memory for it.
fn sum_with(alloc: Global, b: &[u8], old: Option<&Front>, upto: usize) -> (u32, Option<Front>)
    requires { 0 < length b.now }
    ensures { result.0 ≡ sum_of b.now }
{
    let (at, begun) = begun_with(b, old);
    let more = upto.min(b.len() - 1).saturating_sub(at) / 12 * 12;
    let words = begun.with(&b[at..at + more]);
    let (front, rest) = b.split_at(at + more);
    let kept = if more >= FURTHER {
        Front::of(alloc, b.len(), front, &words).ok()
    } else {
        None
    };
    (words.sum_behind(rest), kept)
}

/// Whether a block's last four bytes are the sum of the bytes before them; else both sums. The front comes with it as with
/// [`check_block_with`].
fn sealed_with(
    alloc: Global,
    b: &[u8],
    old: Option<&Front>,
    upto: usize,
) -> Result<Option<Front>, Sums>
    requires { 4 < length b.now }
    ensures exact { viewed (λ _. tt {0}) result ≡ (if is_sealed b.now then Ok tt else Err (sums_of b.now)) }
{
    let body = b.len() - LEN;
    let (computed, front) = sum_with(alloc, &b[..body], old, upto);
    let sums = Sums {
        stored: word(b, body),
        computed,
    };
    if sums.stored == sums.computed {
        Ok(front)
    } else {
        Err(sums)
    }
}

/// The tests of [`check_block`](crate::check_block). The sum is gone on with behind a front that was summed before, where it is
/// this block's. The block's front up to place `upto` comes with the answer, where that is longer by 384 bytes and there is memory for it.
pub fn check_block_with(
    alloc: Global,
    b: &[u8],
    signature: &[u8; 4],
    len: usize,
    old: Option<&Front>,
    upto: usize,
) -> Result<Option<Front>, BlockFault>
    requires { 4 < len }
    ensures exact { viewed (λ _. tt {0}) result ≡ checked (block_tests signature.now len b.now) tt }
{
    if b.len() < len {
        return Err(BlockFault::Cut {
            need: len as u64,
            got: b.len() as u64,
        });
    }
    if !b.starts_with(signature) {
        return Err(BlockFault::Signature {
            found: [b[0], b[1], b[2], b[3]],
        });
    }
    sealed_with(alloc, &b[..len], old, upto).map_err(BlockFault::Sum)
}
