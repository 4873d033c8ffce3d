//! The walk over the messages of chunk 0 or of a continuation block.
ghost use Rattle.std.specs.Prelude.{◌≡◌, ℕ, ◌+◌, ◌^◌, ◌<◌, ◌≤◌, ◌==◌, ◌⊎◌, true, Err, List, length, find, option_map, MatchOption, MatchResult, IsOkAnd, IfOk, IfSome};
ghost use Rattle.h5w_model.specs.declared.message.Msg.{Msg};
ghost use Rattle.h5w_model.specs.Headers.{before_data, overruns, msgs_in};
ghost use Rattle.h5w_model.specs.declared.refusal.HeaderError.TheVariants.{Overrun, OutOfMemory};
ghost use Rattle.h5w_ohdr.specs.Walk.{HasMessage};

use crate::kind::CONTINUATION;
use crate::list::Msgs;
use h5w_bytes::{byte, number};
use h5w_model::{Bytes, HeaderError, Msg};
use std::alloc::Global;

/// What a message says before its data.
#[derive(Clone, Copy)]
struct Head {
    kind: u8,
    flags: u8,
    /// How many bytes of data follow.
    size: usize,
}

/// How many bytes stand before a message's data.
pub fn before_data(tracked: bool) -> usize
    ensures exact { result ≡ before_data tracked }
    ensures low { 4 ≤ result }
    ensures high { result ≤ 6 }
{
    if tracked { 6 } else { 4 }
}

/// The message at the front of `b`, or None where the gap begins there. `place` is where `b` begins, for the refusal.
fn front(b: &[u8], before: usize, place: usize) -> Result<Option<Head>, HeaderError>
    requires low { 4 ≤ before }
    requires high { before ≤ 6 }
    ensures found { MatchResult result
        (λ found. MatchOption found (length b.now < before) (λ f. HasMessage before b.now f.kind f.flags f.size))
        (λ e. (before ≤ length b.now) × (overruns before b.now ≡ true) × (e ≡ Overrun place)) }
{
    if b.len() < before {
        return Ok(None);
    }
    let kind = byte(b, 0);
    let size = number(b, 1, 2) as usize;
    if b.len() - before < size || kind == CONTINUATION && size < 16 {
        return Err(HeaderError::Overrun { at: place as u64 });
    }
    Ok(Some(Head {
        kind,
        flags: byte(b, 3),
        size,
    }))
}

/// The messages of `b`, in order. `start` is where `b` begins.
pub fn walk(alloc: Global, b: &[u8], before: usize, start: usize) -> Result<Msgs, HeaderError>
    requires low { 4 ≤ before }
    requires high { before ≤ 6 }
    requires places { start + length b.now < 2 ^ 64 }
    ensures exact { (result ≡ msgs_in (length b.now) before start b.now) ⊎ (result ≡ Err OutOfMemory) }
{
    let mut msgs = Msgs::new(alloc);
    let mut rest = b;
    let mut place = start;
    while let Some(head) = front(rest, before, place)? {
        let (message, after) = rest.split_at(before + head.size);
        let body = Bytes::from_vec(Vec::from_slice(alloc, &message[before..])?);
        msgs.push(Msg {
            kind: head.kind,
            flags: head.flags,
            at: place as u64,
            body,
        })?;
        place += message.len();
        rest = after;
    }
    Ok(msgs)
}

/// The first message of a type among those of `b`: where its data begin, and the data. `start` is where `b` begins.
pub fn first(
    b: &[u8],
    before: usize,
    start: usize,
    kind: u8,
) -> Result<Option<(usize, &[u8])>, HeaderError>
    requires low { 4 ≤ before }
    requires high { before ≤ 6 }
    requires places { start + length b.now < 2 ^ 64 }
    ensures found { (ms : List Msg) → msgs_in (length b.now) before start b.now ≡ Ok ms
        → IsOkAnd result (λ found. option_map {U = ℕ × List ℕ} (λ x. (x.0, x.1.now)) found
        ≡ option_map {U = ℕ × List ℕ} (λ m. (m.at + before, m.body)) (find (λ m. m.kind == kind) ms)) }
    ensures inside { IfOk result (λ found. IfSome found (λ x. x.0 + length x.1.now ≤ start + length b.now)) }
{
    let mut rest = b;
    let mut place = start;
    while let Some(head) = front(rest, before, place)? {
        let (message, after) = rest.split_at(before + head.size);
        if head.kind == kind {
            return Ok(Some((place + before, &message[before..])));
        }
        place += message.len();
        rest = after;
    }
    Ok(None)
}
