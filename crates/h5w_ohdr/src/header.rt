//! What stands before the messages of chunk 0, and the bytes of the messages.
ghost use Rattle.std.specs.Prelude.{◌≡◌, ◌+◌, ◌≤◌, length, IfOk};
ghost use Rattle.h5w_model.specs.Headers.{prefix_at, size_width, messages_place, header_at, inside_of};

use h5w_bytes::{byte, number};
use h5w_model::{HeaderError, Prefix};
use h5w_sum::sealed;

/// What a header begins with.
pub const SIGNATURE: [u8; 4] = *b"OHDR";

/// How many bytes the size of chunk 0 takes, by the header's flags.
fn size_width(flags: u8) -> usize
    ensures exact { result ≡ size_width flags }
    ensures low { 1 ≤ result }
    ensures high { result ≤ 8 }
{
    1 << (flags & 3)
}

/// Where the messages begin, by the header's flags: behind signature, version and flags stand four times with bit 5, two phase
/// values with bit 4, and the size of chunk 0.
fn messages_place(flags: u8) -> usize
    ensures exact { result ≡ messages_place flags }
    ensures high { result ≤ 34 }
{
    let times = if flags & 0x20 != 0 { 16 } else { 0 };
    let phases = if flags & 0x10 != 0 { 4 } else { 0 };
    6 + times + phases + size_width(flags)
}

/// What stands before the messages of the header at the front of `b`, or the first of Short, Signature, Version and Short. Nothing
/// is said of the bytes behind it.
#[tactic(auto, unfolding(h5w_model::specs::Headers::prefix_at))]
pub fn prefix(b: &[u8]) -> Result<Prefix, HeaderError>
    ensures exact { result ≡ prefix_at b.now }
    ensures place { IfOk result (λ p. p.at ≤ 34) }
{
    let got = b.len() as u64;
    if got < 6 {
        return Err(HeaderError::Short { need: 6, got });
    }
    if !b.starts_with(&SIGNATURE) {
        return Err(HeaderError::Signature);
    }
    let version = byte(b, 4);
    if version != 2 {
        return Err(HeaderError::Version(version));
    }
    let flags = byte(b, 5);
    let at = messages_place(flags);
    if b.len() < at {
        return Err(HeaderError::Short {
            need: at as u64,
            got,
        });
    }
    let width = size_width(flags);
    let len = number(b, at - width, width);
    Ok(Prefix {
        total: len.saturating_add(at as u64 + 4),
        at,
        len,
        tracked: flags & 4 != 0,
    })
}

/// What stands before the messages of the header at the front of `b`, which is whole and sealed, or the first refusal.
#[tactic(auto, unfolding(h5w_model::specs::Headers::header_at))]
pub fn header(b: &[u8]) -> Result<Prefix, HeaderError>
    ensures exact { result ≡ header_at b.now }
    ensures whole { IfOk result (λ p. p.at + p.len + 4 ≤ length b.now) }
{
    let p = prefix(b)?;
    let got = b.len() as u64;
    let Some(end) = p.len.checked_add(p.at as u64 + 4) else {
        return Err(HeaderError::Short { need: p.total, got });
    };
    if got < end {
        return Err(HeaderError::Short { need: p.total, got });
    }
    sealed(&b[..end as usize]).map_err(HeaderError::Sum)?;
    Ok(p)
}

/// The bytes of a header's messages and of the gap.
pub fn inside<'a>(b: &'a [u8], p: &Prefix) -> &'a [u8]
    requires { p.now.at + p.now.len ≤ length b.now }
    ensures bytes { result.now ≡ inside_of b.now p.now }
    ensures length { length result.now ≡ p.now.len }
{
    let (_, behind) = b.split_at(p.at);
    let (inside, _) = behind.split_at(p.len as usize);
    inside
}
