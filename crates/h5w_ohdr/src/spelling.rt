//! Chunk 0 as it is written: no times, no phase values, no creation orders, no gap.
ghost use Rattle.std.specs.Prelude.{◌≡◌, ◌<◌, ◌≤◌, ◌^◌, ◌++◌, ◌+◌, length, drop, sum_by, Ok, Some, None, if◌then◌else◌, nat_lt};
ghost use Rattle.h5w_model.specs.Headers.{msg_bytes, msgs_bytes, prefix_bytes, header_bytes, AreReadable, messages_at, header_messages};

use crate::header::SIGNATURE;
use crate::list::Msgs;
use h5w_bytes::put;
use h5w_model::Msg;
use h5w_sum::seal;

/// The size of chunk 0 is written in one or two bytes.
const LIMIT: usize = 1 << 16;

/// How many bytes these messages take.
fn size_of(list: &[Msg]) -> usize
    requires { sum_by (λ m. 4 + length m.body) list.now < 2 ^ 16 }
    ensures { result ≡ sum_by (λ m. 4 + length m.body) list.now }
{
    list.iter().map(|m| 4 + m.body.as_slice().len()).sum()
}

/// How many bytes stand before messages of `size` bytes.
#[tactic(auto, unfolding(h5w_model::specs::Headers::prefix_bytes, h5w_model::specs::Numbers::le))]
fn prefix_len(size: usize) -> usize
    ensures exact { result ≡ length (prefix_bytes size) }
    ensures high { result ≤ 8 }
{
    if size <= 255 { 7 } else { 8 }
}

/// Writes what stands before messages of `size` bytes at the front of `out`, and answers how many bytes that takes.
#[tactic(auto, unfolding(h5w_model::specs::Headers::prefix_bytes))]
fn put_prefix(size: usize, out: &mut [u8]) -> usize
    requires size { size < 2 ^ 16 }
    requires room { 8 ≤ length out.old }
    ensures length { result ≡ length (prefix_bytes size) }
    ensures spelled { out.new ≡ prefix_bytes size ++ drop (length (prefix_bytes size)) out.old }
{
    let (flags, width) = if size <= 255 { (0, 1) } else { (1, 2) };
    out[..4].copy_from_slice(&SIGNATURE);
    out[4] = 2;
    out[5] = flags;
    put(out, 6, width, size as u64);
    6 + width
}

/// Writes a message at the front of `out`, and answers how many bytes that takes.
#[tactic(auto, unfolding(h5w_model::specs::Numbers::le))]
fn put_message(m: &Msg, out: &mut [u8]) -> usize
    requires size { length (msg_bytes m.now) < 2 ^ 16 }
    requires room { length (msg_bytes m.now) ≤ length out.old }
    ensures length { result ≡ length (msg_bytes m.now) }
    ensures spelled { out.new ≡ msg_bytes m.now ++ drop (length (msg_bytes m.now)) out.old }
{
    let body = m.body.as_slice();
    let end = 4 + body.len();
    out[0] = m.kind;
    out[3] = m.flags;
    put(out, 1, 2, body.len() as u64);
    out[4..end].copy_from_slice(body);
    end
}

/// Writes messages one after another at the front of `out`, and answers how many bytes they take.
fn put_messages(list: &[Msg], out: &mut [u8]) -> usize
    requires size { length (msgs_bytes list.now) < 2 ^ 16 }
    requires room { length (msgs_bytes list.now) ≤ length out.old }
    ensures length { result ≡ length (msgs_bytes list.now) }
    ensures spelled { out.new ≡ msgs_bytes list.now ++ drop (length (msgs_bytes list.now)) out.old }
{
    let mut end = 0;
    for m in list {
        end += put_message(m, &mut out[end..]);
    }
    end
}

/// Writes chunk 0 without its sum at the front of `out`, and answers how many bytes that takes.
fn put_body(list: &[Msg], out: &mut [u8]) -> usize
    requires size { length (msgs_bytes list.now) < 2 ^ 16 }
    requires room { length (header_bytes list.now) ≤ length out.old }
    ensures length { result + 4 ≡ length (header_bytes list.now) }
    ensures spelled { let body = prefix_bytes (length (msgs_bytes list.now)) ++ msgs_bytes list.now in
        out.new ≡ body ++ drop (length body) out.old }
{
    let start = put_prefix(size_of(list), out);
    start + put_messages(list, &mut out[start..])
}

/// How many bytes these messages take, where they are fewer than 2^16.
fn small_size_of(list: &[Msg]) -> Option<usize>
    ensures { result ≡ (if nat_lt (length (msgs_bytes list.now)) (2 ^ 16) then Some (length (msgs_bytes list.now)) else None) }
{
    let mut size = 0;
    for m in list {
        let len = m.body.as_slice().len();
        if len >= LIMIT {
            return None;
        }
        size += 4 + len;
        if size >= LIMIT {
            return None;
        }
    }
    Some(size)
}

impl Msgs {
    /// How many bytes chunk 0 with these messages takes, None where its size does not fit two bytes.
    pub fn written_len(&self) -> Option<usize>
        ensures { result ≡ (if nat_lt (length (msgs_bytes self.now)) (2 ^ 16) then Some (length (header_bytes self.now)) else None) }
    {
        let size = small_size_of(self.as_slice())?;
        Some(prefix_len(size) + size + 4)
    }

    /// Writes chunk 0 with these messages at the front of `out`, and answers how many bytes that takes. Whoever reads it finds the
    /// same messages, whatever follows.
    pub fn encode(&self, out: &mut [u8]) -> usize
        requires size { length (msgs_bytes self.now) < 2 ^ 16 }
        requires room { length (header_bytes self.now) ≤ length out.old }
        ensures length { result ≡ length (header_bytes self.now) }
        ensures spelled { out.new ≡ header_bytes self.now ++ drop (length (header_bytes self.now)) out.old }
        ensures reads_back { AreReadable self.now → messages_at out.new ≡ Ok (header_messages self.now) }
    {
        let end = put_body(self.as_slice(), out) + 4;
        seal(&mut out[..end]);
        end
    }
}
