//! Numbers in bytes, the least significant byte first, at a place and of a width from 1 to 8 bytes.
//! Takes no memory.
//!
//! What a number of bytes is stands in h5w_model, specs/Numbers.antt: `num`, `le`, `field`, `width_of`.
#![tactic(auto)]

ghost use Rattle.std.specs.Prelude.{◌≡◌, ◌+◌, ◌-◌, ◌<◌, ◌≤◌, ◌^◌, ◌++◌, length, take, drop, Option, Some, None, if◌then◌else◌, nat_le};
ghost use Rattle.h5w_model.specs.Numbers.{field, le, width_of};

use byteorder::{ByteOrder, LittleEndian};

mod pieces;
mod several;

pub use pieces::put_pieces;
pub use several::{put_bytes, put_each};

/// The address of nothing: eight bytes ff.
pub const UNDEFINED: u64 = u64::MAX;

const _: () = prove!(UNDEFINED == 0xffff_ffff_ffff_ffff);

/// The number in the `width` bytes from place `at` on, or None where they are not all inside.
pub fn get(b: &[u8], at: usize, width: usize) -> Option<u64>
    requires low { 1 ≤ width }
    requires high { width ≤ 8 }
    ensures exact { result ≡ (if nat_le (at + width) (length b.now) then Some (field b.now at width) else None) }
{
    match at.checked_add(width) {
        Some(end) if end <= b.len() => Some(number(b, at, width)),
        _ => None,
    }
}

/// The number in the `width` bytes from place `at` on, which are all inside.
pub fn number(b: &[u8], at: usize, width: usize) -> u64
    requires low { 1 ≤ width }
    requires high { width ≤ 8 }
    requires inside { at + width ≤ length b.now }
    ensures { result ≡ field b.now at width }
{
    LittleEndian::read_uint(&b[at..], width)
}

/// The word of four bytes from place `at` on, which are all inside.
pub fn word(b: &[u8], at: usize) -> u32
    requires { at + 4 ≤ length b.now }
    ensures { result ≡ field b.now at 4 }
{
    LittleEndian::read_u32(&b[at..])
}

/// The byte at place `at`, as the field of one byte that it is.
pub fn byte(b: &[u8], at: usize) -> u8
    requires { at < length b.now }
    ensures { result ≡ field b.now at 1 }
{
    b[at]
}

/// Writes `v` into the `width` bytes from place `at` on, and leaves every other byte.
pub fn put(b: &mut [u8], at: usize, width: usize, v: u64)
    requires low { 1 ≤ width }
    requires high { width ≤ 8 }
    requires inside { at + width ≤ length b.old }
    requires fits { v < 256 ^ width }
    ensures written { b.new ≡ (take at b.old ++ le width v) ++ drop (at + width) b.old }
{
    LittleEndian::write_uint(&mut b[at..], v, width);
}

/// How many bytes the number `m` needs: the base-2 logarithm of `m`, rounded down, divided by 8, plus 1.
pub fn width_of(m: u64) -> usize
    requires { 1 ≤ m }
    ensures exact { result ≡ width_of m }
    ensures fits { m < 256 ^ result }
    ensures least { 256 ^ (result - 1) ≤ m }
    ensures low { 1 ≤ result }
    ensures high { result ≤ 8 }
{
    m.ilog2() as usize / 8 + 1
}
