//! The texts of a reader's refusals.
ghost use Rattle.std.specs.Prelude.{◌≡◌, ◌++◌, ◌<◌, ◌^◌, OnOk, flat_map};
ghost use Rattle.h5w_text.specs.Refusals.{fault_words, header_words, hex_digit, hex_digits, link_words, refusal_words, spaced_hex, super_words, sums_words};

use crate::digits::{large_number, number, text};
use crate::reply::with_numbers;
use h5w_model::{BlockFault, HeaderError, LinkError, OutOfMemory, ReadError, Sums, SuperError};

/// A hexadecimal digit, in lower case.
fn hex_digit(n: u32) -> u8
    requires { n < 16 }
    ensures { result ≡ hex_digit n }
{
    if n < 10 {
        b'0' + n as u8
    } else {
        b'a' + (n as u8 - 10)
    }
}

/// Adds a number's last so many hexadecimal digits. It calls itself once for each digit.
fn hex(out: &mut Vec<u8>, digits: u32, n: u32) -> Result<(), OutOfMemory>
    ensures { OnOk result (out.new.items ≡ out.old.items ++ hex_digits digits n) }
{
    if digits == 0 {
        return Ok(());
    }
    hex(out, digits - 1, n / 16)?;
    out.push(hex_digit(n % 16))?;
    Ok(())
}

/// Adds a space and the eight hexadecimal digits of a word.
fn spaced_hex(out: &mut Vec<u8>, n: u32) -> Result<(), OutOfMemory>
    ensures { OnOk result (out.new.items ≡ out.old.items ++ spaced_hex n) }
{
    text(out, b" ")?;
    hex(out, 8, n)
}

/// Adds two sums that do not agree.
fn sums(out: &mut Vec<u8>, sums: Sums) -> Result<(), OutOfMemory>
    ensures { OnOk result (out.new.items ≡ out.old.items ++ sums_words sums) }
{
    text(out, b" sum")?;
    spaced_hex(out, sums.stored)?;
    spaced_hex(out, sums.computed)
}

/// Adds a signature, two hexadecimal digits a byte.
fn signature(out: &mut Vec<u8>, found: &[u8]) -> Result<(), OutOfMemory>
    ensures { OnOk result (out.new.items ≡ out.old.items ++ flat_map (hex_digits 2) found.now) }
{
    for byte in found {
        hex(out, 2, u32::from(*byte))?;
    }
    Ok(())
}

/// Adds why a block is damaged.
fn fault(out: &mut Vec<u8>, fault: BlockFault) -> Result<(), OutOfMemory>
    ensures { OnOk result (out.new.items ≡ out.old.items ++ fault_words fault) }
{
    match fault {
        BlockFault::Cut { need, got } => with_numbers(out, b" cut", &[need, got]),
        BlockFault::Signature { found } => {
            text(out, b" signature ")?;
            signature(out, &found)
        }
        BlockFault::Sum(found) => sums(out, found),
        BlockFault::Field { at, found } => with_numbers(out, b" field", &[at, found]),
        BlockFault::OutOfMemory => text(out, b" memory"),
    }
}

/// Adds why bytes are no superblock.
fn superblock(out: &mut Vec<u8>, error: SuperError) -> Result<(), OutOfMemory>
    ensures { OnOk result (out.new.items ≡ out.old.items ++ super_words error) }
{
    match error {
        SuperError::NotHdf5 => text(out, b" nothdf5"),
        SuperError::Short { got } => with_numbers(out, b" cut 48", &[got]),
        SuperError::Version(version) => with_numbers(out, b" version", &[u64::from(version)]),
        SuperError::Sizes { o, l } => {
            with_numbers(out, b" sizes", &[u64::from(o), u64::from(l)])
        }
        SuperError::Sum(found) => sums(out, found),
        SuperError::Base(base) => with_numbers(out, b" base", &[base]),
        SuperError::Extension(at) => with_numbers(out, b" extension", &[at]),
    }
}

/// Adds why bytes are no object header.
fn header(out: &mut Vec<u8>, error: HeaderError) -> Result<(), OutOfMemory>
    ensures { OnOk result (out.new.items ≡ out.old.items ++ header_words error) }
{
    match error {
        HeaderError::Short { need, got } => with_numbers(out, b" cut", &[need, got]),
        HeaderError::Signature => text(out, b" signature"),
        HeaderError::Version(version) => with_numbers(out, b" version", &[u64::from(version)]),
        HeaderError::Sum(found) => sums(out, found),
        HeaderError::Overrun { at } => with_numbers(out, b" overrun", &[at]),
        HeaderError::Unknown { kind } => with_numbers(out, b" unknown", &[u64::from(kind)]),
        HeaderError::Continuations => text(out, b" continuations"),
        HeaderError::OutOfMemory => text(out, b" memory"),
    }
}

/// Adds why a group has no such hard link.
fn link(out: &mut Vec<u8>, error: LinkError) -> Result<(), OutOfMemory>
    ensures { OnOk result (out.new.items ≡ out.old.items ++ link_words error) }
{
    match error {
        LinkError::Dense => text(out, b" dense"),
        LinkError::Malformed { at } => with_numbers(out, b" malformed", &[at]),
        LinkError::NoSuchName => text(out, b" none"),
        LinkError::NotHard { kind } => with_numbers(out, b" kind", &[u64::from(kind)]),
        LinkError::OutOfMemory => text(out, b" memory"),
    }
}

/// Adds that a dataset needs too many chunks.
fn too_many(out: &mut Vec<u8>, needed: u128, limit: u64) -> Result<(), OutOfMemory>
    ensures { OnOk result (out.new.items ≡ out.old.items ++ refusal_words (ReadError.TooManyChunks needed limit)) }
{
    text(out, b"error toomanychunks")?;
    large_number(out, needed)?;
    number(out, limit)
}

/// Adds that a header changed in each of so many attempts.
fn again(
    out: &mut Vec<u8>,
    attempts: u64,
    at: u64,
    first: u64,
    last: u64,
) -> Result<(), OutOfMemory>
    ensures { OnOk result (out.new.items ≡ out.old.items ++ refusal_words (ReadError.Again attempts at first last)) }
{
    with_numbers(out, b"error again", &[attempts, at, first, last])
}

/// Adds the text of a reader's refusal, without the byte 0a.
pub fn refusal(out: &mut Vec<u8>, error: ReadError) -> Result<(), OutOfMemory>
    ensures { OnOk result (out.new.items ≡ out.old.items ++ refusal_words error) }
{
    match error {
        ReadError::NotHdf5 => text(out, b"error nothdf5"),
        ReadError::Super(e) => {
            text(out, b"error super")?;
            superblock(out, e)
        }
        ReadError::NotSwmr { flags } => with_numbers(out, b"error flags", &[u64::from(flags)]),
        ReadError::Header { at, error: e } => {
            with_numbers(out, b"error header", &[at])?;
            header(out, e)
        }
        ReadError::Link(e) => {
            text(out, b"error link")?;
            link(out, e)
        }
        ReadError::Unsupported(n) => with_numbers(out, b"error unsupported", &[u64::from(n.0)]),
        ReadError::TooManyChunks { needed, limit } => too_many(out, needed, limit),
        ReadError::Damaged { at, fault: why } => {
            with_numbers(out, b"error damaged", &[at])?;
            fault(out, why)
        }
        ReadError::Again {
            attempts,
            at,
            first,
            last,
        } => again(
            out,
            u64::from(attempts),
            at,
            u64::from(first),
            u64::from(last),
        ),
        ReadError::Shrunk { seen, found } => with_numbers(out, b"error shrunk", &[seen, found]),
        ReadError::OutOfMemory => text(out, b"error memory"),
    }
}
