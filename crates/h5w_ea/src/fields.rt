//! Numbers and bytes of a block, read and written at their places.

ghost use Rattle.std.specs.Prelude.{◌≡◌, ℕ, ◌+◌, ◌-◌, ◌*◌, ◌<◌, ◌≤◌, ◌^◌, ◌++◌, length, take, drop};
ghost use Rattle.std.specs.List.{All};
ghost use Rattle.h5w_model.specs.Arrays.{number_bytes, numbers_in};
ghost use Rattle.h5w_model.specs.Checked.{checked};
ghost use Rattle.h5w_model.specs.Checksum.{sealed_block};
ghost use Rattle.h5w_ea.specs.Fields.{byte_tests};

use h5w_bytes::{number, put};
use h5w_model::BlockFault;
use h5w_sum::seal;

/// How many bytes an address has, and each other number of a list.
const WIDTH: usize = 8;

/// Where the bytes that have one value begin: behind the signature.
const FIXED: usize = 4;

/// Whether the bytes behind the signature of a block at `at` are these; else the first that is another.
pub fn check_fixed(b: &[u8], at: u64, wanted: &[u8]) -> Result<(), BlockFault>
    requires inside { 4 + length wanted.now ≤ length b.now }
    requires below { at + length b.now ≤ 2 ^ 64 }
    ensures exact { result ≡ checked (byte_tests b.now at 4 wanted.now) tt }
{
    for (i, want) in wanted.iter().enumerate() {
        let found = b[FIXED + i];
        if found != *want {
            return Err(BlockFault::Field {
                at: at + (FIXED + i) as u64,
                found: u64::from(found),
            });
        }
    }
    Ok(())
}

/// Reads numbers of 8 bytes each that stand one after another from place `at` on.
pub fn read_numbers(b: &[u8], at: usize, numbers: &mut [u64])
    requires inside { at + 8 * length numbers.old ≤ length b.now }
    ensures { numbers.new ≡ numbers_in b.now (length numbers.old) at }
{
    for (i, read) in numbers.iter_mut().enumerate() {
        *read = number(b, at + WIDTH * i, WIDTH);
    }
}

/// Writes numbers in 8 bytes each, one after another from place `at` on.
pub fn put_numbers(out: &mut [u8], at: usize, numbers: &[u64])
    requires inside { at + 8 * length numbers.now ≤ length out.old }
    ensures written { out.new
        ≡ (take at out.old ++ number_bytes numbers.now) ++ drop (at + 8 * length numbers.now) out.old }
    ensures below { All (λ n. n < 2 ^ 64) numbers.now }
{
    for (i, written) in numbers.iter().enumerate() {
        put(out, at + WIDTH * i, WIDTH, *written);
    }
}

/// Writes the signature and the bytes behind it to the front of `out`.
pub fn put_head(out: &mut [u8], signature: &[u8; 4], fixed: &[u8])
    requires { 4 + length fixed.now ≤ length out.old }
    ensures { out.new ≡ (signature.now ++ fixed.now) ++ drop (4 + length fixed.now) out.old }
{
    out[..FIXED].copy_from_slice(signature);
    out[FIXED..FIXED + fixed.len()].copy_from_slice(fixed);
}

/// Seals the block of `len` bytes at the front of `out`.
pub fn seal_front(out: &mut [u8], len: usize)
    requires low { 4 ≤ len }
    requires inside { len ≤ length out.old }
    ensures { out.new ≡ sealed_block (take (len - 4) out.old) ++ drop len out.old }
{
    seal(&mut out[..len]);
}
