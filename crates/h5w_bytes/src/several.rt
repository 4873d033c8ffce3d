ghost use Rattle.std.specs.Prelude.{◌≡◌, ◌+◌, ◌*◌, ◌<◌, ◌≤◌, ◌^◌, ◌++◌, length, take, drop, flat_map, All};
ghost use Rattle.h5w_model.specs.Numbers.{le};

use crate::put;

/// Writes the numbers one after another into `width` bytes each from place `at` on, and leaves every other byte.
pub fn put_each(b: &mut [u8], at: usize, width: usize, numbers: &[u64])
    requires low { 1 ≤ width }
    requires high { width ≤ 8 }
    requires inside { at + width * length numbers.now ≤ length b.old }
    requires fits { All (λ n. n < 256 ^ width) numbers.now }
    ensures written { b.new ≡ (take at b.old ++ flat_map (le width) numbers.now) ++ drop (at + width * length numbers.now) b.old }
{
    for (i, n) in numbers.iter().enumerate() {
        put(b, at + width * i, width, *n);
    }
}

/// Writes these bytes from place `at` on, and leaves every other byte.
pub fn put_bytes(b: &mut [u8], at: usize, bytes: &[u8])
    requires { at + length bytes.now ≤ length b.old }
    ensures written { b.new ≡ (take at b.old ++ bytes.now) ++ drop (at + length bytes.now) b.old }
{
    b[at..at + bytes.len()].copy_from_slice(bytes);
}
