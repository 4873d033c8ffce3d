ghost use Rattle.std.specs.Prelude.{◌≡◌, ℕ, ◌+◌, ◌≤◌, ◌^◌, ◌++◌, length, drop, Ok};
ghost use Rattle.h5w_model.specs.Checked.{viewed};
ghost use Rattle.h5w_model.specs.Arrays.{eahd_at, eahd_bytes, eahd_len};

use crate::fields::{check_fixed, put_head, put_numbers, read_numbers, seal_front};
use h5w_bytes::{number, put};
use h5w_model::BlockFault;
use h5w_sum::check_block;

const SIGNATURE: [u8; 4] = *b"EAHD";

/// Version, client, element size, max bits, index elements, min data block elements, min pointers, page bits.
const FIXED: [u8; 8] = [0, 0, 8, 0x20, 4, 0x10, 4, 0x0a];

/// An array's header ("The Extensible Array Index").
#[derive(Clone, Copy, Debug, PartialEq, Eq)]
pub struct Eahd {
    /// Secondary blocks, their bytes, data blocks, their bytes, max index set, number of elements.
    pub numbers: [u64; 6],
    /// The address of the index block.
    pub block: u64,
}

impl Eahd {
    ghost use Rattle.h5w_ea.specs.Fields.{eahd_of};

    /// How many bytes it has.
    pub const LEN: usize = 72;

    /// The header at the front of `b`, bytes that stand at place `at` of the image, or the first refusal.
    pub fn decode(b: &[u8], at: u64) -> Result<Eahd, BlockFault>
        requires { at + length b.now ≤ 2 ^ 64 }
        ensures exact { viewed eahd_of result ≡ eahd_at b.now at }
    {
        check_block(b, &SIGNATURE, Eahd::LEN)?;
        check_fixed(b, at, &FIXED)?;
        let mut numbers = [0; 6];
        read_numbers(b, 12, &mut numbers);
        Ok(Eahd {
            numbers,
            block: number(b, 60, 8),
        })
    }

    /// Writes the header to the front of `out`, and answers its length.
    pub fn encode(&self, out: &mut [u8]) -> usize
        requires { 72 ≤ length out.old }
        ensures len { result ≡ eahd_len }
        ensures spelled { out.new ≡ eahd_bytes (eahd_of self.now) ++ drop eahd_len out.old }
        ensures reads_back { (place : ℕ) → eahd_at (eahd_bytes (eahd_of self.now)) place ≡ Ok (eahd_of self.now) }
    {
        put_head(out, &SIGNATURE, &FIXED);
        put_numbers(out, 12, &self.numbers);
        put(out, 60, 8, self.block);
        seal_front(out, Eahd::LEN);
        Eahd::LEN
    }
}
