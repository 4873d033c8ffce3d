ghost use Rattle.std.specs.Prelude.{◌≡◌, ℕ, ◌+◌, ◌≤◌, ◌^◌, ◌++◌, length, drop, Ok};
ghost use Rattle.h5w_model.specs.Checked.{viewed};
ghost use Rattle.h5w_model.specs.Arrays.{eaib_at, eaib_bytes, eaib_len};

use crate::fields::{check_fixed, put_head, put_numbers, read_numbers, seal_front};
use h5w_bytes::{number, put};
use h5w_model::BlockFault;
use h5w_sum::check_block;

const SIGNATURE: [u8; 4] = *b"EAIB";

/// Version and client.
const FIXED: [u8; 2] = [0, 0];

/// An array's index block ("The Extensible Array Index").
#[derive(Clone, Copy, Debug, PartialEq, Eq)]
pub struct Eaib {
    /// The address of the array's header.
    pub header: u64,
    /// The chunk addresses of the first 4 slots.
    pub slots: [u64; 4],
    /// The addresses of the data blocks of super blocks 0 to 3.
    pub first: [u64; 6],
    /// The addresses of the secondary blocks of the super blocks from 4 on.
    pub second: [u64; 25],
}

impl Eaib {
    ghost use Rattle.h5w_ea.specs.Fields.{eaib_of};

    /// How many bytes it has.
    pub const LEN: usize = 298;

    /// Where the slots begin.
    pub const SLOTS: usize = 14;

    /// Where the addresses of the data blocks of super blocks 0 to 3 begin.
    pub const FIRST: usize = 46;

    /// Where the addresses of secondary blocks begin.
    pub const SECOND: usize = 94;

    /// The index block at the front of `b`, bytes that stand at place `at` of the image, or the first refusal.
    pub fn decode(b: &[u8], at: u64) -> Result<Eaib, BlockFault>
        requires { at + length b.now ≤ 2 ^ 64 }
        ensures exact { viewed eaib_of result ≡ eaib_at b.now at }
    {
        check_block(b, &SIGNATURE, Eaib::LEN)?;
        check_fixed(b, at, &FIXED)?;
        let (mut slots, mut first, mut second) = ([0; 4], [0; 6], [0; 25]);
        read_numbers(b, Eaib::SLOTS, &mut slots);
        read_numbers(b, Eaib::FIRST, &mut first);
        read_numbers(b, Eaib::SECOND, &mut second);
        Ok(Eaib {
            header: number(b, 6, 8),
            slots,
            first,
            second,
        })
    }

    /// Writes the index block to the front of `out`, and answers its length.
    pub fn encode(&self, out: &mut [u8]) -> usize
        requires { 298 ≤ length out.old }
        ensures len { result ≡ eaib_len }
        ensures spelled { out.new ≡ eaib_bytes (eaib_of self.now) ++ drop eaib_len out.old }
        ensures reads_back { (place : ℕ) → eaib_at (eaib_bytes (eaib_of self.now)) place ≡ Ok (eaib_of self.now) }
    {
        put_head(out, &SIGNATURE, &FIXED);
        put(out, 6, 8, self.header);
        put_numbers(out, Eaib::SLOTS, &self.slots);
        put_numbers(out, Eaib::FIRST, &self.first);
        put_numbers(out, Eaib::SECOND, &self.second);
        seal_front(out, Eaib::LEN);
        Eaib::LEN
    }
}
