//! The metadata checksum, and blocks that end in it. Only [`check_block_with`] takes memory, and goes on without it.
//!
//! HDF5 File Format Specification 3.0, the fields named Checksum: Bob Jenkins' lookup3 with initial
//! value 0. The definition stands in h5w_model, specs/Checksum.antt.
#![tactic(auto)]

mod block;
mod front;
mod words;

ghost use Rattle.std.specs.Prelude.{◌≡◌, ◌-◌, ◌≤◌, length, take, if◌then◌else◌, Ok, Err};
ghost use Rattle.h5w_model.specs.Checksum.{is_sealed, sealed_block, sum_of, sums_of};

pub use block::check_block;
pub use front::{Front, check_block_with};
use h5w_bytes::{put, word};
pub use h5w_model::{BlockFault, Sums};
use words::Words;

/// How many bytes a sum has, behind the bytes that it is of.
const LEN: usize = 4;

/// The checksum of some bytes.
pub fn lookup3(b: &[u8]) -> u32
    ensures { result ≡ sum_of b.now }
{
    let begun = Words::begun(b.len());
    if b.is_empty() {
        return begun.last();
    }
    begun.sum_behind(b)
}

/// Writes the sum of all but the last four bytes into the last four, and leaves the others.
pub fn seal(b: &mut [u8])
    requires { 4 ≤ length b.old }
    ensures { b.new ≡ sealed_block (take (length b.old - 4) b.old) }
{
    let body = b.len() - LEN;
    let sum = lookup3(&b[..body]);
    put(b, body, LEN, u64::from(sum));
}

/// Whether the last four bytes are the sum of the bytes before them; else both sums.
pub fn sealed(b: &[u8]) -> Result<(), Sums>
    requires { 4 ≤ length b.now }
    ensures exact { result ≡ (if is_sealed b.now then Ok tt else Err (sums_of b.now)) }
{
    let body = b.len() - LEN;
    let sums = Sums {
        stored: word(b, body),
        computed: lookup3(&b[..body]),
    };
    if sums.stored == sums.computed {
        Ok(())
    } else {
        Err(sums)
    }
}
