//! The superblock of version 2 or 3: the first 48 bytes of a file, read and written. Takes no memory.
//!
//! docs/FORMAT.md, "Superblock" (HDF5 File Format Specification 3.0, "Format Signature and Superblock").
#![tactic(auto)]

ghost use Rattle.std.specs.Prelude.{◌≡◌, ◌⊎◌, Ok};
ghost use Rattle.h5w_model.specs.Superblock.{super_at, super_bytes};

use h5w_bytes::{UNDEFINED, byte, number, put};
pub use h5w_model::{Super, SuperError};
use h5w_sum::{seal, sealed};

/// How many bytes a superblock has.
pub const LEN: usize = 48;

/// What each HDF5 file begins with.
const SIGNATURE: [u8; 8] = [0x89, b'H', b'D', b'F', b'\r', b'\n', 0x1a, b'\n'];

/// How many bytes an address has, and how many a length.
const SIZE: u8 = 8;

/// Where the fields stand.
mod place {
    pub const VERSION: usize = 8;

    pub const SIZE_OF_OFFSETS: usize = 9;

    pub const SIZE_OF_LENGTHS: usize = 10;

    pub const FLAGS: usize = 11;

    pub const BASE: usize = 12;

    pub const EXTENSION: usize = 20;

    pub const END: usize = 28;

    pub const ROOT: usize = 36;
}

/// The superblock at the front of `b`, or why there is none.
pub fn decode(b: &[u8]) -> Result<Super, SuperError>
    ensures exact { result ≡ super_at b.now }
{
    if !b.starts_with(&SIGNATURE) {
        return Err(SuperError::NotHdf5);
    }
    if b.len() < LEN {
        return Err(SuperError::Short {
            got: b.len() as u64,
        });
    }
    let version = byte(b, place::VERSION);
    if version != 2 && version != 3 {
        return Err(SuperError::Version(version));
    }
    let (o, l) = (
        byte(b, place::SIZE_OF_OFFSETS),
        byte(b, place::SIZE_OF_LENGTHS),
    );
    if o != SIZE || l != SIZE {
        return Err(SuperError::Sizes { o, l });
    }
    sealed(&b[..LEN]).map_err(SuperError::Sum)?;
    let base = number(b, place::BASE, 8);
    if base != 0 {
        return Err(SuperError::Base(base));
    }
    let extension = number(b, place::EXTENSION, 8);
    if extension != UNDEFINED {
        return Err(SuperError::Extension(extension));
    }
    Ok(Super {
        version,
        flags: byte(b, place::FLAGS),
        end: number(b, place::END, 8),
        root: number(b, place::ROOT, 8),
    })
}

/// The one spelling of these fields.
pub fn encode(s: &Super) -> [u8; LEN]
    requires { (s.now.version ≡ 2) ⊎ (s.now.version ≡ 3) }
    ensures spelled { result ≡ super_bytes s.now }
    ensures reads_back { super_at result ≡ Ok s.now }
{
    let Super {
        version,
        flags,
        end,
        root,
    } = *s;
    let mut block = [0; LEN];
    block[..8].copy_from_slice(&SIGNATURE);
    block[place::VERSION..place::BASE].copy_from_slice(&[version, SIZE, SIZE, flags]);
    put(&mut block, place::BASE, 8, 0);
    put(&mut block, place::EXTENSION, 8, UNDEFINED);
    put(&mut block, place::END, 8, end);
    put(&mut block, place::ROOT, 8, root);
    seal(&mut block);
    block
}
