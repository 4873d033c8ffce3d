//! The version and the flags of writers in a superblock.
ghost use Rattle.std.specs.Prelude.{◌≡◌, length};
ghost use Rattle.h5w_files.specs.Clears.{cleared, flags_put, rewritten};

use h5w_bytes::put;
use h5w_sum::seal;
use h5w_super::LEN;

/// The version of the superblocks of which the flags say nothing.
pub const OLDER: u8 = 2;

/// The version of the superblocks that are put.
pub const NEWER: u8 = 3;

/// Where a superblock has its version.
const VERSION: usize = 8;

/// Where a superblock has its flags.
const FLAGS: usize = 11;

/// What is cleared in a superblock.
#[derive(Clone, Copy)]
pub enum Clearing {
    /// The flags of writers, of these flags.
    Flags(u8),
    /// All flags, of a superblock of version 2, which gets version 3.
    Upgraded,
}

/// Flags without bit 0, open for writing, and bit 2, open for SWMR writing.
pub fn cleared(flags: u8) -> u8
    ensures { result ≡ cleared flags }
{
    flags - flags % 2 - flags / 4 % 2 * 4
}

/// The flags with which a superblock is put, where one is.
pub fn flags_put(found: Clearing) -> Option<u8>
    ensures { result ≡ flags_put found }
{
    let flags = match found {
        Clearing::Flags(flags) => flags,
        Clearing::Upgraded => return Some(0),
    };
    let without = cleared(flags);
    if without == flags {
        return None;
    }
    Some(without)
}

/// The superblock with version 3, other flags and the right sum, all else equal.
pub fn rewritten(superblock: &[u8], flags: u8) -> [u8; LEN]
    requires { length superblock.now ≡ 48 }
    ensures { result ≡ rewritten superblock.now 3 flags }
{
    let mut block = [0; LEN];
    block.copy_from_slice(superblock);
    put(&mut block, VERSION, 1, u64::from(NEWER));
    put(&mut block, FLAGS, 1, u64::from(flags));
    seal(&mut block);
    block
}
