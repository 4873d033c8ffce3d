ghost use Rattle.std.specs.Prelude.{◌≡◌};

use crate::memory::OutOfMemory;
use std::alloc::{AllocError, AllocFailed};

/// A sum that does not agree: the one in the block's last four bytes, and that of the rest.
#[derive(Clone, Copy, Debug, PartialEq, Eq)]
pub struct Sums {
    pub stored: u32,
    pub computed: u32,
}

/// Why bytes are no block of an index, tried in this order.
#[derive(Clone, Copy, Debug, PartialEq, Eq)]
pub enum BlockFault {
    /// `got` of `need` bytes.
    Cut { need: u64, got: u64 },
    /// Another signature.
    Signature { found: [u8; 4] },
    Sum(Sums),
    /// The first field that has no value of the form, by its place in the image.
    Field { at: u64, found: u64 },
    /// A growth was refused. No definition gives it, and no other error holds it.
    OutOfMemory,
}

impl From<OutOfMemory> for BlockFault {
    ghost use Rattle.h5w_model.specs.declared.refusal.BlockFault.TheVariants.{OutOfMemory};

    ghost from_gives = { λ _ e. e ≡ OutOfMemory };

    fn from(_e: OutOfMemory) -> BlockFault {
        BlockFault::OutOfMemory
    }
}

impl From<AllocError> for BlockFault {
    ghost use Rattle.h5w_model.specs.declared.refusal.BlockFault.TheVariants.{OutOfMemory};

    ghost from_gives = { λ _ e. e ≡ OutOfMemory };

    fn from(_e: AllocError) -> BlockFault {
        BlockFault::OutOfMemory
    }
}

impl<T: Drop> From<AllocFailed<T>> for BlockFault {
    ghost use Rattle.h5w_model.specs.declared.refusal.BlockFault.TheVariants.{OutOfMemory};

    ghost from_gives = { λ _ e. e ≡ OutOfMemory };

    fn from(_e: AllocFailed<T>) -> BlockFault {
        BlockFault::OutOfMemory
    }
}

/// Why bytes are no superblock, tried in this order.
#[derive(Clone, Copy, Debug, PartialEq, Eq)]
pub enum SuperError {
    /// Fewer than 8 bytes, or another signature.
    NotHdf5,
    /// `got` of the 48 bytes.
    Short { got: u64 },
    Version(u8),
    /// Sizes of offsets and of lengths, which are not both 8 bytes.
    Sizes { o: u8, l: u8 },
    Sum(Sums),
    /// A base address other than 0.
    Base(u64),
    /// The address of a superblock extension.
    Extension(u64),
}

/// Why bytes are no object header, tried in this order.
#[derive(Clone, Copy, Debug, PartialEq, Eq)]
pub enum HeaderError {
    /// `got` of `need` bytes.
    Short { need: u64, got: u64 },
    Signature,
    Version(u8),
    Sum(Sums),
    /// The message at this place passes the end.
    Overrun { at: u64 },
    /// A message of this kind, which is not known here and asks to be.
    Unknown { kind: u8 },
    /// More than 32 continuation blocks.
    Continuations,
    /// A growth was refused. No definition gives it, and no other error holds it.
    OutOfMemory,
}

impl From<OutOfMemory> for HeaderError {
    ghost use Rattle.h5w_model.specs.declared.refusal.HeaderError.TheVariants.{OutOfMemory};

    ghost from_gives = { λ _ e. e ≡ OutOfMemory };

    fn from(_e: OutOfMemory) -> HeaderError {
        HeaderError::OutOfMemory
    }
}

impl From<AllocError> for HeaderError {
    ghost use Rattle.h5w_model.specs.declared.refusal.HeaderError.TheVariants.{OutOfMemory};

    ghost from_gives = { λ _ e. e ≡ OutOfMemory };

    fn from(_e: AllocError) -> HeaderError {
        HeaderError::OutOfMemory
    }
}

impl<T: Drop> From<AllocFailed<T>> for HeaderError {
    ghost use Rattle.h5w_model.specs.declared.refusal.HeaderError.TheVariants.{OutOfMemory};

    ghost from_gives = { λ _ e. e ≡ OutOfMemory };

    fn from(_e: AllocFailed<T>) -> HeaderError {
        HeaderError::OutOfMemory
    }
}

/// Why a group has no such hard link, tried in this order.
#[derive(Clone, Copy, Debug, PartialEq, Eq)]
pub enum LinkError {
    /// No link info message, or links that stand in a heap.
    Dense,
    /// The link info or link message at this place is not spelled by the form.
    Malformed { at: u64 },
    NoSuchName,
    /// A link of this type, which is no hard link.
    NotHard { kind: u8 },
    /// A growth was refused. No definition gives it, and no other error holds it.
    OutOfMemory,
}

impl From<AllocError> for LinkError {
    ghost use Rattle.h5w_model.specs.declared.refusal.LinkError.TheVariants.{OutOfMemory};

    ghost from_gives = { λ _ e. e ≡ OutOfMemory };

    fn from(_e: AllocError) -> LinkError {
        LinkError::OutOfMemory
    }
}

impl<T: Drop> From<AllocFailed<T>> for LinkError {
    ghost use Rattle.h5w_model.specs.declared.refusal.LinkError.TheVariants.{OutOfMemory};

    ghost from_gives = { λ _ e. e ≡ OutOfMemory };

    fn from(_e: AllocFailed<T>) -> LinkError {
        LinkError::OutOfMemory
    }
}

/// A dataset that the format allows and this profile leaves out: the least number that applies
/// (docs/FORMAT.md, "Unsupported").
#[derive(Clone, Copy, Debug, PartialEq, Eq)]
pub struct Unsupported(pub u8);

/// Why a reader's call is refused.
#[derive(Clone, Copy, Debug, PartialEq, Eq)]
pub enum ReadError {
    NotHdf5,
    /// Any refusal of the superblock but NotHdf5, Short and Sum.
    Super(SuperError),
    /// One of the flag bits 0 and 2 without the other.
    NotSwmr {
        flags: u8,
    },
    /// Any refusal of the header or continuation block at `at` but Short and Sum.
    Header {
        at: u64,
        error: HeaderError,
    },
    Link(LinkError),
    Unsupported(Unsupported),
    /// More chunks than a reader takes.
    TooManyChunks {
        needed: u128,
        limit: u64,
    },
    /// The block at `at` is damaged.
    Damaged {
        at: u64,
        fault: BlockFault,
    },
    /// In each attempt the dataset header changed. `at` is the first place at which the last attempt's
    /// two headers differ, `first` and `last` are the bytes there.
    Again {
        attempts: u32,
        at: u64,
        first: u8,
        last: u8,
    },
    /// Fewer rows than were seen.
    Shrunk {
        seen: u64,
        found: u64,
    },
    OutOfMemory,
}
