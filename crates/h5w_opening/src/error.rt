use h5w_headers::FindError;
use h5w_image::ImageError;
use h5w_model::{OutOfMemory, ReadError};
use thiserror::Error;

/// Why a file is not opened for appending. Version, Flags and Cut are tried in this order right after the superblock; Same once all links were
/// found, before any dataset header; Layout, ChunkBytes, NoColumns and Finding in this order after all of Read.
#[derive(Clone, Copy, Debug, PartialEq, Eq, Error)]
pub enum OpenError {
    /// It is not read: never NotSwmr, Again, Shrunk or OutOfMemory, since two looks are never compared here, and no rows were seen before.
    #[error("refused")]
    Read(ReadError),
    /// Its superblock is of version 2, whose flags do not say whether somebody writes the file: it is read, and not written.
    #[error("superblock of version {version}")]
    Version { version: u8 },
    /// It is open for writing, or was not closed: flag bit 0 or 2 is set.
    #[error("flags {flags}")]
    Flags { flags: u8 },
    /// The end-of-file address is past the file's size.
    #[error("end {end} of {size} bytes")]
    Cut { end: u64, size: u64 },
    /// Two of the names that the file is opened by lead to one dataset header. They are counted from 1: of all such two the second is the least,
    /// and then the first.
    #[error("names {first} and {second} lead to one dataset header")]
    Same { first: u64, second: u64 },
    /// There is no index yet, and the layout message, which is to have its address, stands outside of the dataset header's chunk 0.
    #[error("layout message outside of chunk 0")]
    Layout,
    /// A chunk has more bytes than are written here.
    #[error("{bytes} bytes in a chunk, at most {limit}")]
    ChunkBytes { bytes: u64, limit: u64 },
    #[error("no columns")]
    NoColumns,
    /// A check of the file finds that the index, a tree whose header stands at `at`, is no map of its keys. Kind 15: a node does not say how
    /// many records are under it. Kind 16: each node does, and keys do not rise.
    #[error("finding {kind} at {at}")]
    Finding { kind: u8, at: u64 },
    /// The image's count of faults rose in this call.
    #[error("image failed")]
    Failed,
    #[error("out of memory")]
    OutOfMemory,
}

impl From<FindError> for OpenError {
    ghost use Rattle.std.specs.Prelude.{◌≡◌};
    ghost use Rattle.h5w_opening.specs.Errors.{open_error};

    ghost from_gives = { λ cause e. e ≡ open_error cause };

    fn from(e: FindError) -> OpenError {
        match e {
            FindError::Refused(refusal) => OpenError::Read(refusal),
            FindError::Failed => OpenError::Failed,
            FindError::OutOfMemory => OpenError::OutOfMemory,
        }
    }
}

impl From<ImageError> for OpenError {
    ghost use Rattle.std.specs.Prelude.{◌≡◌};
    ghost use Rattle.h5w_opening.specs.Errors.{outside};

    ghost from_gives = { λ cause e. e ≡ outside cause };

    fn from(e: ImageError) -> OpenError {
        match e {
            ImageError::Failed => OpenError::Failed,
            ImageError::OutOfMemory => OpenError::OutOfMemory,
        }
    }
}

impl From<OutOfMemory> for OpenError {
    ghost use Rattle.std.specs.Prelude.{◌≡◌};
    ghost use Rattle.h5w_opening.specs.declared.error.OpenError.TheVariants.{OutOfMemory as no_memory};

    ghost from_gives = { λ _ e. e ≡ no_memory };

    fn from(_e: OutOfMemory) -> OpenError {
        OpenError::OutOfMemory
    }
}
