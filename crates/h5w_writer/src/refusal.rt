use h5w_cache::PlanError;
use h5w_image::ImageError;
use h5w_index::InsertError;
use h5w_model::OutOfMemory;
use h5w_space::Full;
use thiserror::Error;

/// Why rows were not appended, tried in this order. The session is as before.
#[derive(Clone, Copy, Debug, PartialEq, Eq, Error)]
pub enum AppendError {
    /// The session was stopped or closed.
    #[error("the session was stopped")]
    Stopped,
    /// So many pieces are pending.
    #[error("{pending} pieces are pending")]
    Busy { pending: u64 },
    /// The first value outside the type, by its index in the append.
    #[error("value {index} is {value}")]
    OutOfRange { index: u64, value: i128 },
    /// More chunks than the dataset's index has.
    #[error("{chunks} chunks, at most {limit}")]
    Chunks { chunks: u64, limit: u64 },
    /// The image's count of faults rose in this call.
    #[error("image failed")]
    Failed,
    /// It may come in place of Failed, and of no other refusal.
    #[error("out of memory")]
    OutOfMemory,
}

/// Why a flush was not planned, tried in this order. Name, rows and pieces of the session are as before.
#[derive(Clone, Copy, Debug, PartialEq, Eq, Error)]
pub enum FlushError {
    /// The session was stopped or closed.
    #[error("the session was stopped")]
    Stopped,
    /// So many pieces are pending.
    #[error("{pending} pieces are pending")]
    Busy { pending: u64 },
    /// The first new chunk that has no place in the file, or else the first block of the index. A chunk before it by its key that is too
    /// much for the index makes it Deep.
    #[error("{0}")]
    Space(Full),
    /// A tree of depth 3 has no room on the way to the first new chunk that has no record. A chunk before it by its key that has no place in
    /// the file makes it Space. It is so only in a file that was made by somebody else.
    #[error("the tree is full")]
    Deep,
    /// The image's count of faults rose in this call.
    #[error("image failed")]
    Failed,
    /// It may come in place of Space, Deep and Failed, and of no other refusal.
    #[error("out of memory")]
    OutOfMemory,
}

/// Why a session was not closed, tried in this order. It is as before.
#[derive(Clone, Copy, Debug, PartialEq, Eq, Error)]
pub enum CloseError {
    /// The session was stopped or closed.
    #[error("the session was stopped")]
    Stopped,
    /// So many pieces are pending.
    #[error("{pending} pieces are pending")]
    Busy { pending: u64 },
}

impl From<ImageError> for AppendError {
    ghost use Rattle.h5w_writer.specs.Refusals.{append_fault};
    ghost use Rattle.std.specs.Prelude.{◌≡◌};

    ghost from_gives = { λ e r. r ≡ append_fault e };

    fn from(e: ImageError) -> AppendError {
        match e {
            ImageError::Failed => AppendError::Failed,
            ImageError::OutOfMemory => AppendError::OutOfMemory,
        }
    }
}

impl From<OutOfMemory> for AppendError {
    ghost use Rattle.h5w_writer.specs.declared.refusal.AppendError.TheVariants.{OutOfMemory as no_memory};
    ghost use Rattle.std.specs.Prelude.{◌≡◌};

    ghost from_gives = { λ _ r. r ≡ no_memory };

    fn from(_e: OutOfMemory) -> AppendError {
        AppendError::OutOfMemory
    }
}

impl From<ImageError> for FlushError {
    ghost use Rattle.h5w_writer.specs.Refusals.{flush_fault};
    ghost use Rattle.std.specs.Prelude.{◌≡◌};

    ghost from_gives = { λ e r. r ≡ flush_fault e };

    fn from(e: ImageError) -> FlushError {
        match e {
            ImageError::Failed => FlushError::Failed,
            ImageError::OutOfMemory => FlushError::OutOfMemory,
        }
    }
}

impl From<InsertError> for FlushError {
    ghost use Rattle.h5w_writer.specs.Refusals.{insert_fault};
    ghost use Rattle.std.specs.Prelude.{◌≡◌};

    ghost from_gives = { λ e r. r ≡ insert_fault e };

    fn from(e: InsertError) -> FlushError {
        match e {
            InsertError::Deep => FlushError::Deep,
            InsertError::OutOfMemory => FlushError::OutOfMemory,
        }
    }
}

impl From<PlanError> for FlushError {
    ghost use Rattle.h5w_writer.specs.Refusals.{plan_fault};
    ghost use Rattle.std.specs.Prelude.{◌≡◌};

    ghost from_gives = { λ e r. r ≡ plan_fault e };

    fn from(e: PlanError) -> FlushError {
        match e {
            PlanError::Full(full) => FlushError::Space(full),
            PlanError::OutOfMemory => FlushError::OutOfMemory,
        }
    }
}

impl From<Full> for FlushError {
    ghost use Rattle.h5w_writer.specs.declared.refusal.FlushError.TheVariants.{Space as no_space};
    ghost use Rattle.std.specs.Prelude.{◌≡◌};

    ghost from_gives = { λ full r. r ≡ no_space full };

    fn from(full: Full) -> FlushError {
        FlushError::Space(full)
    }
}

impl From<OutOfMemory> for FlushError {
    ghost use Rattle.h5w_writer.specs.declared.refusal.FlushError.TheVariants.{OutOfMemory as no_memory};
    ghost use Rattle.std.specs.Prelude.{◌≡◌};

    ghost from_gives = { λ _ r. r ≡ no_memory };

    fn from(_e: OutOfMemory) -> FlushError {
        FlushError::OutOfMemory
    }
}
