use crate::file::FileName;
use clap::error::ErrorKind;
use h5w_model::{Bytes, OutOfMemory};
use h5w_names::Names;
use h5w_options::Options;
use std::alloc::AllocError;
use thiserror::Error;

/// What the words of a command line ask for.
#[derive(Drop)]
pub enum Job {
    /// Runs a script of a writer and readers.
    Play {
        /// The datasets' names, 1 to 8 of 1 to 64 letters, digits and underscores each; none stands twice.
        names: Names,
        /// By what the file is created, under the first of the names. The limit is 1,024 bytes a name at least.
        options: Options,
        /// How many attempts a reader's call makes at most, 1 to 1,000.
        attempts: u32,
    },
    /// Makes a file with empty datasets of one form.
    New {
        /// The name of the file.
        file: FileName,
        /// The datasets' names, 1 to 8 of 1 to 64 letters, digits and underscores each; none stands twice.
        names: Names,
        /// By what the file is created, under the first of the names. The limit is 1,024 bytes a name at least.
        options: Options,
    },
    /// Checks a whole file.
    Check {
        /// The name of the file.
        file: FileName,
        /// The names of the root group's links to the datasets, 1 to 8 of 1 to 255 bytes each; none stands twice.
        names: Names,
    },
    /// Opens a dataset and refreshes it.
    Poll {
        /// The name of the file.
        file: FileName,
        /// The name of the root group's link to the dataset, of 1 to 255 bytes.
        name: Bytes,
        /// How many calls, the open among them, 1 to 1,000,000.
        times: u64,
        /// How many attempts a call makes at most, 1 to 1,000.
        attempts: u32,
        /// Whether each new row is printed.
        values: bool,
    },
    /// Clears the flags of writers in a file.
    Clear {
        /// The name of the file.
        file: FileName,
        /// Whether a superblock of version 2 becomes one of version 3.
        upgrade: bool,
    },
    /// Makes a file in memory of a generator's values.
    Make {
        /// How many values, at most 1,000,000.
        count: u64,
        /// What the generator begins with.
        seed: u64,
    },
    /// Appends the numbers of the input to datasets.
    Append {
        /// The name of the file.
        file: FileName,
        /// The names of the root group's links to the datasets, 1 to 8 of 1 to 255 bytes each; none stands twice.
        names: Names,
        /// How many bytes the file may have, 1,024 bytes a name to 2^40.
        limit: u64,
        /// How many bytes of chunks and headers may wait unwritten behind a line, 1,024 to 2^30.
        budget: u64,
        /// Whether places that the session lets go are kept, and none of them is used again.
        keeps: bool,
        /// Whether the file is taken over, which another session left open.
        takes: bool,
    },
    /// Runs a writer of the input's batches and readers that poll beside it, in threads.
    Live {
        /// By what the file is created. The name has letters, digits and underscores alone.
        options: Options,
        /// How many readers, 1 to 16.
        readers: u32,
        /// How many calls of each, 1 to 10,000.
        polls: u32,
        /// How many attempts a call makes at most, 1 to 1,000.
        attempts: u32,
        /// How many readers more, which look at a second image, 0 to 16.
        mirrors: u32,
    },
    /// Opens a reader at each piece of a writer's script.
    Stop {
        /// By what the file is created. The name has letters, digits and underscores alone.
        options: Options,
    },
    /// Writes datasets of a file anew into another one.
    Repack {
        /// The name of the file.
        file: FileName,
        /// The name of the new file.
        to: FileName,
        /// The names of the root group's links to the datasets, 1 to 8 of 1 to 255 bytes each; none stands twice.
        names: Names,
        /// How many bytes the new file may have, 1,024 bytes a name to 2^40.
        limit: u64,
        /// Whether the new file's ranges are printed.
        ranges: bool,
    },
}

/// Why words ask for nothing.
#[derive(Clone, Copy, Debug, Error)]
pub enum WordsError {
    /// They are outside the command set.
    #[error("words outside the command set")]
    Usage,
    /// Memory was refused.
    #[error("out of memory")]
    OutOfMemory,
}

impl From<AllocError> for WordsError {
    ghost use Rattle.std.specs.Prelude.{◌≡◌};
    ghost use Rattle.h5w_words.specs.declared.job.WordsError.TheVariants.{OutOfMemory as no_memory};

    ghost from_gives = { λ _ e. e ≡ no_memory };

    fn from(_e: AllocError) -> WordsError {
        WordsError::OutOfMemory
    }
}

impl From<OutOfMemory> for WordsError {
    ghost use Rattle.std.specs.Prelude.{◌≡◌};
    ghost use Rattle.h5w_words.specs.declared.job.WordsError.TheVariants.{OutOfMemory as no_memory};

    ghost from_gives = { λ _ e. e ≡ no_memory };

    fn from(_e: OutOfMemory) -> WordsError {
        WordsError::OutOfMemory
    }
}

impl From<clap::Error> for WordsError {
    ghost use Rattle.std.specs.Prelude.{◌≡◌, ◌≢◌};
    ghost use Rattle.clap.specs.Words.{kind_of};
    ghost use Rattle.clap.specs.declared.error.kind.ErrorKind.TheVariants.{OutOfMemory as no_memory_for_clap};
    ghost use Rattle.h5w_words.specs.declared.job.WordsError.TheVariants.{Usage as outside};

    ghost from_gives = { λ e r. (r ≡ outside → kind_of e ≢ no_memory_for_clap) × (kind_of e ≢ no_memory_for_clap → r ≡ outside) };

    fn from(e: clap::Error) -> WordsError {
        match e.kind() {
            ErrorKind::OutOfMemory => WordsError::OutOfMemory,
            _ => WordsError::Usage,
        }
    }
}
