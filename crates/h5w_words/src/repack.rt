//! The command that writes datasets of a file anew into another one.
ghost use Rattle.std.specs.Prelude.{◌≡◌, ◌⊎◌, false, None, Some, IfErr, IfOk};
ghost use Rattle.clap.specs.Words.{app_of, found_of, rows_of};
ghost use Rattle.h5w_words.specs.Arguments.{has_globals};
ghost use Rattle.h5w_words.specs.Limits.{IsWithinLimits};
ghost use Rattle.h5w_words.specs.Repacks.{repack_app, repack_of, to_of};

use crate::arguments::Argument::{Flag, Optional, Word};
use crate::arguments::with_arguments;
use crate::file::FileName;
use crate::files::{file_given, names_within};
use crate::job::{Job, WordsError};
use crate::values::{is_given, limit_given, text};
use clap::{ArgMatches, Command};
use std::alloc::{AllocError, Global};

/// The command with its arguments.
pub fn repack<'a>(alloc: Global) -> Result<Command<'a>, AllocError>
    ensures shape { IfOk result (λ c. app_of c ≡ repack_app) }
    ensures local { IfOk result (λ c. has_globals c ≡ false) }
{
    let command = Command::new(alloc, "repack");
    with_arguments(
        alloc,
        command,
        &[
            Word("FILE"),
            Word("TO"),
            Optional("name"),
            Optional("limit"),
            Flag("ranges"),
        ],
    )
}

/// The name of the new file, which is a word of the command.
fn to_given(alloc: Global, options: &ArgMatches<'_>) -> Result<FileName, WordsError>
    ensures ok { IfOk result (λ to. to_of (rows_of (found_of options.now)) ≡ Some to) }
    ensures usage { IfErr result (λ e. (e ≡ WordsError.OutOfMemory) ⊎ (to_of (rows_of (found_of options.now)) ≡ None)) }
{
    let Some(to) = text(options, "TO") else {
        return Err(WordsError::Usage);
    };
    Ok(FileName::of(alloc, to)?)
}

/// What the arguments ask for; `Usage` where they are outside the command set.
pub fn repack_job(alloc: Global, options: &ArgMatches<'_>) -> Result<Job, WordsError>
    ensures ok { IfOk result (λ job. repack_of (rows_of (found_of options.now)) ≡ Some job) }
    ensures usage { IfErr result (λ e. (e ≡ WordsError.OutOfMemory) ⊎ (repack_of (rows_of (found_of options.now)) ≡ None)) }
    ensures limits { IfOk result IsWithinLimits }
{
    let Some(limit) = limit_given(options) else {
        return Err(WordsError::Usage);
    };
    Ok(Job::Repack {
        file: file_given(alloc, options)?,
        to: to_given(alloc, options)?,
        names: names_within(alloc, options, limit)?,
        limit,
        ranges: is_given(options, "ranges"),
    })
}
