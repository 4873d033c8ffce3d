//! The command that runs a writer and readers in threads.
ghost use Rattle.std.specs.Prelude.{◌≡◌, ◌⊎◌, false, None, Some, IfErr, IfOk};
ghost use Rattle.clap.specs.Words.{app_of, found_of, rows_of};
ghost use Rattle.h5w_words.specs.Arguments.{has_globals};
ghost use Rattle.h5w_words.specs.Limits.{IsWithinLimits};
ghost use Rattle.h5w_words.specs.Lives.{live_app, live_of};

use crate::arguments::Argument::{Needed, Optional};
use crate::arguments::with_arguments;
use crate::creation::{creation, options_given};
use crate::job::{Job, WordsError};
use crate::values::{attempts_given, count, count_or};
use clap::{ArgMatches, Command};
use std::alloc::{AllocError, Global};

/// The command with its arguments.
pub fn live<'a>(alloc: Global) -> Result<Command<'a>, AllocError>
    ensures shape { IfOk result (λ c. app_of c ≡ live_app) }
    ensures local { IfOk result (λ c. has_globals c ≡ false) }
{
    let command = Command::new(alloc, "live");
    let Ok(command) = creation(alloc, command) else {
        return Err(AllocError);
    };
    with_arguments(
        alloc,
        command,
        &[
            Needed("readers"),
            Needed("polls"),
            Optional("attempts"),
            Optional("mirrors"),
        ],
    )
}

/// The run that the options ask for; `Usage` where they are outside the command set.
pub fn live_job(alloc: Global, options: &ArgMatches<'_>) -> Result<Job, WordsError>
    ensures ok { IfOk result (λ job. live_of (rows_of (found_of options.now)) ≡ Some job) }
    ensures usage { IfErr result (λ e. (e ≡ WordsError.OutOfMemory) ⊎ (live_of (rows_of (found_of options.now)) ≡ None)) }
    ensures limits { IfOk result IsWithinLimits }
{
    let (Some(readers), Some(polls), Some(attempts), Some(mirrors)) = (
        count(options, "readers", 1, 16),
        count(options, "polls", 1, 10_000),
        attempts_given(options),
        count_or(options, "mirrors", 0, 0, 16),
    ) else {
        return Err(WordsError::Usage);
    };
    let options = options_given(alloc, options)?;
    Ok(Job::Live {
        options,
        readers: readers as u32,
        polls: polls as u32,
        attempts,
        mirrors: mirrors as u32,
    })
}
