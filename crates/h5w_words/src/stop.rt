//! The command that opens a reader at each piece of a writer's script.
ghost use Rattle.std.specs.Prelude.{◌≡◌, ◌⊎◌, false, None, Some, IfErr, IfOk};
ghost use Rattle.clap.specs.Words.{app_of, found_of, rows_of};
ghost use Rattle.h5w_words.specs.Arguments.{has_globals};
ghost use Rattle.h5w_words.specs.Limits.{IsWithinLimits};
ghost use Rattle.h5w_words.specs.Stops.{stop_app, stop_of};

use crate::creation::{creation, options_given};
use crate::job::{Job, WordsError};
use clap::{ArgMatches, Command};
use std::alloc::{AllocError, Global};

/// The command with its arguments.
pub fn stop<'a>(alloc: Global) -> Result<Command<'a>, AllocError>
    ensures shape { IfOk result (λ c. app_of c ≡ stop_app) }
    ensures local { IfOk result (λ c. has_globals c ≡ false) }
{
    let command = Command::new(alloc, "stop");
    creation(alloc, command)
}

/// The script that the options ask for; `Usage` where they are outside the command set.
pub fn stop_job(alloc: Global, options: &ArgMatches<'_>) -> Result<Job, WordsError>
    ensures ok { IfOk result (λ job. stop_of (rows_of (found_of options.now)) ≡ Some job) }
    ensures usage { IfErr result (λ e. (e ≡ WordsError.OutOfMemory) ⊎ (stop_of (rows_of (found_of options.now)) ≡ None)) }
    ensures limits { IfOk result IsWithinLimits }
{
    let options = options_given(alloc, options)?;
    Ok(Job::Stop { options })
}
