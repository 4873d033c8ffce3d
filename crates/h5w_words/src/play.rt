//! The command that runs a script.
ghost use Rattle.std.specs.Prelude.{◌≡◌, ◌⊎◌, false, None, Some, IfErr, IfOk};
ghost use Rattle.clap.specs.Words.{app_of, found_of, rows_of};
ghost use Rattle.h5w_words.specs.Arguments.{has_globals};
ghost use Rattle.h5w_words.specs.Limits.{IsWithinLimits};
ghost use Rattle.h5w_words.specs.Play.{play_app, play_of};

use crate::arguments::Argument::Optional;
use crate::arguments::with_arguments;
use crate::creation::{creation, link_names_given, options_within};
use crate::job::{Job, WordsError};
use crate::values::attempts_given;
use clap::{ArgMatches, Command};
use std::alloc::{AllocError, Global};

/// The command with its arguments.
pub fn play<'a>(alloc: Global) -> Result<Command<'a>, AllocError>
    ensures shape { IfOk result (λ c. app_of c ≡ play_app) }
    ensures local { IfOk result (λ c. has_globals c ≡ false) }
{
    let command = Command::new(alloc, "play");
    let Ok(command) = creation(alloc, command) else {
        return Err(AllocError);
    };
    with_arguments(alloc, command, &[Optional("attempts")])
}

/// The script that the options ask for; `Usage` where they are outside the command set.
pub fn play_job(alloc: Global, options: &ArgMatches<'_>) -> Result<Job, WordsError>
    ensures ok { IfOk result (λ job. play_of (rows_of (found_of options.now)) ≡ Some job) }
    ensures usage { IfErr result (λ e. (e ≡ WordsError.OutOfMemory) ⊎ (play_of (rows_of (found_of options.now)) ≡ None)) }
    ensures limits { IfOk result IsWithinLimits }
{
    let Some(attempts) = attempts_given(options) else {
        return Err(WordsError::Usage);
    };
    let names = link_names_given(alloc, options)?;
    let options = options_within(alloc, options, &names)?;
    Ok(Job::Play {
        names,
        options,
        attempts,
    })
}
