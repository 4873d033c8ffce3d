//! The command that makes a file in memory of a generator's values.
ghost use Rattle.std.specs.Prelude.{◌≡◌, false, None, Some, IfErr, IfOk};
ghost use Rattle.clap.specs.Words.{app_of, found_of, rows_of};
ghost use Rattle.h5w_words.specs.Arguments.{has_globals};
ghost use Rattle.h5w_words.specs.Limits.{IsWithinLimits};
ghost use Rattle.h5w_words.specs.Makes.{make_app, make_of};

use crate::arguments::Argument::Word;
use crate::arguments::with_arguments;
use crate::job::{Job, WordsError};
use crate::values::count;
use clap::{ArgMatches, Command};
use std::alloc::{AllocError, Global};

/// The most values.
const LIMIT: u64 = 1_000_000;

/// The command with its arguments.
pub fn make<'a>(alloc: Global) -> Result<Command<'a>, AllocError>
    ensures shape { IfOk result (λ c. app_of c ≡ make_app) }
    ensures local { IfOk result (λ c. has_globals c ≡ false) }
{
    let command = Command::new(alloc, "make");
    with_arguments(alloc, command, &[Word("N"), Word("SEED")])
}

/// What the arguments ask for; `Usage` where they are outside the command set.
pub fn make_job(options: &ArgMatches<'_>) -> Result<Job, WordsError>
    ensures ok { IfOk result (λ job. make_of (rows_of (found_of options.now)) ≡ Some job) }
    ensures usage { IfErr result (λ e. make_of (rows_of (found_of options.now)) ≡ None) }
    ensures limits { IfOk result IsWithinLimits }
{
    let Some(n) = count(options, "N", 0, LIMIT) else {
        return Err(WordsError::Usage);
    };
    let Some(seed) = count(options, "SEED", 0, u64::MAX) else {
        return Err(WordsError::Usage);
    };
    Ok(Job::Make { count: n, seed })
}
