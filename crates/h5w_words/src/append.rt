//! The command that appends to a file.
ghost use Rattle.std.specs.Prelude.{◌≡◌, ◌⊎◌, ◌^◌, ◌≤◌, false, None, Some, IfErr, IfOk, IfSome};
ghost use Rattle.clap.specs.Words.{app_of, found_of, rows_of};
ghost use Rattle.h5w_words.specs.Appends.{append_app, append_of, budget_for};
ghost use Rattle.h5w_words.specs.Arguments.{has_globals};
ghost use Rattle.h5w_words.specs.Limits.{IsWithinLimits};

use crate::arguments::Argument::{Flag, Optional, Word};
use crate::arguments::with_arguments;
use crate::files::{file_given, names_within};
use crate::job::{Job, WordsError};
use crate::values::{MOST_WAITING, budget_given, count_or, is_given, limit_given};
use clap::{ArgMatches, Command};
use h5w_names::Names;
use std::alloc::{AllocError, Global};

/// The command with its arguments.
pub fn append<'a>(alloc: Global) -> Result<Command<'a>, AllocError>
    ensures shape { IfOk result (λ c. app_of c ≡ append_app) }
    ensures local { IfOk result (λ c. has_globals c ≡ false) }
{
    let command = Command::new(alloc, "append");
    with_arguments(
        alloc,
        command,
        &[
            Word("FILE"),
            Optional("name"),
            Optional("limit"),
            Optional("budget"),
            Flag("no-reuse"),
            Flag("takeover"),
        ],
    )
}

/// How many bytes of a dataset may wait unwritten; where it is not said, of one of several datasets as many as may be. None where the number is not
/// within its limits.
fn budget_for(options: &ArgMatches<'_>, names: &Names) -> Option<u64>
    ensures budget { result ≡ budget_for (rows_of (found_of options.now)) names.now }
    ensures bounds { IfSome result (λ n. (1024 ≤ n) × (n ≤ 2 ^ 30)) }
{
    if names.len() > 1 {
        return count_or(options, "budget", MOST_WAITING, 1_024, MOST_WAITING);
    }
    budget_given(options)
}

/// What the arguments ask for; `Usage` where they are outside the command set.
pub fn append_job(alloc: Global, options: &ArgMatches<'_>) -> Result<Job, WordsError>
    ensures ok { IfOk result (λ job. append_of (rows_of (found_of options.now)) ≡ Some job) }
    ensures usage { IfErr result (λ e. (e ≡ WordsError.OutOfMemory) ⊎ (append_of (rows_of (found_of options.now)) ≡ None)) }
    ensures limits { IfOk result IsWithinLimits }
{
    let Some(limit) = limit_given(options) else {
        return Err(WordsError::Usage);
    };
    let file = file_given(alloc, options)?;
    let names = names_within(alloc, options, limit)?;
    let Some(budget) = budget_for(options, &names) else {
        return Err(WordsError::Usage);
    };
    Ok(Job::Append {
        file,
        names,
        limit,
        budget,
        keeps: is_given(options, "no-reuse"),
        takes: is_given(options, "takeover"),
    })
}
