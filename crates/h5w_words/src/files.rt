//! The commands on files.
ghost use Rattle.std.specs.Prelude.{◌≡◌, ◌*◌, ◌≤◌, ◌⊎◌, false, true, None, Some, IfErr, IfOk, length};
ghost use Rattle.clap.specs.Words.{app_of, found_of, rows_of};
ghost use Rattle.h5w_words.specs.Arguments.{has_globals};
ghost use Rattle.h5w_words.specs.Files.{check_app, check_of, clear_app, clear_of, creating_app, creating_of, file_of, link_name_of, names_within, poll_app, poll_numbers_of, poll_of};
ghost use Rattle.h5w_words.specs.Limits.{IsWithinLimits};
ghost use Rattle.h5w_words.specs.Names.{are_link_names};

use crate::arguments::Argument::{Flag, Optional, Word};
use crate::arguments::with_arguments;
use crate::creation::{creation, lacks_room, link_names_given, options_within};
use crate::file::FileName;
use crate::job::{Job, WordsError};
use crate::values::{attempts_given, count_or, is_given, link_name_or, text};
use clap::{ArgMatches, Command};
use h5w_model::Bytes;
use h5w_names::Names;
use std::alloc::{AllocError, Global};

/// The command that makes a file, with its arguments.
pub fn creating<'a>(alloc: Global) -> Result<Command<'a>, AllocError>
    ensures shape { IfOk result (λ c. app_of c ≡ creating_app) }
    ensures local { IfOk result (λ c. has_globals c ≡ false) }
{
    let command = Command::new(alloc, "new");
    let Ok(command) = with_arguments(alloc, command, &[Word("FILE")]) else {
        return Err(AllocError);
    };
    creation(alloc, command)
}

/// The command that checks a file, with its arguments.
pub fn check<'a>(alloc: Global) -> Result<Command<'a>, AllocError>
    ensures shape { IfOk result (λ c. app_of c ≡ check_app) }
    ensures local { IfOk result (λ c. has_globals c ≡ false) }
{
    let command = Command::new(alloc, "check");
    with_arguments(alloc, command, &[Word("FILE"), Optional("name")])
}

/// The command that polls a file, with its arguments.
pub fn poll<'a>(alloc: Global) -> Result<Command<'a>, AllocError>
    ensures shape { IfOk result (λ c. app_of c ≡ poll_app) }
    ensures local { IfOk result (λ c. has_globals c ≡ false) }
{
    let command = Command::new(alloc, "poll");
    with_arguments(
        alloc,
        command,
        &[
            Word("FILE"),
            Optional("name"),
            Optional("times"),
            Optional("attempts"),
            Flag("values"),
        ],
    )
}

/// The command that clears the flags of writers, with its arguments.
pub fn clear<'a>(alloc: Global) -> Result<Command<'a>, AllocError>
    ensures shape { IfOk result (λ c. app_of c ≡ clear_app) }
    ensures local { IfOk result (λ c. has_globals c ≡ false) }
{
    let command = Command::new(alloc, "clear");
    with_arguments(alloc, command, &[Word("FILE"), Flag("upgrade")])
}

/// The name of the file, which is a word of the command.
pub fn file_given(alloc: Global, options: &ArgMatches<'_>) -> Result<FileName, WordsError>
    ensures ok { IfOk result (λ file. file_of (rows_of (found_of options.now)) ≡ Some file) }
    ensures usage { IfErr result (λ e. (e ≡ WordsError.OutOfMemory) ⊎ (file_of (rows_of (found_of options.now)) ≡ None)) }
{
    let Some(file) = text(options, "FILE") else {
        return Err(WordsError::Usage);
    };
    Ok(FileName::of(alloc, file)?)
}

/// The name of the root group's link to the dataset; `Usage` where no link has the name that is given.
pub fn link_name_given(alloc: Global, options: &ArgMatches<'_>) -> Result<Bytes, WordsError>
    ensures ok { IfOk result (λ name. link_name_of (rows_of (found_of options.now)) ≡ Some name) }
    ensures usage { IfErr result (λ e. (e ≡ WordsError.OutOfMemory) ⊎ (link_name_of (rows_of (found_of options.now)) ≡ None)) }
    ensures bounds { IfOk result (λ name. (1 ≤ length name) × (length name ≤ 255)) }
{
    let Some(name) = link_name_or(options, "name", "data") else {
        return Err(WordsError::Usage);
    };
    Ok(Bytes::from_vec(Vec::from_slice(alloc, name.as_bytes())?))
}

/// The names of the root group's links to the datasets of a file of at most `limit` bytes; `Usage` where they are not
/// 1 to 8 names of links, or one stands twice, or the limit is below 1,024 bytes a name.
pub fn names_within(
    alloc: Global,
    options: &ArgMatches<'_>,
    limit: u64,
) -> Result<Names, WordsError>
    ensures ok { IfOk result (λ names. names_within (rows_of (found_of options.now)) limit ≡ Some names) }
    ensures usage { IfErr result (λ e. (e ≡ WordsError.OutOfMemory) ⊎ (names_within (rows_of (found_of options.now)) limit ≡ None)) }
    ensures sound { IfOk result (λ names. are_link_names names ≡ true) }
    ensures room { IfOk result (λ names. 1024 * length names ≤ limit) }
{
    let names = link_names_given(alloc, options)?;
    if lacks_room(limit, &names) {
        return Err(WordsError::Usage);
    }
    Ok(names)
}

/// The new file that the arguments ask for; `Usage` where they are outside the command set.
pub fn creating_job(alloc: Global, options: &ArgMatches<'_>) -> Result<Job, WordsError>
    ensures ok { IfOk result (λ job. creating_of (rows_of (found_of options.now)) ≡ Some job) }
    ensures usage { IfErr result (λ e. (e ≡ WordsError.OutOfMemory) ⊎ (creating_of (rows_of (found_of options.now)) ≡ None)) }
    ensures limits { IfOk result IsWithinLimits }
{
    let file = file_given(alloc, options)?;
    let names = link_names_given(alloc, options)?;
    let options = options_within(alloc, options, &names)?;
    Ok(Job::New {
        file,
        names,
        options,
    })
}

/// The check that the arguments ask for; `Usage` where they are outside the command set.
pub fn check_job(alloc: Global, options: &ArgMatches<'_>) -> Result<Job, WordsError>
    ensures ok { IfOk result (λ job. check_of (rows_of (found_of options.now)) ≡ Some job) }
    ensures usage { IfErr result (λ e. (e ≡ WordsError.OutOfMemory) ⊎ (check_of (rows_of (found_of options.now)) ≡ None)) }
    ensures limits { IfOk result IsWithinLimits }
{
    Ok(Job::Check {
        file: file_given(alloc, options)?,
        names: link_names_given(alloc, options)?,
    })
}

/// The poll of this file that the options ask for; `Usage` where a number is not within its limits.
fn poll_named(options: &ArgMatches<'_>, file: FileName, name: Bytes) -> Result<Job, WordsError>
    ensures ok { IfOk result (λ job. poll_numbers_of (rows_of (found_of options.now)) file name ≡ Some job) }
    ensures usage { IfErr result (λ e. poll_numbers_of (rows_of (found_of options.now)) file name ≡ None) }
    ensures limits { IfOk result IsWithinLimits }
{
    let (Some(times), Some(attempts)) = (
        count_or(options, "times", 1, 1, 1_000_000),
        attempts_given(options),
    ) else {
        return Err(WordsError::Usage);
    };
    Ok(Job::Poll {
        file,
        name,
        times,
        attempts,
        values: is_given(options, "values"),
    })
}

/// The poll that the arguments ask for; `Usage` where they are outside the command set.
pub fn poll_job(alloc: Global, options: &ArgMatches<'_>) -> Result<Job, WordsError>
    ensures ok { IfOk result (λ job. poll_of (rows_of (found_of options.now)) ≡ Some job) }
    ensures usage { IfErr result (λ e. (e ≡ WordsError.OutOfMemory) ⊎ (poll_of (rows_of (found_of options.now)) ≡ None)) }
    ensures limits { IfOk result IsWithinLimits }
{
    let file = file_given(alloc, options)?;
    let name = link_name_given(alloc, options)?;
    poll_named(options, file, name)
}

/// The clearing that the arguments ask for; `Usage` where they are outside the command set.
pub fn clear_job(alloc: Global, options: &ArgMatches<'_>) -> Result<Job, WordsError>
    ensures ok { IfOk result (λ job. clear_of (rows_of (found_of options.now)) ≡ Some job) }
    ensures usage { IfErr result (λ e. (e ≡ WordsError.OutOfMemory) ⊎ (clear_of (rows_of (found_of options.now)) ≡ None)) }
    ensures limits { IfOk result IsWithinLimits }
{
    Ok(Job::Clear {
        file: file_given(alloc, options)?,
        upgrade: is_given(options, "upgrade"),
    })
}
