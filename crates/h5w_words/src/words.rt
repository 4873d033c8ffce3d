ghost use Rattle.std.specs.Prelude.{◌≡◌, ◌≢◌, ◌⊎◌, false, [], Some, None, map, string_bytes, IfOk, IfErr};
ghost use Rattle.clap.specs.Words.{app_of, fault_of, found_of, rows_of, subcommand_of, subcommand_rows_of};
ghost use Rattle.h5w_words.specs.Arguments.{Makes, has_globals};
ghost use Rattle.h5w_words.specs.Commands.{app_known, asked_of, job_of, named_of, program, with_known};
ghost use Rattle.h5w_words.specs.Limits.{IsWithinLimits};

use crate::append::{append, append_job};
use crate::files::{check, check_job, clear, clear_job, creating, creating_job, poll, poll_job};
use crate::job::{Job, WordsError};
use crate::live::{live, live_job};
use crate::make::{make, make_job};
use crate::play::{play, play_job};
use crate::repack::{repack, repack_job};
use crate::stop::{stop, stop_job};
use clap::{ArgMatches, Command};
use std::alloc::{AllocError, Global};

/// A command of the program.
#[derive(Clone, Copy)]
pub enum Known {
    /// `play`.
    Play,
    /// `new`.
    New,
    /// `check`.
    Check,
    /// `poll`.
    Poll,
    /// `clear`.
    Clear,
    /// `make`.
    Make,
    /// `append`.
    Append,
    /// `live`.
    Live,
    /// `stop`.
    Stop,
    /// `repack`.
    Repack,
}

/// The command, as `clap` has it.
fn command_of<'a>(alloc: Global, command: Known) -> Result<Command<'a>, AllocError>
    ensures shape { IfOk result (λ c. app_of c ≡ app_known command) }
    ensures local { IfOk result (λ c. has_globals c ≡ false) }
{
    match command {
        Known::Play => play(alloc),
        Known::New => creating(alloc),
        Known::Check => check(alloc),
        Known::Poll => poll(alloc),
        Known::Clear => clear(alloc),
        Known::Make => make(alloc),
        Known::Append => append(alloc),
        Known::Live => live(alloc),
        Known::Stop => stop(alloc),
        Known::Repack => repack(alloc),
    }
}

/// Lets a command go. It has many parts, and each place that lets it go is dear to prove.
fn release(_command: Command<'_>) {}

/// Adds the commands of a table, in order.
fn with_commands<'a>(
    alloc: Global,
    command: Command<'a>,
    table: &[Known],
) -> Result<Command<'a>, AllocError>
    requires { has_globals command ≡ false }
    ensures { Makes result (with_known (app_of command.entry) table.now) }
{
    let mut made = command;
    for each in table {
        let Ok(more) = command_of(alloc, *each) else {
            release(made);
            return Err(AllocError);
        };
        let Ok(longer) = made.subcommand(more) else {
            return Err(AllocError);
        };
        made = longer;
    }
    Ok(made)
}

/// The program with its commands.
fn program<'a>(alloc: Global) -> Result<Command<'a>, AllocError>
    ensures { Makes result program }
{
    let command = Command::new(alloc, "h5swmr");
    with_commands(
        alloc,
        command,
        &[
            Known::Play,
            Known::New,
            Known::Check,
            Known::Poll,
            Known::Clear,
            Known::Make,
            Known::Append,
            Known::Live,
            Known::Stop,
            Known::Repack,
        ],
    )
}

/// What the program's commands make of the words.
#[tactic(auto, using(crate::proofs::WordLemmas::free, crate::proofs::WordLemmas::some_fault))]
fn matches_for<'a>(alloc: Global, words: &'a [String]) -> Result<ArgMatches<'a>, WordsError>
    ensures ok { IfOk result (λ m. (fault_of program (map string_bytes words.now) ≡ []) × (subcommand_rows_of m ≡ subcommand_of program (map string_bytes words.now))) }
    ensures usage { IfErr result (λ e. (e ≡ WordsError.OutOfMemory) ⊎ (fault_of program (map string_bytes words.now) ≢ [])) }
{
    let command = program(alloc)?;
    let matches = command.try_get_matches_from(words)?;
    Ok(matches)
}

/// What the command of this name asks for, by its options.
fn named(alloc: Global, name: &str, options: &ArgMatches<'_>) -> Result<Job, WordsError>
    ensures ok { IfOk result (λ job. named_of name.now (rows_of (found_of options.now)) ≡ Some job) }
    ensures usage { IfErr result (λ e. (e ≡ WordsError.OutOfMemory) ⊎ (named_of name.now (rows_of (found_of options.now)) ≡ None)) }
    ensures limits { IfOk result IsWithinLimits }
{
    match name {
        "play" => play_job(alloc, options),
        "new" => creating_job(alloc, options),
        "check" => check_job(alloc, options),
        "poll" => poll_job(alloc, options),
        "clear" => clear_job(alloc, options),
        "make" => make_job(options),
        "append" => append_job(alloc, options),
        "live" => live_job(alloc, options),
        "stop" => stop_job(alloc, options),
        "repack" => repack_job(alloc, options),
        _ => Err(WordsError::Usage),
    }
}

/// What the command that was found asks for.
#[tactic(auto, using(crate::proofs::WordLemmas::entered))]
fn asked(alloc: Global, matches: &ArgMatches<'_>) -> Result<Job, WordsError>
    ensures ok { IfOk result (λ job. asked_of (subcommand_rows_of matches.now) ≡ Some job) }
    ensures usage { IfErr result (λ e. (e ≡ WordsError.OutOfMemory) ⊎ (asked_of (subcommand_rows_of matches.now) ≡ None)) }
    ensures limits { IfOk result IsWithinLimits }
{
    match matches.subcommand() {
        Some((name, options)) => named(alloc, name, options),
        None => Err(WordsError::Usage),
    }
}

/// What the words ask for, the first of which is the program's name; `Usage` where they are outside
/// the command set.
#[tactic(auto, using(crate::proofs::WordLemmas::known_job, crate::proofs::WordLemmas::no_job))]
pub fn read_words(alloc: Global, words: &[String]) -> Result<Job, WordsError>
    ensures ok { IfOk result (λ job. job_of (map string_bytes words.now) ≡ Some job) }
    ensures usage { IfErr result (λ e. (e ≡ WordsError.OutOfMemory) ⊎ (job_of (map string_bytes words.now) ≡ None)) }
    ensures limits { IfOk result IsWithinLimits }
{
    let matches = matches_for(alloc, words)?;
    asked(alloc, &matches)
}
