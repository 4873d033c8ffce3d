//! The values of a command's options.
ghost use Rattle.std.specs.Prelude.{◌≡◌, ◌^◌, ◌≤◌, IfSome, IsTrue, length, option_map};
ghost use Rattle.clap.specs.Words.{first_of, found_of, rows_of};
ghost use Rattle.h5w_options.specs.Options.{AreAttempts};
ghost use Rattle.h5w_words.specs.Arguments.{count_given, count_or, is_given, link_name_or, name_or};
ghost use Rattle.h5w_words.specs.Creation.{budget_of, limit_of};
ghost use Rattle.h5w_words.specs.Names.{is_link_name, is_name};
ghost use Rattle.h5w_words.specs.Play.{attempts_of};

use crate::name::{is_link_name, is_name};
use crate::number::count_in;
use clap::ArgMatches;

/// The most bytes that a file may have.
const LIMIT: u64 = 1 << 40;

/// The most bytes that may wait unwritten, and how many may where it is not said.
pub const MOST_WAITING: u64 = 1 << 30;

const BUDGET: u64 = 65_536;

/// The text of an option, where it was given.
#[tactic(auto, using(crate::proofs::WordLemmas::first_text))]
pub fn text<'a>(options: &ArgMatches<'a>, name: &str) -> Option<&'a str>
    ensures { option_map (λ s. s.now) result ≡ first_of name.now (rows_of (found_of options.now)) }
{
    options.get_str(name)
}

/// The number that an option gives, from `least` to `most`.
pub fn count(options: &ArgMatches<'_>, name: &str, least: u64, most: u64) -> Option<u64>
    ensures number { result ≡ count_given least most (first_of name.now (rows_of (found_of options.now))) }
    ensures bounds { IfSome result (λ n. (least ≤ n) × (n ≤ most)) }
{
    count_in(text(options, name)?.as_bytes(), least, most)
}

/// The number that an option gives, from `least` to `most`, or `default` where it was not given.
pub fn count_or(
    options: &ArgMatches<'_>,
    name: &str,
    default: u64,
    least: u64,
    most: u64,
) -> Option<u64>
    requires { (least ≤ default) × (default ≤ most) }
    ensures number { result ≡ count_or default least most (first_of name.now (rows_of (found_of options.now))) }
    ensures bounds { IfSome result (λ n. (least ≤ n) × (n ≤ most)) }
{
    match text(options, name) {
        Some(text) => count_in(text.as_bytes(), least, most),
        None => Some(default),
    }
}

/// How many attempts a reader's call makes at most; None where the number is not within its limits.
pub fn attempts_given(options: &ArgMatches<'_>) -> Option<u32>
    ensures attempts { result ≡ attempts_of (rows_of (found_of options.now)) }
    ensures bounds { IfSome result AreAttempts }
{
    let attempts = count_or(options, "attempts", 8, 1, 1_000)?;
    Some(attempts as u32)
}

/// How many bytes the file may have; None where the number is not within its limits.
pub fn limit_given(options: &ArgMatches<'_>) -> Option<u64>
    ensures limit { result ≡ limit_of (rows_of (found_of options.now)) }
    ensures bounds { IfSome result (λ n. (1024 ≤ n) × (n ≤ 2 ^ 40)) }
{
    count_or(options, "limit", LIMIT, 1_024, LIMIT)
}

/// How many bytes may wait unwritten after an append; None where the number is not within its limits.
pub fn budget_given(options: &ArgMatches<'_>) -> Option<u64>
    ensures budget { result ≡ budget_of (rows_of (found_of options.now)) }
    ensures bounds { IfSome result (λ n. (1024 ≤ n) × (n ≤ 2 ^ 30)) }
{
    count_or(options, "budget", BUDGET, 1_024, MOST_WAITING)
}

/// The name that an option gives, or `default` where it was not given.
pub fn name_or<'a>(options: &ArgMatches<'a>, name: &str, default: &'a str) -> Option<&'a str>
    requires { IsTrue (is_name default.now) }
    ensures name { option_map (λ s. s.now) result ≡ name_or default.now (first_of name.now (rows_of (found_of options.now))) }
    ensures bounds { IfSome result (λ s. (1 ≤ length s.now) × (length s.now ≤ 64)) }
{
    match text(options, name) {
        Some(text) if is_name(text.as_bytes()) => Some(text),
        Some(_) => None,
        None => Some(default),
    }
}

/// The name of a link that an option gives, or `default` where it was not given.
pub fn link_name_or<'a>(options: &ArgMatches<'a>, name: &str, default: &'a str) -> Option<&'a str>
    requires { IsTrue (is_link_name default.now) }
    ensures name { option_map (λ s. s.now) result ≡ link_name_or default.now (first_of name.now (rows_of (found_of options.now))) }
    ensures bounds { IfSome result (λ s. (1 ≤ length s.now) × (length s.now ≤ 255)) }
{
    match text(options, name) {
        Some(text) if is_link_name(text.as_bytes()) => Some(text),
        Some(_) => None,
        None => Some(default),
    }
}

/// Whether an option without a value was given.
pub fn is_given(options: &ArgMatches<'_>, name: &str) -> bool
    ensures { result ≡ is_given (first_of name.now (rows_of (found_of options.now))) }
{
    match text(options, name) {
        Some(text) => text == "true",
        None => false,
    }
}
