//! The kinds of argument that a command may have.
ghost use Rattle.std.specs.Prelude.{◌≡◌, false, map, IfOk};
ghost use Rattle.clap.specs.Words.{app_of, rule_of};
ghost use Rattle.h5w_words.specs.Arguments.{IsLocal, has_globals, rule_named, with_rules};

use clap::{Arg, ArgAction, Command};
use std::alloc::{AllocError, Global};

/// An argument of a command, by its name.
#[derive(Clone, Copy)]
pub enum Argument<'a> {
    /// A word that has to be there.
    Word(&'a str),
    /// An option `--name VALUE` that has to be there.
    Needed(&'a str),
    /// An option `--name VALUE` that may be left out.
    Optional(&'a str),
    /// An option `--name` without a value.
    Flag(&'a str),
}

/// The argument, as `clap` has it.
fn arg<'a>(alloc: Global, argument: Argument<'a>) -> Arg<'a>
    ensures rule { rule_of result ≡ rule_named argument.entry }
    ensures local { IsLocal result }
{
    match argument {
        Argument::Word(name) => Arg::new(alloc, name).required(true),
        Argument::Needed(name) => Arg::new(alloc, name).long(name).required(true),
        Argument::Optional(name) => Arg::new(alloc, name).long(name),
        Argument::Flag(name) => Arg::new(alloc, name).long(name).action(ArgAction::SetTrue),
    }
}

/// Adds the arguments of a table, in order.
pub fn with_arguments<'a>(
    alloc: Global,
    command: Command<'a>,
    table: &[Argument<'a>],
) -> Result<Command<'a>, AllocError>
    ensures shape { IfOk result (λ c. app_of c ≡ with_rules (app_of command.entry) (map rule_named table.now)) }
    ensures globals { IfOk result (λ c. has_globals c ≡ has_globals command.entry) }
{
    let mut made = command;
    for argument in table {
        let Ok(longer) = made.arg(arg(alloc, *argument)) else {
            return Err(AllocError);
        };
        made = longer;
    }
    Ok(made)
}
