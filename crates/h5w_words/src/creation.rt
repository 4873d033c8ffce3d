//! By what a file is created.
ghost use Rattle.std.specs.Prelude.{◌≡◌, ◌*◌, ◌≤◌, ◌⊎◌, true, [], None, Some, IfErr, IfOk, IfSome, IsSome, IsTrue, get_or, length};
ghost use Rattle.h5w_model.specs.Messages.{IsIntType};
ghost use Rattle.h5w_options.specs.Options.{AreColumns, AreOptions, columns_in, width_in};
ghost use Rattle.h5w_types.specs.Fields.{int_type_of};
ghost use Rattle.clap.specs.Words.{app_of, found_of, rows_of};
ghost use Rattle.h5w_words.specs.Arguments.{has_globals};
ghost use Rattle.h5w_words.specs.Creation.{columns_of, fixed_of, lacks_room, link_names_of, named_options, options_by, options_of, options_within, type_of, with_creation};
ghost use Rattle.h5w_words.specs.Names.{are_link_names, are_names};

use crate::arguments::Argument::{Flag, Needed, Optional};
use crate::arguments::with_arguments;
use crate::job::WordsError;
use crate::names::{are_names, link_names};
use crate::types::{fill_given, type_named};
use crate::values::{budget_given, count, is_given, limit_given, name_or, text};
use clap::{ArgMatches, Command};
use h5w_model::Bytes;
use h5w_names::Names;
use h5w_options::{IntType, Options};
use std::alloc::{AllocError, Global};

/// The most rows of a chunk, and columns of a row and of a chunk.
const SIDE: u64 = 65_536;

/// The most bytes of a chunk.
const CHUNK: u64 = 16_777_216;

/// The least limit of a file for each of its names.
const EACH: u64 = 1024;

/// The arguments that a file is created by.
pub fn creation<'a>(alloc: Global, command: Command<'a>) -> Result<Command<'a>, AllocError>
    ensures shape { IfOk result (λ c. app_of c ≡ with_creation (app_of command.entry)) }
    ensures globals { IfOk result (λ c. has_globals c ≡ has_globals command.entry) }
{
    with_arguments(
        alloc,
        command,
        &[
            Needed("type"),
            Needed("chunk"),
            Optional("columns"),
            Optional("width"),
            Flag("fixed"),
            Optional("fill"),
            Optional("name"),
            Optional("limit"),
            Optional("budget"),
        ],
    )
}

/// The type that the options give; None where it is none of the 14.
fn type_given(options: &ArgMatches<'_>) -> Option<IntType>
    ensures named { result ≡ type_of (rows_of (found_of options.now)) }
    ensures typed { IfSome result (λ t. IsIntType (int_type_of t)) }
{
    type_named(text(options, "type")?.as_bytes())
}

/// The columns of a row and of a chunk; None where they are not both given or not within their limits.
fn columns_given(options: &ArgMatches<'_>) -> Option<Option<(u64, u64)>>
    ensures columns { result ≡ columns_of (rows_of (found_of options.now)) }
    ensures limits { IfSome result (λ c. IfSome c AreColumns) }
{
    match (text(options, "columns"), text(options, "width")) {
        (None, None) => Some(None),
        (Some(_), Some(_)) => {
            let columns = count(options, "columns", 1, SIDE)?;
            let width = count(options, "width", 1, SIDE)?;
            Some(Some((columns, width)))
        }
        _ => None,
    }
}

/// Whether the columns are fixed; None where they are said to be, and are not given or are fewer than those of a chunk.
fn fixed_given(options: &ArgMatches<'_>, columns: Option<(u64, u64)>) -> Option<bool>
    ensures fixed { result ≡ fixed_of (rows_of (found_of options.now)) columns }
    ensures limits { IfSome result (λ fixed. IsTrue fixed → IsSome columns × (width_in columns ≤ columns_in columns)) }
{
    if !is_given(options, "fixed") {
        return Some(false);
    }
    match columns {
        Some((columns, width)) if width <= columns => Some(true),
        _ => None,
    }
}

/// The bytes of a chunk.
fn chunk_bytes(options: &Options) -> u64
    requires rows { options.now.chunk_rows ≤ 65536 }
    requires columns { IfSome options.now.columns AreColumns }
    requires typed { IsIntType (int_type_of options.now.int_type) }
    ensures { result ≡ options.now.chunk_rows * width_in options.now.columns * options.now.int_type.size }
{
    let width = match options.columns {
        Some((_, width)) => width,
        None => 1,
    };
    options.chunk_rows * width * u64::from(options.int_type.size)
}

/// What the options say of a file with a dataset of this name and type; `Usage` where a number is not within its limits.
fn numbers_given(
    options: &ArgMatches<'_>,
    name: Bytes,
    int_type: IntType,
) -> Result<Options, WordsError>
    requires some { 1 ≤ length name }
    requires most { length name ≤ 64 }
    requires typed { IsIntType (int_type_of int_type) }
    ensures ok { IfOk result (λ o. named_options (rows_of (found_of options.now)) name int_type ≡ Some o) }
    ensures usage { IfErr result (λ e. named_options (rows_of (found_of options.now)) name int_type ≡ None) }
    ensures limits { IfOk result AreOptions }
{
    let (Some(chunk_rows), Some(columns), Some(fill), Some(limit), Some(budget)) = (
        count(options, "chunk", 1, SIDE),
        columns_given(options),
        fill_given(text(options, "fill"), &int_type),
        limit_given(options),
        budget_given(options),
    ) else {
        return Err(WordsError::Usage);
    };
    let Some(fixed) = fixed_given(options, columns) else {
        return Err(WordsError::Usage);
    };
    let options = Options {
        name,
        int_type,
        chunk_rows,
        columns,
        fixed,
        fill,
        limit,
        budget,
    };
    if chunk_bytes(&options) > CHUNK {
        return Err(WordsError::Usage);
    }
    Ok(options)
}

/// What the options say of a file whose first dataset has this name; `Usage` where they are outside the command set.
pub fn options_named(
    alloc: Global,
    options: &ArgMatches<'_>,
    name: &[u8],
) -> Result<Options, WordsError>
    requires some { 1 ≤ length name.now }
    requires most { length name.now ≤ 64 }
    ensures ok { IfOk result (λ o. options_by (rows_of (found_of options.now)) name.now ≡ Some o) }
    ensures usage { IfErr result (λ e. (e ≡ WordsError.OutOfMemory) ⊎ (options_by (rows_of (found_of options.now)) name.now ≡ None)) }
    ensures limits { IfOk result AreOptions }
{
    let Some(int_type) = type_given(options) else {
        return Err(WordsError::Usage);
    };
    let name = Vec::from_slice(alloc, name)?;
    numbers_given(options, Bytes::from_vec(name), int_type)
}

/// What the options say of a file that is created; `Usage` where they are outside the command set.
pub fn options_given(alloc: Global, options: &ArgMatches<'_>) -> Result<Options, WordsError>
    ensures ok { IfOk result (λ o. options_of (rows_of (found_of options.now)) ≡ Some o) }
    ensures usage { IfErr result (λ e. (e ≡ WordsError.OutOfMemory) ⊎ (options_of (rows_of (found_of options.now)) ≡ None)) }
    ensures limits { IfOk result AreOptions }
{
    let Some(name) = name_or(options, "name", "data") else {
        return Err(WordsError::Usage);
    };
    options_named(alloc, options, name.as_bytes())
}

/// The names of the root group's links to the datasets; `Usage` where they are not 1 to 8 names of links, or one stands twice.
pub fn link_names_given(alloc: Global, options: &ArgMatches<'_>) -> Result<Names, WordsError>
    ensures ok { IfOk result (λ names. link_names_of (rows_of (found_of options.now)) ≡ Some names) }
    ensures usage { IfErr result (λ e. (e ≡ WordsError.OutOfMemory) ⊎ (link_names_of (rows_of (found_of options.now)) ≡ None)) }
    ensures bounds { IfOk result (λ names. (1 ≤ length names) × (length names ≤ 8)) }
    ensures sound { IfOk result (λ names. are_link_names names ≡ true) }
{
    match text(options, "name") {
        Some(text) => link_names(alloc, text),
        None => Ok(Names::of(alloc, b"data")?),
    }
}

/// Whether a file of so many bytes lacks room for its names.
pub fn lacks_room(limit: u64, names: &Names) -> bool
    requires { length names.now ≤ 8 }
    ensures { result ≡ lacks_room limit names.now }
{
    limit < EACH * names.len() as u64
}

/// The first of these names.
fn first_of(names: &Names) -> &[u8]
    requires { 1 ≤ length names.now }
    ensures { result.now ≡ get_or names.now 0 [] }
{
    match names.get(0) {
        Some(name) => name,
        None => unreachable!(),
    }
}

/// What the options say of a file with datasets of these names, under the first of them; `Usage` where one is no name of a dataset, the limit is
/// below 1,024 bytes a name, or they are outside the command set.
pub fn options_within(
    alloc: Global,
    options: &ArgMatches<'_>,
    names: &Names,
) -> Result<Options, WordsError>
    requires links { are_link_names names.now ≡ true }
    requires some { 1 ≤ length names.now }
    requires few { length names.now ≤ 8 }
    ensures ok { IfOk result (λ o. options_within (rows_of (found_of options.now)) names.now ≡ Some o) }
    ensures usage { IfErr result (λ e. (e ≡ WordsError.OutOfMemory) ⊎ (options_within (rows_of (found_of options.now)) names.now ≡ None)) }
    ensures limits { IfOk result AreOptions }
    ensures names { IfOk result (λ o. are_names names.now ≡ true) }
    ensures room { IfOk result (λ o. 1024 * length names.now ≤ o.limit) }
{
    if !are_names(names) {
        return Err(WordsError::Usage);
    }
    let given = options_named(alloc, options, first_of(names))?;
    if lacks_room(given.limit, names) {
        return Err(WordsError::Usage);
    }
    Ok(given)
}
