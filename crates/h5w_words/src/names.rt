//! Names of several links in one word, separated by commas.
ghost use Rattle.std.specs.Prelude.{◌≡◌, ◌≤◌, ◌⊎◌, true, Some, None, IfErr, IfOk, length, map};
ghost use Rattle.std.specs.List.{list_all};
ghost use Rattle.h5w_words.specs.Arguments.{link_names_in};
ghost use Rattle.h5w_words.specs.Names.{are_link_names, is_name, may_follow, parts_of};

use crate::job::WordsError;
use crate::name::{is_link_name, is_name};
use h5w_names::Names;
use std::alloc::{AllocError, Global};

/// The most names of one command.
const MOST: usize = 8;

/// The parts of a text between commas.
fn parts<'a>(alloc: Global, text: &'a str) -> Result<Vec<&'a str>, AllocError>
    ensures { IfOk result (λ parts. map (λ part. part.now) parts.items ≡ parts_of text.now) }
{
    text.split(',').collect(alloc)
}

/// Whether a name may follow these: there is room for it, a link may have it, and it is none of them.
fn may_follow(names: &Names, name: &[u8]) -> bool
    ensures { result ≡ may_follow names.now name.now }
{
    names.len() < MOST && is_link_name(name) && !names.has(name)
}

/// The names of links that a text has between its commas; `Usage` where they are not 1 to 8 names of links, or one stands twice.
pub fn link_names(alloc: Global, text: &str) -> Result<Names, WordsError>
    ensures ok { IfOk result (λ names. link_names_in text.now ≡ Some names) }
    ensures usage { IfErr result (λ e. (e ≡ WordsError.OutOfMemory) ⊎ (link_names_in text.now ≡ None)) }
    ensures bounds { IfOk result (λ names. (1 ≤ length names) × (length names ≤ 8)) }
    ensures sound { IfOk result (λ names. are_link_names names ≡ true) }
{
    let parts = parts(alloc, text)?;
    let mut names = Names::new(alloc);
    for part in &parts {
        if !may_follow(&names, part.as_bytes()) {
            return Err(WordsError::Usage);
        }
        names.push(part.as_bytes())?;
    }
    Ok(names)
}

/// Whether each of these may be the name of a dataset.
pub fn are_names(names: &Names) -> bool
    ensures { result ≡ list_all is_name names.now }
{
    names.as_slice().iter().all(|name| is_name(name.as_slice()))
}
