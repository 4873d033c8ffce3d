//! The names of datasets, as C gives them: their bytes one behind another, and how many each has.
ghost use Rattle.std.specs.Prelude.{◌≡◌, ◌≤◌, ◌++◌, IfOk, drop, length, option_map, take};
ghost use Rattle.h5w_several_handles.specs.Names.{cut_names, names_in};

use h5w_model::OutOfMemory;
use h5w_names::Names;
use std::alloc::Global;

/// The most names of a call.
pub const MOST: usize = 8;

/// The first of these bytes, so many.
fn front(bytes: &[u8], len: u64) -> &[u8]
    requires { len ≤ length bytes.now }
    ensures { result.now ≡ take len bytes.now }
{
    &bytes[..len as usize]
}

/// Those behind them.
fn behind(bytes: &[u8], len: u64) -> &[u8]
    requires { len ≤ length bytes.now }
    ensures { result.now ≡ drop len bytes.now }
{
    &bytes[len as usize..]
}

/// These names, if no byte is left.
#[tactic(auto, using(crate::proofs::NameLemmas::cut_all, crate::proofs::NameLemmas::cut_over))]
fn all_names(names: Names, lens: &[u64], bytes: &[u8]) -> Option<Names>
    requires { length lens.now ≡ 0 }
    ensures { result ≡ option_map (λ more. names ++ more) (cut_names lens.now bytes.now) }
{
    let _ = lens;
    if bytes.is_empty() { Some(names) } else { None }
}

/// Puts the names of these bytes behind others; none if the bytes are fewer or more than the names have.
#[tactic(auto, using(crate::proofs::NameLemmas::cut_short))]
fn add_names(mut names: Names, lens: &[u64], bytes: &[u8]) -> Result<Option<Names>, OutOfMemory>
    ensures { IfOk result (λ all. all ≡ option_map (λ more. names ++ more) (cut_names lens.now bytes.now)) }
{
    match lens.split_first() {
        None => Ok(all_names(names, lens, bytes)),
        Some((len, rest)) => {
            let len = *len;
            if len > bytes.len() as u64 {
                return Ok(None);
            }
            names.push(front(bytes, len))?;
            add_names(names, rest, behind(bytes, len))
        }
    }
}

/// The names of these bytes; none if there are too many, or the bytes are fewer or more than they have.
pub fn names_of(alloc: Global, lens: &[u64], bytes: &[u8]) -> Result<Option<Names>, OutOfMemory>
    ensures { IfOk result (λ names. names ≡ names_in lens.now bytes.now) }
{
    if lens.len() > MOST {
        return Ok(None);
    }
    add_names(Names::new(alloc), lens, bytes)
}
