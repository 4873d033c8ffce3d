//! The text of an error.
ghost use Rattle.std.specs.Prelude.{◌≡◌, ◌≤◌, length, take};
ghost use Rattle.h5w_text.specs.Errors.{error_text};
ghost use Rattle.h5w_handles.specs.Texts.{PutsRefusal, PutsText, laid};

use h5w_model::ReadError;
use h5w_text::{ErrorLine, write_error};
use std::alloc::Global;

/// The first bytes of a text, at most so many.
fn first(text: &[u8], most: usize) -> &[u8]
    ensures part { result.now ≡ take most text.now }
    ensures bound { length result.now ≤ most }
{
    &text[..text.len().min(most)]
}

/// Puts a text at the front of `out`, as much of it as there is room for.
pub fn put_text(text: &[u8], out: &mut [u8])
    ensures { out.new ≡ laid text.now out.old }
{
    let part = first(text, out.len());
    out[..part.len()].copy_from_slice(part);
}

/// Puts the line of an error at the front of `out`, as much of it as there is room for, and answers how many bytes it has: 0 if memory is wanting,
/// and then `out` stays.
pub fn put_line(alloc: Global, error: &ErrorLine, out: &mut [u8]) -> u64
    ensures { PutsText (error_text error.now) out.old (result, out.new) }
{
    let mut line = Vec::new(alloc);
    if write_error(&mut line, error).is_err() {
        return 0;
    }
    put_text(&line, out);
    line.len() as u64
}

/// The line of a refusal, likewise; 0 without one.
pub fn put_refusal(alloc: Global, refusal: Option<ReadError>, out: &mut [u8]) -> u64
    ensures { PutsRefusal refusal out.old (result, out.new) }
{
    match refusal {
        Some(error) => put_line(alloc, &ErrorLine::Read(error), out),
        None => 0,
    }
}
