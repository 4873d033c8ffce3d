//! The dataset header, of which two looks are compared.
ghost use Rattle.std.specs.Prelude.{◌≡◌, ◌+◌, ◌≤◌, ◌^◌, ℕ, Option, false, IfOk, take, drop, length, nat_eq, slice_index};
ghost use Rattle.std.specs.Cmp.Lexicographic.{pointwise};
ghost use Rattle.h5w_model.specs.Headers.{header_view};
ghost use Rattle.h5w_model.specs.Programs.{below_end};
ghost use Rattle.h5w_model.specs.Calls.{again, cut_header, difference_from};
ghost use Rattle.h5w_model.specs.Tables.{Reading};
ghost use Rattle.h5w_lookup.specs.Attempts.{rules_of};
ghost use Rattle.h5w_reader.specs.Headers.{IsView, IsWhole};

use crate::view::header_view;
use h5w_lookup::Rules;
use h5w_model::{BlockFault, Bytes, HeaderError, OutOfMemory, PIECE, Piece, ReadError};
use h5w_ohdr::prefix;
use std::alloc::Global;

/// What counts of a look at the header at `place`.
pub fn view_at(alloc: Global, place: u64, look: &Piece) -> Result<Bytes, OutOfMemory>
    requires { length look.now ≤ below_end place 512 }
    ensures exact { IfOk result (λ v. v ≡ header_view look.now) }
    ensures seen { IfOk result (λ v. IsView place v) }
{
    header_view(alloc, look)
}

/// What counts of a look at the header at `place` is less than its chunk 0.
pub fn cut_header(place: u64, view: &Bytes) -> Option<ReadError>
    ensures { result ≡ cut_header place view.now }
{
    let b = view.as_slice();
    let got = b.len() as u64;
    let (need, got) = match prefix(b) {
        Ok(p) if p.total > PIECE as u64 || p.total <= got => return None,
        Ok(p) => (p.total, got),
        Err(error) => match error {
            HeaderError::Short { need, got } => (need, got),
            _ => return None,
        },
    };
    Some(ReadError::Damaged {
        at: place,
        fault: BlockFault::Cut { need, got },
    })
}

/// Whether two looks show the same header.
pub fn is_same(a: &Bytes, b: &Bytes) -> bool
    ensures { result ≡ pointwise nat_eq a.now b.now }
{
    a.as_slice() == b.as_slice()
}

/// How many bytes are the same from the front.
fn same_front(a: &[u8], b: &[u8]) -> usize
    ensures first { result ≤ length a.now }
    ensures last { result ≤ length b.now }
    ensures front { take result a.now ≡ take result b.now }
    ensures difference { (p : ℕ) → difference_from p a.now b.now ≡ record { place = p + result; first = slice_index a.now result; last = slice_index b.now result } }
{
    let mut n = 0;
    while n < a.len() && n < b.len() && a[n] == b[n] {
        n += 1;
    }
    n
}

/// The byte at a place, 0 behind the last.
fn byte_or_0(b: &[u8], at: usize) -> u8
    ensures { result ≡ slice_index b.now at }
{
    b.get(at).copied().unwrap_or(0)
}

/// The refusal where an attempt's two looks show two headers: the first place at which they differ, and both bytes there.
pub fn again(rules: &Rules, first: &Bytes, last: &Bytes) -> ReadError
    requires first { IsView rules.now.place first.now }
    requires last { IsView rules.now.place last.now }
    requires whole_first { IsWhole rules.now.place first.now }
    requires whole_last { IsWhole rules.now.place last.now }
    requires differ { pointwise nat_eq last.now first.now ≡ false }
    ensures { (known : Option Reading) → result ≡ again (rules_of rules.now known) first.now last.now }
{
    let (a, b) = (first.as_slice(), last.as_slice());
    let n = same_front(a, b);
    ReadError::Again {
        attempts: rules.attempts,
        at: rules.place + n as u64,
        first: byte_or_0(a, n),
        last: byte_or_0(b, n),
    }
}
