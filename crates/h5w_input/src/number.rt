ghost use Rattle.std.specs.Prelude.{◌≡◌, ◌≤◌, ◌<◌, ◌∷◌, ◌+◌, ◌*◌, ◌-◌, ◌^◌, ◌==◌, ◌||◌, not, length, drop, IfSome, IsTrue, Some, None, if◌then◌else◌};
ghost use Rattle.std.specs.List.{list_all};
ghost use Rattle.std.specs.Option.{SomeIff};
ghost use Rattle.h5w_input.specs.Lines.{below, below_zero, count_of, is_digit, natural_of, number_from, value_of};
ghost use Rattle.h5w_input.specs.WordLists.{BeginsWith, IsAlone, LeadsWith};

use core::dec2flt::read_digits;

/// The number with one more digit; None where 128 bits are too few.
fn with_digit(n: u128, digit: u8) -> Option<u128>
    requires { IsTrue (is_digit digit) }
    ensures { SomeIff result (10 * n + (digit - 48) < 2 ^ 128) (10 * n + (digit - 48)) }
{
    n.checked_mul(10)?.checked_add(u128::from(digit - b'0'))
}

/// The number of the digits behind those that make `n`; None where a byte is no digit, or where
/// 128 bits are too few. It calls itself once for each digit.
#[tactic(auto, using(crate::proofs::NumberLemmas::below_past))]
fn digits(n: u128, word: &[u8]) -> Option<u128>
    ensures { result ≡ (if list_all is_digit word.now then below (2 ^ 128) (Some (number_from n word.now)) else None) }
{
    match word {
        [] => Some(n),
        [digit, rest @ ..] => {
            if !(b'0' <= *digit && *digit <= b'9') {
                return None;
            }
            digits(with_digit(n, *digit)?, rest)
        }
    }
}

/// The number that a word spells, of up to 39 digits; None where it spells none, or where 128 bits
/// are too few.
fn natural(word: &[u8]) -> Option<u128>
    ensures { result ≡ below (2 ^ 128) (natural_of word.now) }
{
    match word {
        [] => None,
        [b'0'] => Some(0),
        [b'0', ..] => None,
        [_, rest @ ..] if rest.len() <= 38 => digits(0, word),
        _ => None,
    }
}

/// The number below 2^64 that a word spells: decimal, without a sign and without zeros before it.
#[tactic(auto, using(crate::proofs::NumberLemmas::below_below))]
pub fn count(word: &[u8]) -> Option<u64>
    ensures { result ≡ count_of word.now }
{
    u64::try_from(natural(word)?).ok()
}

/// The number below zero, where 128 bits are enough.
#[inline(always)]
fn negated(n: u128) -> Option<i128>
    ensures { result ≡ below_zero n }
{
    if n == 0 || n > 1 << 127 {
        return None;
    }
    Some(-((n - 1) as i128) - 1)
}

/// The value that a word spells.
#[tactic(auto, using(crate::proofs::NumberLemmas::below_below))]
pub fn value(word: &[u8]) -> Option<i128>
    ensures { result ≡ value_of word.now }
{
    match word {
        [b'-', digits @ ..] => negated(natural(digits)?),
        _ => i128::try_from(natural(word)?).ok(),
    }
}

/// Whether so many digits, of which this is the first, have no zero before them.
#[inline(always)]
fn is_lean(first: u8, len: usize) -> bool
    ensures { result ≡ (len == 1 || not (first == 48)) }
{
    len == 1 || first != b'0'
}

/// Whether a word of so many bytes ends there: the line ends, or a space follows.
#[inline(always)]
fn is_end(line: &[u8], len: usize) -> bool
    requires { len ≤ length line.now }
    ensures { IsTrue result → len < length line.now → drop len line.now ≡ 32 ∷ drop (len + 1) line.now }
{
    len == line.len() || line[len] == b' '
}

/// The number that some bytes begin with, where it has at most 18 digits, behind how many bytes spell it.
#[inline(always)]
fn first_natural(bytes: &[u8]) -> Option<(usize, u64)>
    ensures { IfSome result (λ r. BeginsWith natural_of 18 bytes.now r.0 r.1) }
{
    let (len, n) = read_digits(bytes, 0, 0);
    if len == 0 {
        return None;
    }
    if len > 18 {
        return None;
    }
    if !is_lean(bytes[0], len) {
        return None;
    }
    Some((len, n))
}

/// The value that some bytes begin with, where it has at most 18 digits, behind how many bytes spell it.
#[inline(always)]
fn first_value(bytes: &[u8]) -> Option<(usize, i128)>
    ensures { IfSome result (λ r. BeginsWith value_of 19 bytes.now r.0 r.1) }
{
    match bytes {
        [b'-', digits @ ..] => {
            let (len, n) = first_natural(digits)?;
            let v = negated(u128::from(n))?;
            Some((len + 1, v))
        }
        _ => {
            let (len, n) = first_natural(bytes)?;
            Some((len, i128::from(n)))
        }
    }
}

/// The value that a line's first word spells, where it has at most 18 digits, behind the word's length. None says
/// nothing of the word.
#[inline(always)]
pub fn short_value(line: &[u8]) -> Option<(usize, i128)>
    ensures { IfSome result (λ r. LeadsWith value_of line.now r.0 r.1) }
{
    let (len, v) = first_value(line)?;
    if !is_end(line, len) {
        return None;
    }
    Some((len, v))
}

/// The value of a line that stands at the front of some bytes with its end, where it is one of at most 18 digits alone, behind the
/// line's length. None says nothing of the line.
#[inline(always)]
pub fn line_value(bytes: &[u8]) -> Option<(usize, i128)>
    ensures { IfSome result (λ r. IsAlone bytes.now r.0 r.1) }
{
    let (len, v) = first_value(bytes)?;
    if len == bytes.len() {
        return None;
    }
    if bytes[len] != b'\n' {
        return None;
    }
    Some((len, v))
}
