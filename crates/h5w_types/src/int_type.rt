ghost use Rattle.std.specs.Prelude.{◌≡◌, ◌+◌, ◌++◌, ◌≤◌, ◌^◌, ◌<◌, pos, length, drop, List, ℕ, true, Ok, Some, IfOk, IfSome, option_map, ◌&&◌, int_le, int_lt, ℤ};
ghost use Rattle.h5w_model.specs.Checked.{viewed};
ghost use Rattle.h5w_types.specs.Messages.{int_type_at, int_type_bytes, is_int_size, IsIntType};
ghost use Rattle.h5w_types.specs.Numbers.{le, num};
ghost use Rattle.h5w_types.specs.Integers.{cell_bytes, cell_bytes_of, cell_of, in_order, is_in_span, signed_of, span_of, unsigned_of, value_at};
ghost use Rattle.h5w_types.specs.Fields.{int_type_of};

use h5w_bytes::{byte, number, put};
use h5w_model::{Cell, Unsupported};

/// A type of integers.
#[derive(Clone, Copy, Debug, PartialEq, Eq)]
pub struct IntType {
    /// The size of an integer in bytes: 1, 2, 4 or 8.
    pub size: u8,
    /// The most significant byte comes first.
    pub big: bool,
    /// Two's complement.
    pub signed: bool,
}

/// Whether integers may have this many bytes.
fn is_size(size: u64) -> bool
    ensures { result ≡ is_int_size size }
{
    matches!(size, 1 | 2 | 4 | 8)
}

impl IntType {
    /// The type that the data of a datatype message say, or the least number of what is unsupported in them.
    #[tactic(auto, unfolding(h5w_model::specs::Messages::int_type_at, h5w_model::specs::Messages::int_type_tests, h5w_model::specs::Messages::int_type_fields))]
    pub fn decode(b: &[u8]) -> Result<IntType, Unsupported>
        ensures exact { viewed int_type_of result ≡ int_type_at b.now }
        ensures typed { IfOk result (λ t. IsIntType (int_type_of t)) }
    {
        if b.len() < 12 {
            return Err(Unsupported(7));
        }
        let (class, version) = (byte(b, 0) % 16, byte(b, 0) / 16);
        if class != 0 || version < 1 || 4 < version {
            return Err(Unsupported(7));
        }
        let size = number(b, 4, 4);
        if !is_size(size) || number(b, 8, 2) != 0 || number(b, 10, 2) != 8 * size {
            return Err(Unsupported(8));
        }
        let bits = byte(b, 1);
        Ok(IntType {
            size: size as u8,
            big: bits & 1 != 0,
            signed: bits & 8 != 0,
        })
    }

    /// Writes the one spelling of the type at the front of `out`, and answers its length in bytes.
    pub fn encode(&self, out: &mut [u8]) -> usize
        requires typed { IsIntType (int_type_of self.now) }
        requires room { 12 ≤ length out.old }
        ensures len { (result ≡ 12) × (length (int_type_bytes (int_type_of self.now)) ≡ 12) }
        ensures written { out.new ≡ int_type_bytes (int_type_of self.now) ++ drop 12 out.old }
        ensures reads_back { (rest : List ℕ) → int_type_at (int_type_bytes (int_type_of self.now) ++ rest) ≡ Ok (int_type_of self.now) }
    {
        let bits = u8::from(self.big) + 8 * u8::from(self.signed);
        let data = [0x30, bits, 0, 0, self.size, 0, 0, 0, 0, 0, 8 * self.size, 0];
        out[..data.len()].copy_from_slice(&data);
        data.len()
    }

    /// How many values the type has.
    #[inline(always)]
    fn span(&self) -> i128
        requires { IsIntType (int_type_of self.now) }
        ensures { result ≡ pos (span_of (int_type_of self.now)) }
    {
        1 << (8 * u32::from(self.size))
    }

    /// The least of them, and the first number above the greatest.
    pub(crate) fn bounds(&self) -> (i128, i128)
        requires { IsIntType (int_type_of self.now) }
        ensures { (v : ℤ) → is_in_span self.now.signed (span_of (int_type_of self.now)) v ≡ (int_le result.0 v && int_lt v result.1) }
    {
        let span = self.span();
        if self.signed {
            (-(span / 2), span / 2)
        } else {
            (0, span)
        }
    }

    /// Whether `v` is one of them.
    fn contains(&self, v: i128) -> bool
        requires { IsIntType (int_type_of self.now) }
        ensures { result ≡ is_in_span self.now.signed (span_of (int_type_of self.now)) v }
    {
        let (least, above) = self.bounds();
        least <= v && v < above
    }
}

/// The number of 1 to 8 bytes, the most significant first where `big`.
fn unsigned(bytes: &[u8], big: bool) -> u64
    requires low { 1 ≤ length bytes.now }
    requires high { length bytes.now ≤ 8 }
    ensures { result ≡ num (in_order big bytes.now) }
{
    let mut low_first = [0; 8];
    let low_first = &mut low_first[..bytes.len()];
    low_first.copy_from_slice(bytes);
    if big {
        low_first.reverse();
    }
    number(low_first, 0, bytes.len())
}

/// The number `n` as a value of the type.
fn value(n: u64, t: &IntType) -> i128
    requires { IsIntType (int_type_of t.now) }
    ensures { result ≡ signed_of t.now.signed (span_of (int_type_of t.now)) n }
{
    let (n, span) = (i128::from(n), t.span());
    if t.signed && span / 2 <= n {
        n - span
    } else {
        n
    }
}

/// The integer of a cell's bytes, which are as many as the type's size.
#[tactic(auto, unfolding(h5w_model::specs::Integers::value_at))]
pub fn value_of(bytes: &[u8], t: &IntType) -> i128
    requires typed { IsIntType (int_type_of t.now) }
    requires sized { length bytes.now ≡ t.now.size }
    ensures exact { result ≡ value_at bytes.now (int_type_of t.now) }
    ensures back { cell_bytes_of result (int_type_of t.now) ≡ Some bytes.now }
{
    value(unsigned(bytes, t.big), t)
}

/// A value of the type as a number.
#[inline(always)]
pub(crate) fn number_of(v: i128, t: &IntType) -> u64
    requires typed { IsIntType (int_type_of t.now) }
    requires inside { is_in_span t.now.signed (span_of (int_type_of t.now)) v ≡ true }
    ensures exact { result ≡ unsigned_of (span_of (int_type_of t.now)) v }
    ensures fits { result < span_of (int_type_of t.now) }
{
    if v < 0 {
        (v + t.span()) as u64
    } else {
        v as u64
    }
}

/// The cell of the number `n` in the type's order.
#[inline(always)]
pub(crate) fn cell(n: u64, t: &IntType) -> Cell
    requires typed { IsIntType (int_type_of t.now) }
    requires fits { n < span_of (int_type_of t.now) }
    ensures { result ≡ cell_of (in_order t.now.big (le t.now.size n)) }
{
    let size = usize::from(t.size);
    let mut bytes = [0; 8];
    // all 8 at once: those that do not count are 0
    put(&mut bytes, 0, 8, n);
    if t.big {
        bytes[..size].reverse();
    }
    Cell {
        bytes,
        size: t.size,
    }
}

/// The bytes of the integer `v`, or None where it is outside the type.
#[tactic(auto, unfolding(h5w_model::specs::Integers::cell_bytes_of))]
pub fn bytes_of(v: i128, t: &IntType) -> Option<Cell>
    requires { IsIntType (int_type_of t.now) }
    ensures exact { result ≡ option_map cell_of (cell_bytes_of v (int_type_of t.now)) }
    ensures back { IfSome result (λ c. value_at (cell_bytes c) (int_type_of t.now) ≡ v) }
{
    if !t.contains(v) {
        return None;
    }
    Some(cell(number_of(v, t), t))
}
