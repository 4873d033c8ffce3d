//! The names of integer types, and fills of a type.
ghost use Rattle.std.specs.Prelude.{◌≡◌, IfSome, option_map};
ghost use Rattle.h5w_model.specs.Messages.{IsIntType};
ghost use Rattle.h5w_options.specs.Options.{HasValue};
ghost use Rattle.h5w_input.specs.Scripts.{is_word};
ghost use Rattle.h5w_types.specs.Fields.{int_type_of};
ghost use Rattle.h5w_words.specs.Types.{fill_given, greatest, is_signed, size_and_order, type_named};

use crate::number::count_in;
use h5w_options::IntType;

/// Whether a type's name begins with this byte, and its integers have a sign.
fn is_signed(byte: u8) -> Option<bool>
    ensures { result ≡ is_signed byte }
{
    match byte {
        b'i' => Some(true),
        b'u' => Some(false),
        _ => None,
    }
}

/// Whether a name is this word.
fn is(name: &[u8], word: &[u8]) -> bool
    ensures { result ≡ is_word word.now name.now }
{
    name == word
}

/// The bytes of an integer, and whether the most significant comes first, by what stands behind the sign in a type's name.
fn size_and_order(name: &[u8]) -> Option<(u8, bool)>
    ensures { result ≡ size_and_order name.now }
{
    if is(name, b"8") {
        Some((1, false))
    } else if is(name, b"16le") {
        Some((2, false))
    } else if is(name, b"16be") {
        Some((2, true))
    } else if is(name, b"32le") {
        Some((4, false))
    } else if is(name, b"32be") {
        Some((4, true))
    } else if is(name, b"64le") {
        Some((8, false))
    } else if is(name, b"64be") {
        Some((8, true))
    } else {
        None
    }
}

/// The type of this name: `i` or `u`, the bits, and `le` or `be` where there are several bytes.
pub fn type_named(name: &[u8]) -> Option<IntType>
    ensures named { result ≡ type_named name.now }
    ensures typed { IfSome result (λ t. IsIntType (int_type_of t)) }
{
    let (first, rest) = name.split_first()?;
    let signed = is_signed(*first)?;
    let (size, big) = size_and_order(rest)?;
    Some(IntType { size, big, signed })
}

/// The greatest value of a type.
fn greatest(int_type: &IntType) -> u64
    requires { IsIntType (int_type_of int_type.now) }
    ensures { result ≡ greatest (int_type_of int_type.now) }
{
    let bits = 8 * u32::from(int_type.size) - u32::from(int_type.signed);
    ((1_u128 << bits) - 1) as u64
}

/// The fill that a word gives, from 0 to the type's greatest value; without a word there is none.
pub fn fill_given(word: Option<&str>, int_type: &IntType) -> Option<Option<i128>>
    requires { IsIntType (int_type_of int_type.now) }
    ensures fill { result ≡ fill_given (int_type_of int_type.now) (option_map (λ s. s.now) word.entry) }
    ensures fits { IfSome result (λ f. IfSome f (HasValue (int_type_of int_type.now))) }
{
    match word {
        Some(word) => {
            let value = count_in(word.as_bytes(), 0, greatest(int_type))?;
            Some(Some(i128::from(value)))
        }
        None => Some(None),
    }
}
