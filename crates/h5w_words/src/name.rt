//! Names in words: of datasets that are made, letters, digits and underscores; of links, any bytes but slashes.
ghost use Rattle.std.specs.Prelude.{◌≡◌};
ghost use Rattle.std.specs.List.{list_all};
ghost use Rattle.h5w_words.specs.Names.{is_link_byte, is_link_name, is_name, is_name_byte};

/// The most bytes of a name.
const LIMIT: usize = 64;

/// The most bytes of a link's name.
const LINK_LIMIT: usize = 255;

/// Whether a name may have this byte.
fn is_name_byte(byte: u8) -> bool
    ensures { result ≡ is_name_byte byte }
{
    matches!(byte, b'0'..=b'9' | b'A'..=b'Z' | b'a'..=b'z' | b'_')
}

/// Whether a name may have each of these bytes.
fn are_name_bytes(word: &[u8]) -> bool
    ensures { result ≡ list_all is_name_byte word.now }
{
    word.iter().all(|byte| is_name_byte(*byte))
}

/// Whether a dataset may have this name.
pub fn is_name(word: &[u8]) -> bool
    ensures { result ≡ is_name word.now }
{
    1 <= word.len() && word.len() <= LIMIT && are_name_bytes(word)
}

/// Whether a link's name may have each of these bytes.
fn are_link_bytes(word: &[u8]) -> bool
    ensures { result ≡ list_all is_link_byte word.now }
{
    word.iter().all(|byte| *byte != b'/')
}

/// Whether a link may have this name.
pub fn is_link_name(word: &[u8]) -> bool
    ensures { result ≡ is_link_name word.now }
{
    1 <= word.len() && word.len() <= LINK_LIMIT && are_link_bytes(word)
}
