ghost use Rattle.std.specs.Prelude.{◌≡◌, ◌≤◌, ◌<◌, ◌∷◌, ◌+◌, take, drop, length};
ghost use Rattle.h5w_input.specs.Bytes.{Lacks};

use memchr::memchr;

/// The first place of a byte; the length where it is nowhere.
#[tactic(auto, using(crate::proofs::WordLemmas::first_within, crate::proofs::WordLemmas::first_lacks, crate::proofs::WordLemmas::first_found))]
pub fn first_place(byte: u8, bytes: &[u8]) -> usize
    ensures within { result ≤ length bytes.now }
    ensures lacks { Lacks byte (take result bytes.now) }
    ensures found { result < length bytes.now → drop result bytes.now ≡ byte ∷ drop (result + 1) bytes.now }
{
    memchr(byte, bytes).unwrap_or(bytes.len())
}
