//! Numbers in words.
ghost use Rattle.std.specs.Prelude.{◌≡◌, ◌≤◌, IfSome};
ghost use Rattle.h5w_input.specs.Scripts.{count_in};

use h5w_input::count;

/// The number that a word spells, where it is from `least` to `most`.
pub fn count_in(word: &[u8], least: u64, most: u64) -> Option<u64>
    ensures number { result ≡ count_in least most word.now }
    ensures bounds { IfSome result (λ n. (least ≤ n) × (n ≤ most)) }
{
    count(word).filter(|n| least <= *n && *n <= most)
}
