//! Looks at the image.
ghost use Rattle.std.specs.Prelude.{◌≡◌, ◌+◌, ◌≤◌, ◌^◌};
ghost use Rattle.h5w_model.specs.Programs.{below_end};

use h5w_model::PIECE;

/// A look at the image: up to `len` bytes, 1 to 512, from byte `at` on.
#[derive(Clone, Copy, Debug, PartialEq, Eq)]
pub struct Look {
    pub at: u64,
    pub len: usize,
}

/// How many of `len` bytes from `place` on stand below 2^64.
pub fn below_end(place: u64, len: u64) -> u64
    ensures { result ≡ below_end place len }
{
    let most = u64::MAX - place;
    if len <= most { len } else { most + 1 }
}

/// The look of up to 512 bytes at a place.
pub fn look_at(place: u64) -> Look
    ensures look { result ≡ record { at = place; len = below_end place 512 } }
    ensures low { 1 ≤ result.len }
    ensures high { result.len ≤ 512 }
    ensures inside { result.at + result.len ≤ 2 ^ 64 }
{
    Look {
        at: place,
        len: below_end(place, PIECE as u64) as usize,
    }
}
