//! Where a generator begins.
ghost use Rattle.std.specs.Prelude.{◌≡◌};

use crate::numbers::Generator;

/// The generator that begins with this seed.
pub fn generator(seed: u64) -> Generator
    ensures { result.state ≡ seed }
{
    Generator { state: seed }
}
