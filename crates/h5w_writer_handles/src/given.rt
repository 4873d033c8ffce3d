//! A file that is given whole.
ghost use Rattle.std.specs.Prelude.{◌≡◌, ◌≤◌, [], length, true, None, Some};
ghost use Rattle.h5w_model.specs.Numbers.{range};
ghost use Rattle.h5w_image.specs.View.{ImageView};

use h5w_image::{Failed, PieceRead};
use h5w_model::Piece;

/// The bytes of a file that nobody writes meanwhile.
#[derive(Drop)]
pub struct Given<'a> {
    pub bytes: &'a [u8],
}

/// The bytes from `at` on: `len` of them, fewer only where they end.
fn part(bytes: &[u8], at: u64, len: usize) -> &[u8]
    ensures part { result.now ≡ range bytes.now at len }
    ensures bound { length result.now ≤ len }
{
    let rest = &bytes[bytes.len().min(at as usize)..];
    &rest[..rest.len().min(len)]
}

impl<'a> PieceRead for Given<'a> {
    ghost view = { λ g. record { bytes = Some g.bytes.now; history = None; disk = None; alone = true; faults = 0; through = []; pieces = 0; end = 0 } };

    fn look(&mut self, at: u64, len: usize, out: &mut Piece) -> Result<(), Failed> {
        out.set(part(self.bytes, at, len));
        Ok(())
    }
}
