//! An image whose bytes are the caller's.
ghost use Rattle.std.specs.Prelude.{◌≡◌, [], true, None};
ghost use Rattle.h5w_image.specs.View.{ImageView};

use h5w_image::{Failed, ImageError, PieceRead, PieceWrite};
use h5w_model::{Piece, Write};

/// The room that a session asks for in an image that somebody else writes: it is there, whatever is asked for. No byte is shown, and none is
/// written here.
#[derive(Drop)]
pub struct Room {
    pieces: u64,
    end: u64,
}

impl Room {
    /// No room was asked for yet.
    pub fn new() -> Room
        ensures { (result.pieces ≡ 0) × (result.end ≡ 0) }
    {
        Room { pieces: 0, end: 0 }
    }
}

impl PieceRead for Room {
    ghost view = { λ r. record { bytes = None; history = None; disk = None; alone = true; faults = 0; through = []; pieces = r.pieces; end = r.end } };

    /// No byte, which an image that does not tell its bytes may give.
    fn look(&mut self, _at: u64, _len: usize, out: &mut Piece) -> Result<(), Failed> {
        out.clear();
        Ok(())
    }
}

impl PieceWrite for Room {
    ghost use Rattle.std.specs.Prelude.{refl};

    ghost writes_alone = { λ s. refl };

    fn reserve(&mut self, pieces: u64, end: u64) -> Result<(), ImageError> {
        self.pieces = self.pieces.max(pieces);
        self.end = self.end.max(end);
        Ok(())
    }

    /// It is left to the caller.
    fn write(&mut self, _w: &Write) -> Result<(), Failed> {
        self.pieces = self.pieces.max(1) - 1;
        Ok(())
    }
}
