//! Pieces that are written on the second image.
ghost use Rattle.std.specs.Prelude.{◌≡◌, ◌∷◌, [], drop, IfErr, OnOk};
ghost use Rattle.h5w_replica.specs.Batches.{AreShort};
ghost use Rattle.h5w_replica.specs.Putting.{HasPut, HasPutSome};

use crate::pieces::Pieces;
use h5w_image::{ImageError, Journal, PieceWrite};
use h5w_model::{Piece, Write};
use h5w_shared::{SharedImage, WriterSeat, Writing};
use std::sync::Wait;

/// Writes a piece, with room for it. There is no memory for one that ends past 2^64.
fn put<R: Wait>(
    rt: &R,
    image: &SharedImage,
    seat: &mut WriterSeat,
    w: &Write,
) -> Result<(), ImageError>
    requires { seat.old.image ≡ image.now }
    ensures put { OnOk result (HasPut (w.now ∷ []) seat.old seat.new) }
    ensures none { IfErr result (λ e. HasPutSome [] e seat.old seat.new) }
{
    let Some(end) = w.at.checked_add(w.piece.len() as u64) else {
        return Err(ImageError::OutOfMemory);
    };
    let mut through = Writing { rt, image, seat };
    through.reserve(1, end)?;
    through.write(w)?;
    Ok(())
}

/// Writes the pieces of a list from this one on.
pub fn put_pieces<R: Wait>(
    rt: &R,
    image: &SharedImage,
    seat: &mut WriterSeat,
    pieces: &Pieces,
    from: u64,
) -> Result<(), ImageError>
    requires image { seat.old.image ≡ image.now }
    requires short { AreShort pieces.now.writes }
    ensures put { OnOk result (HasPut (drop from pieces.now.writes) seat.old seat.new) }
    ensures some { IfErr result (λ e. HasPutSome (drop from pieces.now.writes) e seat.old seat.new) }
{
    for k in from..pieces.len() {
        if let Some(w) = pieces.get(k) {
            let copy = Write {
                at: w.at,
                piece: Piece::of(w.piece),
            };
            put(rt, image, seat, &copy)?;
        }
    }
    Ok(())
}

/// Writes the pieces of a journal from this one on.
pub fn put_from<R: Wait>(
    rt: &R,
    image: &SharedImage,
    seat: &mut WriterSeat,
    journal: &Journal,
    from: u64,
) -> Result<(), ImageError>
    requires image { seat.old.image ≡ image.now }
    requires short { AreShort journal.now.writes }
    ensures put { OnOk result (HasPut (drop from journal.now.writes) seat.old seat.new) }
    ensures some { IfErr result (λ e. HasPutSome (drop from journal.now.writes) e seat.old seat.new) }
{
    for k in from..journal.len() {
        if let Some(w) = journal.get(k) {
            let copy = Write {
                at: w.at,
                piece: Piece::of(w.piece),
            };
            put(rt, image, seat, &copy)?;
        }
    }
    Ok(())
}
