//! Bytes of any length as pieces of an image.

ghost use Rattle.std.specs.Prelude.{◌≡◌, ◌+◌, ◌/◌, ◌<◌, ◌≤◌, ◌^◌, ◌++◌, [], ◌∷◌, length, vec_len, vec_capacity};
ghost use Rattle.h5w_model.specs.Images.{pieces};

use h5w_model::{PIECE, Piece, Write};

/// Adds the write of these bytes at a place. The piece gets its bytes where it stands in the list.
#[inline(always)]
fn push_write(at: u64, bytes: &[u8], out: &mut Vec<Write>)
    requires fits { length bytes.now ≤ 512 }
    requires room { vec_len out.old + 1 ≤ vec_capacity out.old }
    ensures items { out.new.items ≡ out.old.items ++ record { at = at; piece = bytes.now } ∷ [] }
    ensures len { vec_len out.new ≡ vec_len out.old + 1 }
    ensures capacity { vec_capacity out.new ≡ vec_capacity out.old }
{
    let piece = Piece::new();
    out.push_reserved(Write { at, piece });
    if let Some(last) = out.last_mut() {
        last.piece.set(bytes);
    }
}

/// Adds the writes that put some bytes at a place: pieces of 512 bytes and a rest.
pub fn put_pieces(place: u64, bytes: &[u8], out: &mut Vec<Write>)
    requires ends { place + length bytes.now < 2 ^ 64 }
    requires room { vec_len out.old + (length bytes.now + 511) / 512 ≤ vec_capacity out.old }
    ensures items { out.new.items ≡ out.old.items ++ pieces place bytes.now }
    ensures len { vec_len out.new ≡ vec_len out.old + (length bytes.now + 511) / 512 }
    ensures capacity { vec_capacity out.new ≡ vec_capacity out.old }
{
    let mut at = place;
    for part in bytes.chunks(PIECE) {
        push_write(at, part, out);
        at += part.len() as u64;
    }
}
