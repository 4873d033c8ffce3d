//! The root header and the superblock of a packed file, as they are written.
ghost use Rattle.std.specs.Prelude.{◌≡◌, ◌≤◌, ◌++◌, length, OnOk};
ghost use Rattle.h5w_model.specs.Headers.{header_bytes, msgs_bytes};
ghost use Rattle.h5w_model.specs.Images.{pieces};
ghost use Rattle.h5w_model.specs.Superblock.{super_bytes};
ghost use Rattle.h5w_packing_laws.specs.Packing.{packed_super};

use h5w_bytes::put_pieces;
use h5w_creation::ROOT_PLACE;
use h5w_model::{OutOfMemory, Piece, Super, Write};
use h5w_ohdr::Msgs;

/// More bytes than the root header of eight names has.
const ROOT_MOST: usize = 4096;

/// In how many pieces at most the root header is written.
const ROOT_PIECES: usize = 5;

/// The superblock of a file that ends there, and that nobody writes.
fn superblock(end: u64) -> Super
    ensures { result ≡ packed_super end }
{
    Super {
        version: 3,
        flags: 0,
        end,
        root: ROOT_PLACE,
    }
}

/// Its write.
pub fn superblock_write(end: u64) -> Write
    ensures { result ≡ record { at = 0; piece = super_bytes (packed_super end) } }
{
    Write {
        at: 0,
        piece: Piece::of(&h5w_super::encode(&superblock(end))),
    }
}

/// Puts the pieces of the root header with these messages behind others.
pub fn put_root(links: &Msgs, writes: &mut Vec<Write>) -> Result<(), OutOfMemory>
    requires size { length (msgs_bytes links.now) ≤ 2188 }
    ensures { OnOk result (writes.new.items ≡ writes.old.items ++ pieces 48 (header_bytes links.now)) }
{
    let mut bytes = [0; ROOT_MOST];
    let len = links.encode(&mut bytes);
    writes.reserve(ROOT_PIECES)?;
    put_pieces(ROOT_PLACE, &bytes[..len], writes);
    Ok(())
}
