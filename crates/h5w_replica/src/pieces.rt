//! Pieces that wait between two images, one behind another.
ghost use Rattle.std.specs.Prelude.{◌≡◌, ◌≤◌, ◌+◌, [], ◌∷◌, ◌++◌, length, slice_get, OnOk};
ghost use Rattle.std.specs.Option.{option_map};
ghost use Rattle.h5w_model.specs.Numbers.{range};
ghost use Rattle.h5w_image.specs.Journals.{write_seen};

use h5w_image::{OutOfMemory, PIECE, Write, WriteRef};
use std::alloc::Global;
use std::marker::Model;

/// Where a piece's bytes stand among those of all pieces, and its place in the image.
#[derive(Clone, Copy)]
pub struct Spot {
    pub at: u64,
    pub from: usize,
    pub len: usize,
}

/// A list that has to make room makes it for so many more pieces at least.
const MORE: u64 = 256;

/// A list of pieces, the oldest first. A piece takes as many bytes as it has, and its spot. The memory stays where the pieces are let go.
#[derive(Drop)]
pub struct Pieces {
    spots: Vec<Spot>,
    bytes: Vec<u8>,
    /// There is room for so many more at least.
    ahead: u64,
}

impl Model for Pieces {
    ghost use Rattle.std.specs.Prelude.{◌≤◌, ◌-◌, ◌/◌, min, map, vec_len};
    ghost use Rattle.std.specs.Vec.{vec_capacity};
    ghost use Rattle.h5w_image.specs.Journals.{AreAmong, write_of};
    ghost use Rattle.h5w_image.specs.Memory.{JournalView};
    ghost use Rattle.h5w_replica.specs.Waiting.{entry_of};

    ghost Value = { JournalView };

    ghost view = { λ p. record { writes = map (write_of p.bytes.items) (map entry_of p.spots.items); room = min (vec_capacity p.spots - vec_len p.spots) ((vec_capacity p.bytes - vec_len p.bytes) / 512) } };

    ghost invariant = { λ p. AreAmong p.bytes.items (map entry_of p.spots.items) × (p.ahead ≤ min (vec_capacity p.spots - vec_len p.spots) ((vec_capacity p.bytes - vec_len p.bytes) / 512)) };
}

/// So many bytes from a place on.
fn part(bytes: &[u8], from: usize, len: usize) -> &[u8]
    requires { from + len ≤ length bytes.now }
    ensures { result.now ≡ range bytes.now from len }
{
    &bytes[from..from + len]
}

impl Pieces {
    /// No pieces. Takes no memory yet.
    pub fn new(alloc: Global) -> Pieces
        ensures { result.writes ≡ [] }
    {
        Pieces {
            spots: Vec::new(alloc),
            bytes: Vec::new(alloc),
            ahead: 0,
        }
    }

    /// Lets the pieces go, and keeps their memory.
    pub fn clear(&mut self)
        ensures none { self.new.writes ≡ [] }
        ensures room { self.old.room ≤ self.new.room }
    {
        self.spots.clear();
        self.bytes.clear();
    }

    /// Makes room for so many more pieces of up to 512 bytes. Room that was there stays.
    pub fn reserve(&mut self, pieces: u64) -> Result<(), OutOfMemory>
        ensures same { self.new.writes ≡ self.old.writes }
        ensures room { OnOk result (pieces ≤ self.new.room) }
        ensures kept { self.old.room ≤ self.new.room }
    {
        if pieces <= self.ahead {
            return Ok(());
        }
        let more = pieces.max(MORE);
        let Some(bytes) = (more as usize).checked_mul(PIECE) else {
            return Err(OutOfMemory);
        };
        self.spots.reserve(more as usize)?;
        self.bytes.reserve(bytes)?;
        self.ahead = more;
        Ok(())
    }

    /// Adds a piece as the last. Takes no memory.
    pub fn push(&mut self, w: &Write)
        requires room { 1 ≤ self.old.room }
        ensures last { self.new.writes ≡ self.old.writes ++ w.now ∷ [] }
        ensures room { self.old.room ≤ self.new.room + 1 }
    {
        let piece = w.piece.as_slice();
        let spot = Spot {
            at: w.at,
            from: self.bytes.len(),
            len: piece.len(),
        };
        self.bytes.extend_from_slice(piece).unwrap();
        self.spots.push_reserved(spot);
        self.ahead = self.ahead.saturating_sub(1);
    }

    /// How many pieces there are.
    pub fn len(&self) -> u64
        ensures { result ≡ length self.now.writes }
    {
        self.spots.len() as u64
    }

    /// The piece at place `k`, counted from 0. None exactly where `k` is not below the length.
    pub fn get(&self, k: u64) -> Option<WriteRef<'_>>
        ensures { option_map write_seen result ≡ slice_get self.now.writes k }
    {
        match self.spots.get(k as usize) {
            Some(spot) => Some(WriteRef {
                at: spot.at,
                piece: part(&self.bytes, spot.from, spot.len),
            }),
            None => None,
        }
    }
}
