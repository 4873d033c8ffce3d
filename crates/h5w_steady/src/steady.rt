//! An image in memory none of whose calls is to fail.
ghost use Rattle.std.specs.Prelude.{◌≡◌, ◌≤◌, ◌+◌, [], ◌∷◌, length, IfOk, OnOk};
ghost use Rattle.h5w_model.specs.Numbers.{range};
ghost use Rattle.h5w_image.specs.Memory.{fresh};
ghost use Rattle.h5w_image.specs.View.{Same, Wrote};
ghost use Rattle.h5w_steady.specs.Steady.{steady};

use h5w_image::{Failed, ImageError, Journal, MemImage, PieceRead, PieceWrite};
use h5w_model::{OutOfMemory, Piece, Write};
use std::alloc::Global;
use std::marker::Model;

/// An image in memory that began without bytes and does not fail.
#[derive(Drop)]
pub struct SteadyImage {
    image: MemImage,
}

impl Model for SteadyImage {
    ghost use Rattle.std.specs.Prelude.{◌≡◌, []};
    ghost use Rattle.h5w_model.specs.Images.{image};
    ghost use Rattle.h5w_image.specs.Memory.{MemView};

    ghost Value = { MemView };

    ghost view = { λ s. s.image };

    ghost invariant = { λ s. s.image.failing ≡ [] };
}

impl SteadyImage {
    /// An image without bytes.
    pub fn new(alloc: Global) -> Result<SteadyImage, OutOfMemory>
        ensures { IfOk result (λ m. m ≡ fresh [] []) }
    {
        Ok(SteadyImage {
            image: MemImage::new(alloc)?,
        })
    }

    /// Makes room for so many pieces that end by `end`.
    pub fn make_room(&mut self, pieces: u64, end: u64) -> Result<(), OutOfMemory>
        ensures same { Same (steady self.old) (steady self.new) }
        ensures pieces { OnOk result (pieces ≤ self.new.pieces) }
        ensures end { OnOk result (end ≤ self.new.end) }
    {
        match self.image.reserve(pieces, end) {
            Ok(()) => Ok(()),
            Err(ImageError::Failed) => unreachable!(),
            Err(ImageError::OutOfMemory) => Err(OutOfMemory),
        }
    }

    /// The bytes from `at` on: `len` of them, fewer only where the image ends.
    pub fn show(&mut self, at: u64, len: usize) -> Piece
        requires some { 1 ≤ len }
        requires piece { len ≤ 512 }
        ensures shows { result ≡ range self.old.bytes at len }
        ensures bound { length result ≤ len }
        ensures same { Same (steady self.old) (steady self.new) }
    {
        let mut piece = Piece::new();
        self.image.look(at, len, &mut piece).unwrap();
        piece
    }

    /// Adds the write to the history. It uses the room of one piece and takes no memory.
    pub fn put(&mut self, w: &Write)
        requires pieces { 1 ≤ self.old.pieces }
        requires end { w.now.at + length w.now.piece ≤ self.old.end }
        requires some { 1 ≤ length w.now.piece }
        ensures { Wrote (w.now ∷ []) (steady self.old) (steady self.new) }
    {
        self.image.write(w).unwrap()
    }

    /// How many bytes it has.
    pub fn len(&self) -> u64
        ensures { result ≡ length self.now.bytes }
    {
        self.image.len()
    }

    /// The pieces that became visible.
    pub fn journal(&self) -> &Journal
        ensures { result.now.writes ≡ self.now.history }
    {
        self.image.journal()
    }
}

impl PieceRead for SteadyImage {
    ghost view = { λ s. steady s };

    fn look(&mut self, at: u64, len: usize, out: &mut Piece) -> Result<(), Failed> {
        self.image.look(at, len, out)
    }
}

impl PieceWrite for SteadyImage {
    ghost use Rattle.std.specs.Prelude.{refl};

    ghost writes_alone = { λ s. refl };

    fn reserve(&mut self, pieces: u64, end: u64) -> Result<(), ImageError> {
        self.image.reserve(pieces, end)
    }

    fn write(&mut self, w: &Write) -> Result<(), Failed> {
        self.image.write(w)
    }
}
