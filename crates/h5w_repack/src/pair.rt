//! A source that is looked at, and a new file that is written.
ghost use Rattle.std.specs.Prelude.{◌≡◌, ◌≤◌, ◌+◌, ◌∷◌, [], ℕ, List, length, true, OnOk, OnErr, IfErr, None};
ghost use Rattle.h5w_model.specs.Causes.{Rose};
ghost use Rattle.h5w_image.specs.View.{GivesRange, Looked, Same, Wrote};
ghost use Rattle.h5w_repack.specs.Pairs.{PairView, PutsOne};

use h5w_image::{Failed, ImageError, Piece, PieceRead, PieceWrite, Write};

/// Two images, or two files of one disk.
pub trait Pair {
    /// What contracts see of them.
    ghost view: { Self → PairView };

    /// Puts the source's bytes from `at` on into `out`: `len` of them, fewer only where the source ends. Takes no memory.
    fn look(&mut self, at: u64, len: usize, out: &mut Piece) -> Result<(), Failed>
        requires some { 1 ≤ len }
        requires piece { len ≤ 512 }
        ensures looked { Looked (view self.old).from (view self.new).from }
        ensures to { Same (view self.old).to (view self.new).to }
        ensures name { (view self.new).name ≡ (view self.old).name }
        ensures shows { OnOk result (GivesRange (view self.new).from at len out.new) }
        ensures bound { OnOk result (length out.new ≤ len) }
        ensures cause { OnErr result (Rose (view self.old).from.faults (view self.new).from.faults) };

    /// Makes room for so many pieces of the new file that end by `end`. Room that was there stays.
    fn reserve(&mut self, pieces: u64, end: u64) -> Result<(), ImageError>
        ensures looked { Looked (view self.old).from (view self.new).from }
        ensures to { Same (view self.old).to (view self.new).to }
        ensures name { (view self.new).name ≡ (view self.old).name }
        ensures pieces { OnOk result (pieces ≤ (view self.new).to.pieces) }
        ensures end { OnOk result (end ≤ (view self.new).to.end) }
        ensures cause { result ≡ Err ImageError.Failed → Rose (view self.old).to.faults (view self.new).to.faults };

    /// Writes a piece of the new file. It uses the room of one piece and takes no memory. Failed: the new file is as before.
    fn write(&mut self, w: &Write) -> Result<(), Failed>
        requires some { 1 ≤ length w.now.piece }
        requires pieces { 1 ≤ (view self.old).to.pieces }
        requires end { w.now.at + length w.now.piece ≤ (view self.old).to.end }
        ensures looked { Looked (view self.old).from (view self.new).from }
        ensures name { (view self.new).name ≡ (view self.old).name }
        ensures wrote { OnOk result (PutsOne (view self.old).name w.now (view self.old).to (view self.new).to) }
        ensures same { OnErr result (Same (view self.old).to (view self.new).to) }
        ensures cause { OnErr result (Rose (view self.old).to.faults (view self.new).to.faults) };
}

/// An image that is looked at, and another one that is written.
#[derive(Drop)]
pub struct Images<I: PieceRead, O: PieceWrite> {
    pub from: I,
    pub to: O,
}

impl<I: PieceRead, O: PieceWrite> Pair for Images<I, O> {
    ghost view = { λ s. record {
      from = I.view s.from;
      to = record (O.view s.to) { disk = None };
      name = [];
    } };

    fn look(&mut self, at: u64, len: usize, out: &mut Piece) -> Result<(), Failed> {
        self.from.look(at, len, out)
    }

    fn reserve(&mut self, pieces: u64, end: u64) -> Result<(), ImageError> {
        self.to.reserve(pieces, end)
    }

    fn write(&mut self, w: &Write) -> Result<(), Failed> {
        self.to.write(w)
    }
}
