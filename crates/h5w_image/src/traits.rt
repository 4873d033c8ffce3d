ghost use Rattle.std.specs.Prelude.{◌≡◌, ◌≤◌, ◌+◌, ℕ, ◌∷◌, [], true, length, OnOk, OnErr, IfErr};
ghost use Rattle.h5w_model.specs.Causes.{Rose};
ghost use Rattle.h5w_image.specs.View.{ImageView, Same, Looked, Wrote, GivesRange};

use crate::fault::{Failed, ImageError};
use h5w_model::{Piece, Write};

/// An image that can be looked at.
pub trait PieceRead {
    /// What contracts see of it.
    ghost view: { Self → ImageView };

    /// Puts the image's bytes from `at` on into `out`: `len` of them, fewer only where the image ends.
    /// Takes no memory. Failed: the count of faults rose, and `out` is as before.
    fn look(&mut self, at: u64, len: usize, out: &mut Piece) -> Result<(), Failed>
        requires some { 1 ≤ len }
        requires piece { len ≤ 512 }
        ensures looked { Looked (view self.old) (view self.new) }
        ensures shows { OnOk result (GivesRange (view self.new) at len out.new) }
        ensures bound { OnOk result (length out.new ≤ len) }
        ensures failed { OnErr result (out.new ≡ out.old) }
        ensures cause { OnErr result (Rose (view self.old).faults (view self.new).faults) };
}

/// An image that can be looked at and written. Nobody else writes it.
pub trait PieceWrite: PieceRead {
    /// Makes room for so many pieces that end by `end`. Room that was there stays.
    fn reserve(&mut self, pieces: u64, end: u64) -> Result<(), ImageError>
        ensures same { Same (Self.view self.old) (Self.view self.new) }
        ensures pieces { OnOk result (pieces ≤ (Self.view self.new).pieces) }
        ensures end { OnOk result (end ≤ (Self.view self.new).end) }
        ensures cause { result ≡ Err ImageError.Failed → Rose (Self.view self.old).faults (Self.view self.new).faults };

    /// Adds the write to the history; bytes between the old end and its place become 0. It uses the
    /// room of one piece and takes no memory. Failed: the count of faults rose, and the image is as before.
    fn write(&mut self, w: &Write) -> Result<(), Failed>
        requires some { 1 ≤ length w.now.piece }
        requires pieces { 1 ≤ (Self.view self.old).pieces }
        requires end { w.now.at + length w.now.piece ≤ (Self.view self.old).end }
        ensures wrote { OnOk result (Wrote (w.now ∷ []) (Self.view self.old) (Self.view self.new)) }
        ensures same { OnErr result (Same (Self.view self.old) (Self.view self.new)) }
        ensures cause { OnErr result (Rose (Self.view self.old).faults (Self.view self.new).faults) };

    /// Nobody else writes it.
    ghost writes_alone: { (it : Self) → (Self.view it).alone ≡ true };
}
