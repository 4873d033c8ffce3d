ghost use Rattle.std.specs.Prelude.{◌≡◌, ◌≤◌, ◌-◌, ◌+◌, ◌++◌, ◌∷◌, [], ℕ, false, true, length, refl, OnOk, OnErr, Err};
ghost use Rattle.h5w_model.specs.Numbers.{range};
ghost use Rattle.h5w_model.specs.Causes.{Rose};
ghost use Rattle.h5w_image.specs.View.{Looked, Same, GivesRange, Wrote};
ghost use Rattle.h5w_shared.specs.Turns.{StartsWith};
ghost use Rattle.h5w_shared.specs.Seats.{FailedSeat, HasMadeRoom, bytes_of, seen_through};

use crate::image::SharedImage;
use crate::seats::{ReaderSeat, WriterSeat};
use h5w_image::{Failed, ImageError, PieceRead, PieceWrite};
use h5w_model::{Piece, Write};
use std::sync::Wait;

/// The shared image through its writer's seat. Each call may wait for one turn.
#[derive(Drop)]
pub struct Writing<'a, R: Wait> {
    pub rt: &'a R,
    pub image: &'a SharedImage,
    pub seat: &'a mut WriterSeat,
    pub ghost seated: { seat.now.image ≡ image.now },
}

/// The shared image through a reader's seat. Each call may wait for one turn.
#[derive(Drop)]
pub struct Reading<'a, R: Wait> {
    pub rt: &'a R,
    pub image: &'a SharedImage,
    pub seat: &'a mut ReaderSeat,
    pub ghost seated: { seat.now.image ≡ image.now },
}

impl<'a, R: Wait> PieceRead for Writing<'a, R> {
    ghost view = { λ s. seen_through true s.seat.ghost_name s.seat.now };

    /// The bytes of the image after all pieces. Failed: the seat was shown the ticket word at 2^63, and counts it.
    fn look(&mut self, at: u64, len: usize, out: &mut Piece) -> Result<(), Failed>
        requires { len ≤ 512 }
        ensures looked { Looked (seen_through true self.old.seat.ghost_name self.old.seat.now) (seen_through true self.new.seat.ghost_name self.new.seat.now) }
        ensures shows { OnOk result (out.new ≡ range (bytes_of self.new.seat.now) at len) }
        ensures bound { OnOk result (length out.new ≤ len) }
        ensures failed { OnErr result (out.new ≡ out.old) }
        ensures cause { OnErr result (Rose self.old.seat.now.faults self.new.seat.now.faults) }
        ensures seat { OnOk result (self.new.seat.now ≡ self.old.seat.now) }
        ensures worn { OnOk result (self.old.seat.now.worn ≡ false) }
        ensures refused { OnErr result (FailedSeat self.old.seat.now self.new.seat.now) }
    {
        self.seat.look(self.rt, self.image, at, len, out)
    }
}

impl<'a, R: Wait> PieceWrite for Writing<'a, R> {
    ghost writes_alone = { λ s. refl };

    /// Failed: the seat was shown the ticket word at 2^63, and counts it.
    fn reserve(&mut self, pieces: u64, end: u64) -> Result<(), ImageError>
        ensures same { Same (seen_through true self.old.seat.ghost_name self.old.seat.now) (seen_through true self.new.seat.ghost_name self.new.seat.now) }
        ensures pieces { OnOk result (pieces ≤ self.new.seat.now.pieces) }
        ensures end { OnOk result (end ≤ self.new.seat.now.end) }
        ensures cause { result ≡ Err ImageError.Failed → Rose self.old.seat.now.faults self.new.seat.now.faults }
        ensures room { OnOk result (HasMadeRoom pieces end self.old.seat.now self.new.seat.now) }
        ensures worn { OnOk result (self.old.seat.now.worn ≡ false) }
        ensures refused { result ≡ Err ImageError.Failed → FailedSeat self.old.seat.now self.new.seat.now }
        ensures memory { result ≡ Err ImageError.OutOfMemory → self.new.seat.now ≡ self.old.seat.now }
    {
        self.seat.reserve(self.rt, self.image, pieces, end)
    }

    /// The write is the history's last, once. Failed: the seat was shown the ticket word at 2^63, and counts it.
    fn write(&mut self, w: &Write) -> Result<(), Failed>
        requires pieces { 1 ≤ self.old.seat.now.pieces }
        requires end { w.now.at + length w.now.piece ≤ self.old.seat.now.end }
        ensures wrote { OnOk result (Wrote (w.now ∷ []) (seen_through true self.old.seat.ghost_name self.old.seat.now) (seen_through true self.new.seat.ghost_name self.new.seat.now)) }
        ensures same { OnErr result (Same (seen_through true self.old.seat.ghost_name self.old.seat.now) (seen_through true self.new.seat.ghost_name self.new.seat.now)) }
        ensures cause { OnErr result (Rose self.old.seat.now.faults self.new.seat.now.faults) }
        ensures seat { OnOk result (self.new.seat.now ≡ record self.old.seat.now { seen = self.old.seat.now.seen ++ w.now ∷ []; pieces = self.old.seat.now.pieces - 1 }) }
        ensures worn { OnOk result (self.old.seat.now.worn ≡ false) }
        ensures refused { OnErr result (FailedSeat self.old.seat.now self.new.seat.now) }
    {
        self.seat.write(self.rt, self.image, w)
    }
}

impl<'a, R: Wait> PieceRead for Reading<'a, R> {
    ghost view = { λ s. seen_through false s.seat.ghost_name s.seat.now };

    /// The bytes of the image after the pieces that the seat has seen then, which extend those that it had seen.
    /// Failed: the seat was shown the ticket word at 2^63, and counts it.
    fn look(&mut self, at: u64, len: usize, out: &mut Piece) -> Result<(), Failed>
        requires { len ≤ 512 }
        ensures looked { Looked (seen_through false self.old.seat.ghost_name self.old.seat.now) (seen_through false self.new.seat.ghost_name self.new.seat.now) }
        ensures shows { OnOk result (out.new ≡ range (bytes_of self.new.seat.now) at len) }
        ensures bound { OnOk result (length out.new ≤ len) }
        ensures failed { OnErr result (out.new ≡ out.old) }
        ensures cause { OnErr result (Rose self.old.seat.now.faults self.new.seat.now.faults) }
        ensures seat { OnOk result (self.new.seat.now ≡ record self.old.seat.now { seen = self.new.seat.now.seen }) }
        ensures grown { OnOk result (StartsWith self.new.seat.now.seen self.old.seat.now.seen) }
        ensures worn { OnOk result (self.old.seat.now.worn ≡ false) }
        ensures refused { OnErr result (FailedSeat self.old.seat.now self.new.seat.now) }
    {
        self.seat.look(self.rt, self.image, at, len, out)
    }
}
