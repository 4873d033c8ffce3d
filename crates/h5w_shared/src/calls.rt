//! What is done in one turn: a look, a piece, room for more, a copy of the list of pieces.
ghost use Rattle.std.specs.Prelude.{◌≡◌, ◌≤◌, ◌-◌, ◌+◌, ◌++◌, ◌∷◌, [], false, max, true, length, Err, IfOk, OnOk, OnErr};
ghost use Rattle.h5w_model.specs.Numbers.{range};
ghost use Rattle.h5w_image.specs.Memory.{MemView};
ghost use Rattle.h5w_shared.specs.Turns.{FoundStore};
ghost use Rattle.h5w_shared.specs.Places.{AtRest, Came, IsAt, Refused};

use crate::place::Place;
use crate::table::Shelf;
use h5w_image::{Failed, ImageError, Journal, PieceRead, PieceWrite};
use h5w_model::{Piece, Write};
use std::alloc::Global;
use std::sync::Wait;

impl Place {
    /// Puts the image's bytes from `at` on into `out`. A patient seat lets others wait first.
    pub fn look<R: Wait>(
        &mut self,
        rt: &R,
        shelf: &Shelf,
        at: u64,
        len: usize,
        out: &mut Piece,
        patient: bool,
    ) -> Result<(), Failed>
        requires rest { AtRest self.old }
        requires table { IsAt shelf.now.table_id self.old }
        requires piece { len ≤ 512 }
        ensures looked { OnOk result ((x : MemView) × Came self.old self.new x × FoundStore self.old.seat.me.0 x × (out.new ≡ range x.bytes at len)) }
        ensures bound { OnOk result (length out.new ≤ len) }
        ensures worn { OnOk result (self.old.worn ≡ false) }
        ensures refused { OnErr result (Refused self.old self.new × (out.new ≡ out.old)) }
    {
        let mut store = self.turn(rt, shelf, patient)?;
        let shown = store.look(at, len, out);
        self.end(shelf, store);
        shown
    }

    /// Adds the write as the last.
    pub fn write<R: Wait>(&mut self, rt: &R, shelf: &Shelf, w: &Write) -> Result<(), Failed>
        requires rest { AtRest self.old }
        requires table { IsAt shelf.now.table_id self.old }
        requires writes { self.old.seat.me.0.writes ≡ true }
        requires pieces { 1 ≤ self.old.seat.me.0.pieces }
        requires end { w.now.at + length w.now.piece ≤ self.old.seat.me.0.end }
        ensures wrote { OnOk result ((x : MemView) × Came self.old self.new x × (x.history ≡ self.old.seat.me.0.seen ++ w.now ∷ []) × (x.pieces ≡ self.old.seat.me.0.pieces - 1) × (x.end ≡ self.old.seat.me.0.end)) }
        ensures worn { OnOk result (self.old.worn ≡ false) }
        ensures refused { OnErr result (Refused self.old self.new) }
    {
        let mut store = self.turn(rt, shelf, false)?;
        let written = store.write(w);
        self.end(shelf, store);
        written
    }

    /// Makes room for so many pieces that end by `end`.
    pub fn reserve<R: Wait>(
        &mut self,
        rt: &R,
        shelf: &Shelf,
        pieces: u64,
        end: u64,
    ) -> Result<(), ImageError>
        requires rest { AtRest self.old }
        requires table { IsAt shelf.now.table_id self.old }
        requires writes { self.old.seat.me.0.writes ≡ true }
        ensures room { OnOk result ((x : MemView) × Came self.old self.new x × (x.history ≡ self.old.seat.me.0.seen) × (x.pieces ≡ max self.old.seat.me.0.pieces pieces) × (x.end ≡ max self.old.seat.me.0.end end)) }
        ensures worn { OnOk result (self.old.worn ≡ false) }
        ensures refused { result ≡ Err ImageError.Failed → Refused self.old self.new }
        ensures memory { result ≡ Err ImageError.OutOfMemory → (x : MemView) × Came self.old self.new x × FoundStore self.old.seat.me.0 x }
    {
        let mut store = self.turn(rt, shelf, false)?;
        let room = store.reserve(pieces, end);
        self.end(shelf, store);
        room
    }

    /// A copy of the list of pieces.
    pub fn history<R: Wait>(
        &mut self,
        rt: &R,
        shelf: &Shelf,
        alloc: Global,
    ) -> Result<Journal, ImageError>
        requires rest { AtRest self.old }
        requires table { IsAt shelf.now.table_id self.old }
        ensures copied { IfOk result (λ j. (x : MemView) × Came self.old self.new x × FoundStore self.old.seat.me.0 x × (j.writes ≡ x.history)) }
        ensures worn { OnOk result (self.old.worn ≡ false) }
        ensures refused { result ≡ Err ImageError.Failed → Refused self.old self.new }
        ensures memory { result ≡ Err ImageError.OutOfMemory → (x : MemView) × Came self.old self.new x × FoundStore self.old.seat.me.0 x }
    {
        let store = self.turn(rt, shelf, false)?;
        let copy = store.journal().copy(alloc);
        self.end(shelf, store);
        Ok(copy?)
    }
}
