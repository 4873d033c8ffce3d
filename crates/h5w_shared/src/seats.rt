ghost use Rattle.std.specs.Prelude.{◌≡◌, ◌≤◌, ◌<◌, ◌-◌, ◌+◌, ◌++◌, ◌∷◌, ◌⊎◌, [], false, true, max, length, IfOk, OnOk, OnErr, Err, Ok, MatchResult};
ghost use Rattle.h5w_model.specs.Numbers.{range};
ghost use Rattle.h5w_shared.specs.Turns.{StartsWith, opening};
ghost use Rattle.h5w_shared.specs.Seats.{FailedSeat, HasMadeRoom, bytes_of, note_of, reader_of};

use crate::image::SharedImage;
use crate::place::Place;
use crate::table::Token;
use crate::worn::Worn;
use h5w_image::{Failed, ImageError, Journal};
use h5w_model::{Piece, Write};
use std::marker::Model;
use std::sync::Wait;

/// A seat that has to make room makes it for so many pieces at least. Each list of them is then so long that the system gives it pages of its
/// own, and more of these as it grows. A short list grows among what other threads take and give back, and they wait meanwhile.
const MORE: u64 = 8_192;

/// And for so many bytes past the end that was asked for.
const FARTHER: u64 = 1_048_576;

/// The one seat of a shared image that writes it. Its list is the image's history.
#[derive(Drop)]
pub struct WriterSeat {
    place: Place,
    /// There is room for so many pieces at least, which end by this place.
    pieces: u64,
    end: u64,
}

impl Model for WriterSeat {
    ghost use Rattle.std.specs.Prelude.{◌≤◌, true};
    ghost use Rattle.h5w_shared.specs.Seats.{Rests, SeatView, writer_view};

    ghost Value = { SeatView };

    ghost view = { λ s. writer_view s.place };

    ghost invariant = { λ s. Rests true s.place × (s.pieces ≤ s.place.seat.me.0.pieces) × (s.end ≤ s.place.seat.me.0.end) };
}

/// A seat of a shared image that looks at it. Its list begins the image's history.
#[derive(Drop)]
pub struct ReaderSeat {
    place: Place,
}

impl Model for ReaderSeat {
    ghost use Rattle.std.specs.Prelude.{false};
    ghost use Rattle.h5w_shared.specs.Seats.{Rests, SeatView, reader_view};

    ghost Value = { SeatView };

    ghost view = { λ s. reader_view s.place };

    ghost invariant = { λ s. Rests false s.place };
}

/// What a seat has seen, for another to know.
#[derive(Drop)]
pub struct Note {
    place: Place,
}

impl Model for Note {
    ghost use Rattle.std.specs.Prelude.{false};
    ghost use Rattle.h5w_shared.specs.Seats.{NoteView, Rests, note_view};

    ghost Value = { NoteView };

    ghost view = { λ s. note_view s.place };

    ghost invariant = { λ s. Rests false s.place };
}

impl WriterSeat {
    /// The writer's seat at a new table.
    pub(crate) fn first(seat: Token) -> WriterSeat
        requires { (x : _) × (seat.me ≡ (opening x, [])) }
        ensures image { (result.image.table ≡ seat.table_id) × (result.image.start ≡ seat.me.0.start) }
        ensures seen { result.seen ≡ [] }
        ensures counts { (result.faults ≡ 0) × (result.worn ≡ false) }
        ensures room { (result.pieces ≡ seat.me.0.pieces) × (result.end ≡ seat.me.0.end) }
    {
        WriterSeat {
            place: Place {
                seat,
                next: 0,
                worn: false,
                faults: 0,
                seen: 0,
                tries: 0,
            },
            pieces: 0,
            end: 0,
        }
    }

    /// A reader's seat that knows what this one knows. Waits for nobody.
    pub fn seat(&mut self, image: &SharedImage) -> ReaderSeat
        requires { self.old.image ≡ image.now }
        ensures same { self.new ≡ self.old }
        ensures seat { result ≡ reader_of self.old }
    {
        ReaderSeat {
            place: self.place.twin(image.shelf()),
        }
    }

    /// A note of what this seat has seen. Waits for nobody.
    pub fn note(&mut self, image: &SharedImage) -> Note
        requires { self.old.image ≡ image.now }
        ensures same { self.new ≡ self.old }
        ensures note { result ≡ note_of self.old }
    {
        Note {
            place: self.place.twin(image.shelf()),
        }
    }

    /// Takes in a note: what it has seen begins what this seat has seen. Waits for nobody.
    pub fn meet(&mut self, image: &SharedImage, note: Note)
        requires image { self.old.image ≡ image.now }
        requires note { note.image ≡ image.now }
        ensures same { self.new ≡ self.old }
        ensures begins { StartsWith self.new.seen note.seen }
    {
        self.place.meet(image.shelf(), note.place);
    }

    /// How many pieces it has seen: all of them.
    pub fn seen(&self) -> u64
        ensures { result ≡ length self.now.seen }
    {
        self.place.seen
    }

    /// Puts the image's bytes from `at` on into `out`.
    pub(crate) fn look<R: Wait>(
        &mut self,
        rt: &R,
        image: &SharedImage,
        at: u64,
        len: usize,
        out: &mut Piece,
    ) -> Result<(), Failed>
        requires image { self.old.image ≡ image.now }
        requires piece { len ≤ 512 }
        ensures same { OnOk result (self.new ≡ self.old) }
        ensures shows { OnOk result (out.new ≡ range (bytes_of self.new) at len) }
        ensures bound { OnOk result (length out.new ≤ len) }
        ensures worn { OnOk result (self.old.worn ≡ false) }
        ensures refused { OnErr result (FailedSeat self.old self.new × (out.new ≡ out.old)) }
    {
        self.place.look(rt, image.shelf(), at, len, out, false)
    }

    /// Adds the write as the last piece of the history.
    pub(crate) fn write<R: Wait>(
        &mut self,
        rt: &R,
        image: &SharedImage,
        w: &Write,
    ) -> Result<(), Failed>
        requires image { self.old.image ≡ image.now }
        requires pieces { 1 ≤ self.old.pieces }
        requires end { w.now.at + length w.now.piece ≤ self.old.end }
        ensures wrote { OnOk result (self.new ≡ record self.old { seen = self.old.seen ++ w.now ∷ []; pieces = self.old.pieces - 1 }) }
        ensures worn { OnOk result (self.old.worn ≡ false) }
        ensures refused { OnErr result (FailedSeat self.old self.new) }
    {
        self.place.write(rt, image.shelf(), w)?;
        self.pieces = self.pieces.saturating_sub(1);
        Ok(())
    }

    /// Makes room for so many pieces that end by `end`, in a turn.
    fn ask<R: Wait>(
        &mut self,
        rt: &R,
        image: &SharedImage,
        pieces: u64,
        end: u64,
    ) -> Result<(), ImageError>
        requires image { self.old.image ≡ image.now }
        ensures room { OnOk result (self.new ≡ record self.old { pieces = max self.old.pieces pieces; end = max self.old.end end }) }
        ensures worn { OnOk result (self.old.worn ≡ false) }
        ensures refused { result ≡ Err ImageError.Failed → FailedSeat self.old self.new }
        ensures memory { result ≡ Err ImageError.OutOfMemory → self.new ≡ self.old }
    {
        self.place.reserve(rt, image.shelf(), pieces, end)?;
        self.pieces = self.pieces.max(pieces);
        self.end = self.end.max(end);
        Ok(())
    }

    /// Makes room for so many pieces that end by `end`; without a turn where it is there. Where it is not, for more, if there is memory.
    pub(crate) fn reserve<R: Wait>(
        &mut self,
        rt: &R,
        image: &SharedImage,
        pieces: u64,
        end: u64,
    ) -> Result<(), ImageError>
        requires image { self.old.image ≡ image.now }
        ensures room { OnOk result (HasMadeRoom pieces end self.old self.new) }
        ensures worn { OnOk result (self.old.worn ≡ false) }
        ensures refused { result ≡ Err ImageError.Failed → FailedSeat self.old self.new }
        ensures memory { result ≡ Err ImageError.OutOfMemory → self.new ≡ self.old }
    {
        if !self.place.worn && pieces <= self.pieces && end <= self.end {
            return Ok(());
        }
        match self.ask(rt, image, pieces.max(MORE), end.saturating_add(FARTHER)) {
            Err(ImageError::OutOfMemory) => self.ask(rt, image, pieces, end),
            other => other,
        }
    }

    /// A copy of the history: all pieces that were written, the oldest first. May wait for a turn.
    /// Failed: the seat was shown the ticket word at 2^63, and counts it.
    pub fn history<R: Wait>(&mut self, rt: &R, image: &SharedImage) -> Result<Journal, ImageError>
        requires { self.old.image ≡ image.now }
        ensures copied { IfOk result (λ j. j.writes ≡ self.new.seen) }
        ensures same { OnOk result (self.new ≡ self.old) }
        ensures worn { OnOk result (self.old.worn ≡ false) }
        ensures refused { result ≡ Err ImageError.Failed → FailedSeat self.old self.new }
        ensures memory { result ≡ Err ImageError.OutOfMemory → self.new ≡ self.old }
    {
        self.place.history(rt, image.shelf(), image.alloc)
    }

    /// What shows that the seat was shown the ticket word at 2^63. Err exactly where its count of faults is 0.
    pub fn worn(self) -> Result<Worn, WriterSeat>
        ensures { MatchResult result (λ w. (0 < self.faults) × (w ≡ self) × (w.worn ≡ true)) (λ s. (self.faults ≡ 0) × (s ≡ self)) }
    {
        if self.place.faults > 0 {
            return Ok(Worn::of(self.place, true));
        }
        Err(self)
    }
}

impl ReaderSeat {
    /// A reader's seat that knows what this one knows. Waits for nobody.
    pub fn seat(&mut self, image: &SharedImage) -> ReaderSeat
        requires { self.old.image ≡ image.now }
        ensures same { self.new ≡ self.old }
        ensures seat { result ≡ reader_of self.old }
    {
        ReaderSeat {
            place: self.place.twin(image.shelf()),
        }
    }

    /// A note of what this seat has seen. Waits for nobody.
    pub fn note(&mut self, image: &SharedImage) -> Note
        requires { self.old.image ≡ image.now }
        ensures same { self.new ≡ self.old }
        ensures note { result ≡ note_of self.old }
    {
        Note {
            place: self.place.twin(image.shelf()),
        }
    }

    /// Takes in a note: this seat's list extends its own and the note's, and is one of the two. Waits for nobody.
    pub fn meet(&mut self, image: &SharedImage, note: Note)
        requires image { self.old.image ≡ image.now }
        requires note { note.image ≡ image.now }
        ensures same { self.new ≡ record self.old { seen = self.new.seen } }
        ensures own { StartsWith self.new.seen self.old.seen }
        ensures note { StartsWith self.new.seen note.seen }
        ensures one { (self.new.seen ≡ self.old.seen) ⊎ (self.new.seen ≡ note.seen) }
    {
        self.place.meet(image.shelf(), note.place);
    }

    /// How many pieces it has seen.
    pub fn seen(&self) -> u64
        ensures { result ≡ length self.now.seen }
    {
        self.place.seen
    }

    /// Puts the image's bytes from `at` on into `out`.
    pub(crate) fn look<R: Wait>(
        &mut self,
        rt: &R,
        image: &SharedImage,
        at: u64,
        len: usize,
        out: &mut Piece,
    ) -> Result<(), Failed>
        requires image { self.old.image ≡ image.now }
        requires piece { len ≤ 512 }
        ensures same { OnOk result (self.new ≡ record self.old { seen = self.new.seen }) }
        ensures grown { OnOk result (StartsWith self.new.seen self.old.seen) }
        ensures shows { OnOk result (out.new ≡ range (bytes_of self.new) at len) }
        ensures bound { OnOk result (length out.new ≤ len) }
        ensures worn { OnOk result (self.old.worn ≡ false) }
        ensures refused { OnErr result (FailedSeat self.old self.new × (out.new ≡ out.old)) }
    {
        self.place.look(rt, image.shelf(), at, len, out, true)
    }

    /// What shows that the seat was shown the ticket word at 2^63. Err exactly where its count of faults is 0.
    pub fn worn(self) -> Result<Worn, ReaderSeat>
        ensures { MatchResult result (λ w. (0 < self.faults) × (w ≡ self) × (w.worn ≡ true)) (λ s. (self.faults ≡ 0) × (s ≡ self)) }
    {
        if self.place.faults > 0 {
            return Ok(Worn::of(self.place, false));
        }
        Err(self)
    }
}
