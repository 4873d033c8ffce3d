//! The end of a mirror that writes the first image.
ghost use Rattle.std.specs.Prelude.{◌≡◌, ◌≢◌, ◌≤◌, ◌<◌, ◌+◌, ◌∷◌, ◌++◌, [], ℕ, false, true, length, Err, IfOk, IfSome, IsSome, MatchBool, MatchResult, None, OnErr, OnOk};
ghost use Rattle.h5w_model.specs.Numbers.{range};
ghost use Rattle.h5w_shared.specs.Seats.{bytes_of, note_of, reader_of};
ghost use Rattle.h5w_shared.specs.Turns.{StartsWith};
ghost use Rattle.h5w_replica.specs.Batches.{AreShort, Follows, Leads, batches_in, queue};
ghost use Rattle.h5w_replica.specs.Feeds.{FailedFeed, HasRoomFed, HasTaken, IsFed, KeepsOrder, with_piece};
ghost use Rattle.h5w_replica.specs.Putting.{KeepsWorn};
ghost use Rattle.h5w_replica.specs.Rings.{ring_of};
ghost use Rattle.rtrb.specs.Ring.{SameProducer, known_free, sent};

use crate::batch::{Batch, InOrder, Portion};
use crate::pieces::Pieces;
use crate::refusal::FollowError;
use h5w_image::{Failed, ImageError, Journal, PieceRead, PieceWrite};
use h5w_model::{OutOfMemory, Piece, Write};
use h5w_shared::{Note, ReaderSeat, SharedImage, Worn, WriterSeat, Writing};
use rtrb::{Consumer, Producer, PushError};
use std::alloc::Global;
use std::marker::Model;
use std::mem;
use std::sync::Wait;

/// The end of a mirror that writes the first image, and sends its pieces on.
#[derive(Drop)]
pub struct Feed {
    alloc: Global,
    seat: WriterSeat,
    pub(crate) producer: Producer<Batch, Global, InOrder>,
    /// Lists whose pieces were written on the second image: their memory is for others.
    spares: Consumer<Pieces>,
    /// The batch that the ring gave back.
    back: Option<Batch>,
    /// The pieces that no batch has yet.
    unsent: Pieces,
    /// So many pieces more can be written without memory.
    room: u64,
}

impl Model for Feed {
    ghost use Rattle.rtrb.specs.Ring.{known_free, sent};
    ghost use Rattle.h5w_replica.specs.Batches.{batches_in};
    ghost use Rattle.h5w_replica.specs.Feeds.{FeedView, HasBothRooms, IsFeed};
    ghost use Rattle.h5w_replica.specs.Rings.{ring_of};

    ghost Value = { FeedView };

    ghost view = { λ f. record { seat = f.seat; took = batches_in (sent f.producer); back = f.back; unsent = f.unsent.writes; room = f.room; free = known_free f.producer; ring = ring_of f.producer } };

    ghost invariant = { λ f. IsFeed f.seat (sent f.producer) f.back f.unsent.writes × HasBothRooms f.room f.seat.pieces f.unsent.room };
}

/// Puts a batch into the ring. What the ring gives back is the answer.
fn offer(producer: &mut Producer<Batch, Global, InOrder>, batch: Batch) -> Option<Batch>
    requires { Follows (sent producer.old) batch }
    ensures ring { SameProducer producer.old producer.new }
    ensures taken { result ≡ None → (sent producer.new ≡ sent producer.old ++ batch ∷ []) × (known_free producer.old ≤ known_free producer.new + 1) }
    ensures back { IfSome result (λ b. (b ≡ batch) × (sent producer.new ≡ sent producer.old) × ((known_free producer.old ≡ 0) × (known_free producer.new ≡ 0))) }
{
    match producer.push(batch) {
        Ok(()) => None,
        Err(PushError::Full(back)) => Some(back),
    }
}

/// A list without pieces, with memory that was used before, where there is such.
fn empty(spares: &mut Consumer<Pieces>, alloc: Global) -> Pieces
    ensures { result.writes ≡ [] }
{
    let Ok(mut pieces) = spares.pop() else {
        return Pieces::new(alloc);
    };
    pieces.clear();
    pieces
}

impl Feed {
    /// The feed of an image that nobody wrote yet, and of a ring whose first item came through.
    pub(crate) fn of(
        alloc: Global,
        seat: WriterSeat,
        producer: Producer<Batch, Global, InOrder>,
        spares: Consumer<Pieces>,
    ) -> Feed
        requires new { seat.seen ≡ [] }
        requires leads { Leads seat.image (sent producer) }
        requires none { batches_in (sent producer) ≡ [] }
        ensures seat { result.seat ≡ seat }
        ensures empty { (result.took ≡ []) × (result.back ≡ None) × (result.unsent ≡ []) × (result.room ≡ 0) }
        ensures free { result.free ≡ known_free producer }
        ensures ring { result.ring ≡ ring_of producer }
    {
        Feed {
            alloc,
            seat,
            producer,
            spares,
            back: None,
            unsent: Pieces::new(alloc),
            room: 0,
        }
    }

    /// How many pieces its seat has seen: all of them.
    pub fn seen(&self) -> u64
        ensures seen { result ≡ length self.now.seat.seen }
        ensures fed { IsFed self.now }
    {
        self.seat.seen()
    }

    /// A reader's seat on the first image that knows what this one knows. Waits for nobody.
    pub fn seat(&mut self, first: &SharedImage) -> ReaderSeat
        requires { self.old.seat.image ≡ first.now }
        ensures same { self.new ≡ self.old }
        ensures seat { result ≡ reader_of self.old.seat }
        ensures fed { IsFed self.new }
    {
        self.seat.seat(first)
    }

    /// Takes in a note: what it has seen begins what the writer's seat has seen. Waits for nobody.
    pub fn meet(&mut self, first: &SharedImage, note: Note)
        requires image { self.old.seat.image ≡ first.now }
        requires note { note.image ≡ first.now }
        ensures same { self.new ≡ self.old }
        ensures begins { StartsWith self.new.seat.seen note.seen }
        ensures fed { IsFed self.new }
    {
        self.seat.meet(first, note);
    }

    /// Puts the first image's bytes from `at` on into `out`, after all pieces.
    pub(crate) fn look<R: Wait>(
        &mut self,
        rt: &R,
        first: &SharedImage,
        at: u64,
        len: usize,
        out: &mut Piece,
    ) -> Result<(), Failed>
        requires image { self.old.seat.image ≡ first.now }
        requires piece { len ≤ 512 }
        ensures same { OnOk result (self.new ≡ self.old) }
        ensures shows { OnOk result (out.new ≡ range (bytes_of self.new.seat) at len) }
        ensures bound { OnOk result (length out.new ≤ len) }
        ensures worn { OnOk result (self.old.seat.worn ≡ false) }
        ensures refused { OnErr result (FailedFeed self.old self.new × (out.new ≡ out.old)) }
        ensures fed { IsFed self.new }
    {
        Writing {
            rt,
            image: first,
            seat: &mut self.seat,
        }
        .look(at, len, out)
    }

    /// Makes room for so many pieces that end by `end`, in the first image and among the unsent.
    pub(crate) fn reserve<R: Wait>(
        &mut self,
        rt: &R,
        first: &SharedImage,
        pieces: u64,
        end: u64,
    ) -> Result<(), ImageError>
        requires { self.old.seat.image ≡ first.now }
        ensures made { OnOk result (HasRoomFed pieces end self.old self.new) }
        ensures worn { OnOk result (self.old.seat.worn ≡ false) }
        ensures refused { result ≡ Err ImageError.Failed → FailedFeed self.old self.new }
        ensures memory { result ≡ Err ImageError.OutOfMemory → self.new ≡ self.old }
        ensures fed { IsFed self.new }
    {
        self.unsent.reserve(pieces)?;
        Writing {
            rt,
            image: first,
            seat: &mut self.seat,
        }
        .reserve(pieces, end)?;
        self.room = self.room.max(pieces);
        Ok(())
    }

    /// Writes a piece of the first image, which no batch has yet.
    pub(crate) fn write<R: Wait>(
        &mut self,
        rt: &R,
        first: &SharedImage,
        w: &Write,
    ) -> Result<(), Failed>
        requires image { self.old.seat.image ≡ first.now }
        requires room { 1 ≤ self.old.room }
        requires end { w.now.at + length w.now.piece ≤ self.old.seat.end }
        ensures wrote { OnOk result (self.new ≡ with_piece w.now self.old) }
        ensures worn { OnOk result (self.old.seat.worn ≡ false) }
        ensures refused { OnErr result (FailedFeed self.old self.new) }
        ensures fed { IsFed self.new }
    {
        // Its bound keeps all pieces short.
        let _len = w.piece.len();
        Writing {
            rt,
            image: first,
            seat: &mut self.seat,
        }
        .write(w)?;
        self.unsent.push(w);
        self.room -= 1;
        Ok(())
    }

    /// Whether all batches came out of the ring, as far as its places tell. Waits for nobody.
    pub fn is_awaited(&mut self) -> bool
        ensures same { self.new ≡ record self.old { free = self.new.free } }
        ensures free { self.old.free ≤ self.new.free }
        ensures fed { IsFed self.new }
    {
        self.producer.slots() == self.producer.capacity()
    }

    /// What the ring gave back goes in again. True where nothing is given back now.
    fn resend(&mut self) -> bool
        ensures same { (self.new.seat ≡ self.old.seat) × (self.new.unsent ≡ self.old.unsent) × (self.new.room ≡ self.old.room) × (self.new.ring ≡ self.old.ring) }
        ensures taken { HasTaken self.old self.new }
        ensures order { queue self.new.took self.new.back ≡ queue self.old.took self.old.back }
        ensures back { MatchBool result (self.new.back ≡ None) (IsSome self.new.back × (self.new.free ≡ 0)) }
    {
        let Some(batch) = self.back.take() else {
            return true;
        };
        self.back = offer(&mut self.producer, batch);
        self.back.is_none()
    }

    /// Sends what is unsent. A batch that the ring gave back before goes first; where it was taken, or there was none, the unsent pieces become
    /// one batch. What the ring gives back is kept. Waits for nobody.
    pub fn send(&mut self, first: &SharedImage) -> Result<(), OutOfMemory>
        requires { self.old.seat.image ≡ first.now }
        ensures same { (self.new.seat ≡ self.old.seat) × (self.new.room ≡ self.old.room) × (self.new.ring ≡ self.old.ring) }
        ensures taken { HasTaken self.old self.new }
        ensures order { KeepsOrder self.old self.new }
        ensures back { IsSome self.new.back → self.new.free ≡ 0 }
        ensures all { OnOk result (self.new.back ≡ None → self.new.unsent ≡ []) }
        ensures refused { OnErr result ((self.new.back ≡ None) × (self.new.unsent ≡ self.old.unsent)) }
        ensures fed { IsFed self.new }
    {
        if !self.resend() || self.unsent.len() == 0 {
            return Ok(());
        }
        let before = self.seat.seen() - self.unsent.len();
        let mut pieces = empty(&mut self.spares, self.alloc);
        pieces.reserve(self.room)?;
        mem::swap(&mut self.unsent, &mut pieces);
        let note = self.seat.note(first);
        let batch = Batch {
            portion: Portion {
                first: before,
                pieces,
            },
            note,
        };
        self.back = offer(&mut self.producer, batch);
        Ok(())
    }

    /// A copy of all pieces that were written, the oldest first, and a note of them. May wait for a turn.
    pub fn journal<R: Wait>(
        &mut self,
        rt: &R,
        first: &SharedImage,
    ) -> Result<(Journal, Note), FollowError>
        requires { self.old.seat.image ≡ first.now }
        ensures copied { IfOk result (λ r. (r.0.writes ≡ self.new.seat.seen) × (r.1 ≡ note_of self.new.seat)) }
        ensures short { IfOk result (λ r. AreShort r.0.writes) }
        ensures same { OnOk result (self.new ≡ self.old) }
        ensures worn { OnOk result (self.old.seat.worn ≡ false) }
        ensures gap { (a b : ℕ) → result ≢ Err (FollowError.Gap a b) }
        ensures refused { result ≡ Err FollowError.Failed → FailedFeed self.old self.new }
        ensures memory { result ≡ Err FollowError.OutOfMemory → self.new ≡ self.old }
        ensures fed { IsFed self.new }
    {
        let journal = self.seat.history(rt, first)?;
        Ok((journal, self.seat.note(first)))
    }

    /// What shows that its seat was shown the ticket word at 2^63. Err exactly where the seat's count of faults is 0.
    pub fn worn(self) -> Result<Worn, Feed>
        ensures { MatchResult result (λ w. KeepsWorn self.seat w) (λ f. (self.seat.faults ≡ 0) × (f ≡ self)) }
    {
        let Feed {
            alloc,
            seat,
            producer,
            spares,
            back,
            unsent,
            room,
        } = self;
        match seat.worn() {
            Ok(worn) => Ok(worn),
            Err(seat) => Err(Feed {
                alloc,
                seat,
                producer,
                spares,
                back,
                unsent,
                room,
            }),
        }
    }
}
