//! The end of a mirror that writes the second image.
ghost use Rattle.std.specs.Prelude.{◌≡◌, ◌≢◌, ◌⊎◌, ◌≤◌, ◌<◌, ◌++◌, [], ℕ, drop, length, Err, IfOk, MatchOption, MatchResult, None, Ok, OnOk};
ghost use Rattle.h5w_image.specs.declared.fault.ImageError.TheVariants as image;
ghost use Rattle.h5w_shared.specs.Seats.{note_of, reader_of};
ghost use Rattle.h5w_shared.specs.Turns.{StartsWith};
ghost use Rattle.h5w_replica.specs.Batches.{AreShort, IsPartOf, Leads, batches_in};
ghost use Rattle.h5w_replica.specs.Follows.{HasGap, HasKept, HasStepped, Takes, follow_error};
ghost use Rattle.h5w_replica.specs.Mirrors.{Mirrored};
ghost use Rattle.h5w_replica.specs.Putting.{HasPut, HasPutSome, KeepsWorn};
ghost use Rattle.h5w_replica.specs.Rings.{ring_under};
ghost use Rattle.rtrb.specs.Ring.{known_items, received};

use crate::batch::{Batch, InOrder, Portion};
use crate::feed::Feed;
use crate::pieces::Pieces;
use crate::putting::{put_from, put_pieces};
use crate::refusal::FollowError;
use h5w_image::Journal;
use h5w_shared::{Note, ReaderSeat, SharedImage, Worn, WriterSeat};
use rtrb::{Consumer, Producer};
use std::alloc::Global;
use std::marker::Model;
use std::sync::Wait;

/// The end of a mirror that writes the second image, piece by piece as the first was written.
#[derive(Drop)]
pub struct Follow {
    /// Of the first image.
    seat: ReaderSeat,
    /// Of the second.
    second: WriterSeat,
    consumer: Consumer<Batch, Global, InOrder>,
    /// Lists whose pieces were written on the second image: their memory is for others.
    spares: Producer<Pieces>,
    /// What waits for the next step. Its note was met.
    kept: Option<Portion>,
}

impl Model for Follow {
    ghost use Rattle.rtrb.specs.Ring.{known_items, received};
    ghost use Rattle.h5w_replica.specs.Batches.{batches_in};
    ghost use Rattle.h5w_replica.specs.Follows.{FollowView, IsFollow};
    ghost use Rattle.h5w_replica.specs.Rings.{ring_under};

    ghost Value = { FollowView };

    ghost view = { λ f. record { seat = f.seat; second = f.second; got = batches_in (received f.consumer); known = known_items f.consumer; kept = f.kept; ring = ring_under f.consumer } };

    ghost invariant = { λ f. IsFollow f.seat f.second (received f.consumer) f.kept };
}

/// The memory of a portion is for others. The answer is how many pieces it had.
fn spare(spares: &mut Producer<Pieces>, portion: Portion) -> u64
    ensures { result ≡ length portion.pieces }
{
    let count = portion.pieces.len();
    let _full = spares.push(portion.pieces);
    count
}

impl Follow {
    /// The follower of an image that nobody wrote yet, through a ring whose first item came through.
    pub(crate) fn of(
        seat: ReaderSeat,
        second: WriterSeat,
        consumer: Consumer<Batch, Global, InOrder>,
        spares: Producer<Pieces>,
    ) -> Follow
        requires new { second.seen ≡ [] }
        requires leads { Leads seat.image (received consumer) }
        ensures seats { (result.seat ≡ seat) × (result.second ≡ second) }
        ensures none { (result.got ≡ batches_in (received consumer)) × (result.known ≡ known_items consumer) × (result.kept ≡ None) }
        ensures ring { result.ring ≡ ring_under consumer }
    {
        Follow {
            seat,
            second,
            consumer,
            spares,
            kept: None,
        }
    }

    /// How many pieces the second image has.
    pub fn seen(&self) -> u64
        ensures seen { result ≡ length self.now.second.seen }
        ensures mirrored { Mirrored self.now.seat.seen self.now.second.seen }
    {
        self.second.seen()
    }

    /// A reader's seat on the second image that knows all its pieces. Waits for nobody.
    pub fn reader(&mut self, second: &SharedImage) -> ReaderSeat
        requires { self.old.second.image ≡ second.now }
        ensures same { self.new ≡ self.old }
        ensures seat { result ≡ reader_of self.old.second }
        ensures mirrored { Mirrored self.new.seat.seen self.new.second.seen }
    {
        self.second.seat(second)
    }

    /// Takes in a note of the second image: what it has seen begins the second history. Waits for nobody.
    pub fn meet(&mut self, second: &SharedImage, note: Note)
        requires image { self.old.second.image ≡ second.now }
        requires note { note.image ≡ second.now }
        ensures same { self.new ≡ self.old }
        ensures begins { StartsWith self.new.second.seen note.seen }
        ensures mirrored { Mirrored self.new.seat.seen self.new.second.seen }
    {
        self.second.meet(second, note);
    }

    /// A note of what its seat has seen of the first image. Waits for nobody.
    pub fn note(&mut self, first: &SharedImage) -> Note
        requires { self.old.seat.image ≡ first.now }
        ensures same { self.new ≡ self.old }
        ensures note { result ≡ note_of self.old.seat }
        ensures mirrored { Mirrored self.new.seat.seen self.new.second.seen }
    {
        self.seat.note(first)
    }

    /// The batch that was kept, or the next one out of the ring, whose note is met. It is kept no more.
    fn next(&mut self, first: &SharedImage) -> Option<Portion>
        requires { self.old.seat.image ≡ first.now }
        ensures same { self.new ≡ record self.old { seat = record (self.old.seat) { seen = self.new.seat.seen }; got = self.new.got; known = self.new.known; kept = None } }
        ensures grown { StartsWith self.new.seat.seen self.old.seat.seen }
        ensures mirrored { Mirrored self.new.seat.seen self.new.second.seen }
        ensures taken { MatchOption result ((self.old.kept ≡ None) × (self.old.known ≡ []) × (self.new ≡ self.old)) (λ p. Takes self.old self.new p × IsPartOf self.new.seat.seen p) }
    {
        if let Some(portion) = self.kept.take() {
            return Some(portion);
        }
        let Ok(batch) = self.consumer.pop() else {
            return None;
        };
        let Batch { portion, note } = batch;
        self.seat.meet(first, note);
        Some(portion)
    }

    /// Takes on one batch at most, meets its note, and writes those of its pieces that the second image lacks. The answer is how many pieces
    /// the batch has. 0: no batch is kept, and none was known to be in the ring. May wait for turns.
    pub fn step<R: Wait>(
        &mut self,
        rt: &R,
        first: &SharedImage,
        second: &SharedImage,
    ) -> Result<u64, FollowError>
        requires first { self.old.seat.image ≡ first.now }
        requires second { self.old.second.image ≡ second.now }
        ensures same { (self.new.seat ≡ record (self.old.seat) { seen = self.new.seat.seen }) × (self.new.second.image ≡ self.old.second.image) × (self.new.ring ≡ self.old.ring) }
        ensures grown { StartsWith self.new.seat.seen self.old.seat.seen × StartsWith self.new.second.seen self.old.second.seen }
        ensures took { IfOk result (λ n. (n ≡ 0) ⊎ HasStepped n self.old self.new) }
        ensures none { result ≡ Ok 0 → (self.old.kept ≡ None) × (self.old.known ≡ []) × (self.new ≡ self.old) }
        ensures gap { (a b : ℕ) → result ≡ Err (FollowError.Gap a b) → HasGap a b self.old self.new }
        ensures failed { result ≡ Err FollowError.Failed → HasKept image.Failed self.old self.new }
        ensures memory { result ≡ Err FollowError.OutOfMemory → HasKept image.OutOfMemory self.old self.new }
        ensures calm { result ≢ Err FollowError.Failed → self.new.second.faults ≡ self.old.second.faults }
        ensures mirrored { Mirrored self.new.seat.seen self.new.second.seen }
    {
        let Some(portion) = self.next(first) else {
            return Ok(0);
        };
        let have = self.second.seen();
        if portion.first > have {
            return Err(FollowError::Gap {
                first: portion.first,
                have,
            });
        }
        let skip = have - portion.first;
        match put_pieces(rt, second, &mut self.second, &portion.pieces, skip) {
            Ok(()) => Ok(spare(&mut self.spares, portion)),
            Err(error) => {
                self.kept = Some(portion);
                Err(FollowError::from(error))
            }
        }
    }

    /// With both ends on one thread: all that the ring took is known. Takes no memory, and waits for nobody.
    pub fn beside(&mut self, feed: &mut Feed)
        requires { feed.old.ring ≡ self.old.ring }
        ensures known { self.new.got ++ self.new.known ≡ feed.new.took }
        ensures follow { self.new ≡ record self.old { known = self.new.known } }
        ensures feed { feed.new ≡ record feed.old { free = feed.new.free } }
        ensures free { feed.old.free ≤ feed.new.free }
        ensures mirrored { Mirrored self.new.seat.seen self.new.second.seen }
    {
        self.consumer.slots_beside(&mut feed.producer);
    }

    /// Meets the note, and writes the pieces of the journal that the second image lacks. May wait for turns.
    pub fn catch_up<R: Wait>(
        &mut self,
        rt: &R,
        first: &SharedImage,
        second: &SharedImage,
        journal: &Journal,
        note: Note,
    ) -> Result<(), FollowError>
        requires first { self.old.seat.image ≡ first.now }
        requires second { self.old.second.image ≡ second.now }
        requires note { note.image ≡ first.now }
        requires list { journal.now.writes ≡ note.seen }
        requires short { AreShort journal.now.writes }
        ensures same { self.new ≡ record self.old { seat = record (self.old.seat) { seen = self.new.seat.seen }; second = self.new.second } }
        ensures image { self.new.second.image ≡ self.old.second.image }
        ensures grown { StartsWith self.new.seat.seen self.old.seat.seen }
        ensures whole { OnOk result (StartsWith self.new.second.seen journal.now.writes) }
        ensures put { OnOk result (HasPut (drop (length self.old.second.seen) journal.now.writes) self.old.second self.new.second) }
        ensures gap { (a b : ℕ) → result ≢ Err (FollowError.Gap a b) }
        ensures some { (e : _) → result ≡ Err (follow_error e) → HasPutSome (drop (length self.old.second.seen) journal.now.writes) e self.old.second self.new.second }
        ensures mirrored { Mirrored self.new.seat.seen self.new.second.seen }
    {
        self.seat.meet(first, note);
        let have = self.second.seen();
        put_from(rt, second, &mut self.second, journal, have)?;
        Ok(())
    }

    /// What shows that a seat of its two was shown the ticket word at 2^63. Err exactly where the counts of faults of both are 0.
    pub fn worn(self) -> Result<Worn, Follow>
        ensures { MatchResult result (λ w. KeepsWorn self.seat w ⊎ KeepsWorn self.second w) (λ f. (self.seat.faults ≡ 0) × (self.second.faults ≡ 0) × (f ≡ self)) }
    {
        let Follow {
            seat,
            second,
            consumer,
            spares,
            kept,
        } = self;
        let seat = match seat.worn() {
            Ok(worn) => return Ok(worn),
            Err(seat) => seat,
        };
        match second.worn() {
            Ok(worn) => Ok(worn),
            Err(second) => Err(Follow {
                seat,
                second,
                consumer,
                spares,
                kept,
            }),
        }
    }
}
