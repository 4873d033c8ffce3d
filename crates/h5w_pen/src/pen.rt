//! What writes an image: a seat alone, or the end of a mirror, which also sends the pieces on.
ghost use Rattle.std.specs.Prelude.{◌≡◌, ◌≤◌, ◌<◌, ◌-◌, ◌+◌, ◌++◌, ◌∷◌, [], length, refl, true, Err, IfOk, OnErr, OnOk};
ghost use Rattle.h5w_image.specs.View.{Looked, Same, Wrote};
ghost use Rattle.h5w_model.specs.Causes.{Rose};
ghost use Rattle.h5w_model.specs.Numbers.{range};
ghost use Rattle.h5w_replica.specs.Batches.{AreShort};
ghost use Rattle.h5w_replica.specs.Feeds.{FailedFeed, fed_seat, with_piece};
ghost use Rattle.h5w_shared.specs.Seats.{FailedSeat, HasMadeRoom, bytes_of, note_of, reader_of, seen_through};
ghost use Rattle.h5w_shared.specs.Turns.{StartsWith};

use h5w_image::{Failed, ImageError, Journal, PieceRead, PieceWrite};
use h5w_model::{Piece, Write};
use h5w_replica::{Feed, Feeding, FollowError};
use h5w_shared::{Note, ReaderSeat, SharedImage, Worn, WriterSeat, Writing};
use std::marker::Model;
use std::sync::Wait;

/// What writes: a seat, or the end of a mirror.
#[derive(Drop)]
enum Hand {
    Alone(WriterSeat),
    Fed(Feed),
}

/// The one that writes an image, whether or not another image follows it. Contracts see its seat.
#[derive(Drop)]
pub struct Pen {
    hand: Hand,
}

impl Model for Pen {
    ghost use Rattle.h5w_replica.specs.Batches.{AreShort};
    ghost use Rattle.h5w_shared.specs.Seats.{SeatView};
    ghost use Rattle.h5w_pen.specs.Pens.{seat_of};

    ghost Value = { SeatView };

    ghost view = { λ p. seat_of p.hand };

    ghost invariant = { λ p. AreShort (seat_of p.hand).seen };
}

/// Looks through a seat.
fn look_alone<R: Wait>(
    rt: &R,
    image: &SharedImage,
    seat: &mut WriterSeat,
    at: u64,
    len: usize,
    out: &mut Piece,
) -> Result<(), Failed>
    requires image { seat.old.image ≡ image.now }
    requires piece { len ≤ 512 }
    ensures same { OnOk result (seat.new ≡ seat.old) }
    ensures shows { OnOk result (out.new ≡ range (bytes_of seat.new) at len) }
    ensures bound { OnOk result (length out.new ≤ len) }
    ensures refused { OnErr result (FailedSeat seat.old seat.new × (out.new ≡ out.old)) }
    ensures short { AreShort seat.old.seen → AreShort seat.new.seen }
{
    Writing { rt, image, seat }.look(at, len, out)
}

/// Looks through the end of a mirror.
fn look_fed<R: Wait>(
    rt: &R,
    first: &SharedImage,
    feed: &mut Feed,
    at: u64,
    len: usize,
    out: &mut Piece,
) -> Result<(), Failed>
    requires image { (fed_seat feed.old).image ≡ first.now }
    requires piece { len ≤ 512 }
    ensures same { OnOk result (fed_seat feed.new ≡ fed_seat feed.old) }
    ensures shows { OnOk result (out.new ≡ range (bytes_of (fed_seat feed.new)) at len) }
    ensures bound { OnOk result (length out.new ≤ len) }
    ensures refused { OnErr result (FailedSeat (fed_seat feed.old) (fed_seat feed.new) × (out.new ≡ out.old)) }
    ensures short { AreShort (fed_seat feed.old).seen → AreShort (fed_seat feed.new).seen }
{
    Feeding { rt, first, feed }.look(at, len, out)
}

/// Makes room through a seat.
fn reserve_alone<R: Wait>(
    rt: &R,
    image: &SharedImage,
    seat: &mut WriterSeat,
    pieces: u64,
    end: u64,
) -> Result<(), ImageError>
    requires { seat.old.image ≡ image.now }
    ensures made { OnOk result (HasMadeRoom pieces end seat.old seat.new) }
    ensures refused { result ≡ Err ImageError.Failed → FailedSeat seat.old seat.new }
    ensures memory { result ≡ Err ImageError.OutOfMemory → seat.new ≡ seat.old }
    ensures short { AreShort seat.old.seen → AreShort seat.new.seen }
{
    Writing { rt, image, seat }.reserve(pieces, end)
}

/// Makes room through the end of a mirror.
fn reserve_fed<R: Wait>(
    rt: &R,
    first: &SharedImage,
    feed: &mut Feed,
    pieces: u64,
    end: u64,
) -> Result<(), ImageError>
    requires { (fed_seat feed.old).image ≡ first.now }
    ensures made { OnOk result (HasMadeRoom pieces end (fed_seat feed.old) (fed_seat feed.new)) }
    ensures refused { result ≡ Err ImageError.Failed → FailedSeat (fed_seat feed.old) (fed_seat feed.new) }
    ensures memory { result ≡ Err ImageError.OutOfMemory → fed_seat feed.new ≡ fed_seat feed.old }
    ensures short { AreShort (fed_seat feed.old).seen → AreShort (fed_seat feed.new).seen }
{
    Feeding { rt, first, feed }.reserve(pieces, end)
}

/// Writes a piece through a seat.
fn write_alone<R: Wait>(
    rt: &R,
    image: &SharedImage,
    seat: &mut WriterSeat,
    w: &Write,
) -> Result<(), Failed>
    requires image { seat.old.image ≡ image.now }
    requires pieces { 1 ≤ seat.old.pieces }
    requires end { w.now.at + length w.now.piece ≤ seat.old.end }
    ensures wrote { OnOk result (seat.new ≡ record seat.old { seen = seat.old.seen ++ w.now ∷ []; pieces = seat.old.pieces - 1 }) }
    ensures refused { OnErr result (FailedSeat seat.old seat.new) }
    ensures short { AreShort seat.old.seen → AreShort seat.new.seen }
{
    // Its bound keeps all pieces short.
    let _len = w.piece.len();
    Writing { rt, image, seat }.write(w)
}

/// Writes a piece through the end of a mirror.
fn put_fed<R: Wait>(rt: &R, first: &SharedImage, feed: &mut Feed, w: &Write) -> Result<(), Failed>
    requires image { feed.old.seat.image ≡ first.now }
    requires pieces { 1 ≤ feed.old.room }
    requires end { w.now.at + length w.now.piece ≤ feed.old.seat.end }
    ensures wrote { OnOk result (feed.new ≡ with_piece w.now feed.old) }
    ensures refused { OnErr result (FailedFeed feed.old feed.new) }
{
    Feeding { rt, first, feed }.write(w)
}

/// Writes a piece through the end of a mirror, which sends it on later.
fn write_fed<R: Wait>(rt: &R, first: &SharedImage, feed: &mut Feed, w: &Write) -> Result<(), Failed>
    requires image { (fed_seat feed.old).image ≡ first.now }
    requires pieces { 1 ≤ (fed_seat feed.old).pieces }
    requires end { w.now.at + length w.now.piece ≤ (fed_seat feed.old).end }
    ensures wrote { OnOk result (fed_seat feed.new ≡ record (fed_seat feed.old) { seen = (fed_seat feed.old).seen ++ w.now ∷ []; pieces = (fed_seat feed.old).pieces - 1 }) }
    ensures refused { OnErr result (FailedSeat (fed_seat feed.old) (fed_seat feed.new)) }
    ensures short { AreShort (fed_seat feed.old).seen → AreShort (fed_seat feed.new).seen }
{
    // Its bound keeps all pieces short.
    let _len = w.piece.len();
    put_fed(rt, first, feed, w)?;
    Ok(())
}

/// Sends on what is unsent. What is not sent for want of memory goes with what comes later.
fn send_fed(first: &SharedImage, feed: &mut Feed)
    requires { (fed_seat feed.old).image ≡ first.now }
    ensures same { fed_seat feed.new ≡ fed_seat feed.old }
    ensures short { AreShort (fed_seat feed.old).seen → AreShort (fed_seat feed.new).seen }
{
    let _ = feed.send(first);
}

/// Sends on what is unsent, where the other end awaits it.
fn offer_fed(first: &SharedImage, feed: &mut Feed)
    requires { (fed_seat feed.old).image ≡ first.now }
    ensures same { fed_seat feed.new ≡ fed_seat feed.old }
    ensures short { AreShort (fed_seat feed.old).seen → AreShort (fed_seat feed.new).seen }
{
    if feed.is_awaited() {
        send_fed(first, feed);
    }
}

/// A copy of all pieces through a seat, and a note of them.
fn journal_alone<R: Wait>(
    rt: &R,
    image: &SharedImage,
    seat: &mut WriterSeat,
) -> Result<(Journal, Note), ImageError>
    requires { seat.old.image ≡ image.now }
    ensures copied { IfOk result (λ r. (r.0.writes ≡ seat.new.seen) × (r.1 ≡ note_of seat.new)) }
    ensures same { OnOk result (seat.new ≡ seat.old) }
    ensures refused { result ≡ Err ImageError.Failed → FailedSeat seat.old seat.new }
    ensures memory { result ≡ Err ImageError.OutOfMemory → seat.new ≡ seat.old }
    ensures short { AreShort seat.old.seen → AreShort seat.new.seen }
    ensures all { AreShort seat.old.seen → IfOk result (λ r. AreShort r.0.writes) }
{
    let journal = seat.history(rt, image)?;
    Ok((journal, seat.note(image)))
}

/// A copy of all pieces through the end of a mirror, and a note of them.
fn journal_fed<R: Wait>(
    rt: &R,
    first: &SharedImage,
    feed: &mut Feed,
) -> Result<(Journal, Note), ImageError>
    requires { (fed_seat feed.old).image ≡ first.now }
    ensures copied { IfOk result (λ r. (r.0.writes ≡ (fed_seat feed.new).seen) × (r.1 ≡ note_of (fed_seat feed.new))) }
    ensures same { OnOk result (fed_seat feed.new ≡ fed_seat feed.old) }
    ensures refused { result ≡ Err ImageError.Failed → FailedSeat (fed_seat feed.old) (fed_seat feed.new) }
    ensures memory { result ≡ Err ImageError.OutOfMemory → fed_seat feed.new ≡ fed_seat feed.old }
    ensures short { AreShort (fed_seat feed.old).seen → AreShort (fed_seat feed.new).seen }
    ensures all { AreShort (fed_seat feed.old).seen → IfOk result (λ r. AreShort r.0.writes) }
{
    match feed.journal(rt, first) {
        Ok(copied) => Ok(copied),
        Err(FollowError::Failed) => Err(ImageError::Failed),
        Err(FollowError::OutOfMemory) => Err(ImageError::OutOfMemory),
        Err(FollowError::Gap { .. }) => unreachable!(),
    }
}

impl Pen {
    /// A seat that has written nothing yet.
    pub fn alone(seat: WriterSeat) -> Pen
        requires { seat.seen ≡ [] }
        ensures { result ≡ seat }
    {
        Pen {
            hand: Hand::Alone(seat),
        }
    }

    /// The end of a mirror through which nothing was written yet.
    pub fn fed(feed: Feed) -> Pen
        requires { (fed_seat feed).seen ≡ [] }
        ensures { result ≡ fed_seat feed }
    {
        Pen {
            hand: Hand::Fed(feed),
        }
    }

    /// How many pieces it has seen: all of them.
    pub fn seen(&self) -> u64
        ensures { result ≡ length self.now.seen }
    {
        match &self.hand {
            Hand::Alone(seat) => seat.seen(),
            Hand::Fed(feed) => feed.seen(),
        }
    }

    /// A reader's seat that knows what this one knows. Waits for nobody.
    pub fn seat(&mut self, image: &SharedImage) -> ReaderSeat
        requires { self.old.image ≡ image.now }
        ensures same { self.new ≡ self.old }
        ensures seat { result ≡ reader_of self.old }
    {
        match &mut self.hand {
            Hand::Alone(seat) => seat.seat(image),
            Hand::Fed(feed) => feed.seat(image),
        }
    }

    /// Takes in a note: what it has seen begins what this one has seen. Waits for nobody.
    pub fn meet(&mut self, image: &SharedImage, note: Note)
        requires image { self.old.image ≡ image.now }
        requires note { note.image ≡ image.now }
        ensures same { self.new ≡ self.old }
        ensures begins { StartsWith self.new.seen note.seen }
    {
        match &mut self.hand {
            Hand::Alone(seat) => seat.meet(image, note),
            Hand::Fed(feed) => feed.meet(image, note),
        }
    }

    /// Puts the image's bytes from `at` on into `out`, after all pieces.
    fn look<R: Wait>(
        &mut self,
        rt: &R,
        image: &SharedImage,
        at: u64,
        len: usize,
        out: &mut Piece,
    ) -> Result<(), Failed>
        requires image { self.old.image ≡ image.now }
        requires piece { len ≤ 512 }
        ensures same { OnOk result (self.new ≡ self.old) }
        ensures shows { OnOk result (out.new ≡ range (bytes_of self.new) at len) }
        ensures bound { OnOk result (length out.new ≤ len) }
        ensures refused { OnErr result (FailedSeat self.old self.new × (out.new ≡ out.old)) }
    {
        match &mut self.hand {
            Hand::Alone(seat) => look_alone(rt, image, seat, at, len, out),
            Hand::Fed(feed) => look_fed(rt, image, feed, at, len, out),
        }
    }

    /// Makes room for so many pieces that end by `end`.
    pub fn reserve<R: Wait>(
        &mut self,
        rt: &R,
        image: &SharedImage,
        pieces: u64,
        end: u64,
    ) -> Result<(), ImageError>
        requires { self.old.image ≡ image.now }
        ensures made { OnOk result (HasMadeRoom pieces end self.old self.new) }
        ensures refused { result ≡ Err ImageError.Failed → FailedSeat self.old self.new }
        ensures memory { result ≡ Err ImageError.OutOfMemory → self.new ≡ self.old }
    {
        match &mut self.hand {
            Hand::Alone(seat) => reserve_alone(rt, image, seat, pieces, end),
            Hand::Fed(feed) => reserve_fed(rt, image, feed, pieces, end),
        }
    }

    /// Writes a piece.
    pub fn write<R: Wait>(&mut self, rt: &R, image: &SharedImage, w: &Write) -> Result<(), Failed>
        requires image { self.old.image ≡ image.now }
        requires pieces { 1 ≤ self.old.pieces }
        requires end { w.now.at + length w.now.piece ≤ self.old.end }
        ensures wrote { OnOk result (self.new ≡ record self.old { seen = self.old.seen ++ w.now ∷ []; pieces = self.old.pieces - 1 }) }
        ensures refused { OnErr result (FailedSeat self.old self.new) }
    {
        match &mut self.hand {
            Hand::Alone(seat) => write_alone(rt, image, seat, w),
            Hand::Fed(feed) => write_fed(rt, image, feed, w),
        }
    }

    /// Where another image follows, sends on in one batch what was written since. Waits for nobody.
    pub fn send(&mut self, image: &SharedImage)
        requires { self.old.image ≡ image.now }
        ensures same { self.new ≡ self.old }
    {
        match &mut self.hand {
            Hand::Alone(_) => {}
            Hand::Fed(feed) => send_fed(image, feed),
        }
    }

    /// The same where all that was sent before came to the other image's end; else what was written since goes with what comes later. Waits for
    /// nobody.
    pub fn offer(&mut self, image: &SharedImage)
        requires { self.old.image ≡ image.now }
        ensures same { self.new ≡ self.old }
    {
        match &mut self.hand {
            Hand::Alone(_) => {}
            Hand::Fed(feed) => offer_fed(image, feed),
        }
    }

    /// A copy of all pieces that were written, the oldest first, and a note of them. May wait for a turn.
    pub fn journal<R: Wait>(
        &mut self,
        rt: &R,
        image: &SharedImage,
    ) -> Result<(Journal, Note), ImageError>
        requires { self.old.image ≡ image.now }
        ensures copied { IfOk result (λ r. (r.0.writes ≡ self.new.seen) × (r.1 ≡ note_of self.new)) }
        ensures short { IfOk result (λ r. AreShort r.0.writes) }
        ensures same { OnOk result (self.new ≡ self.old) }
        ensures refused { result ≡ Err ImageError.Failed → FailedSeat self.old self.new }
        ensures memory { result ≡ Err ImageError.OutOfMemory → self.new ≡ self.old }
    {
        match &mut self.hand {
            Hand::Alone(seat) => journal_alone(rt, image, seat),
            Hand::Fed(feed) => journal_fed(rt, image, feed),
        }
    }

    /// What shows that a seat that counts a fault was shown the ticket word at 2^63.
    pub fn worn(self) -> Worn
        requires { 0 < self.faults }
    {
        match self.hand {
            Hand::Alone(seat) => match seat.worn() {
                Ok(worn) => worn,
                Err(_) => unreachable!(),
            },
            Hand::Fed(feed) => match feed.worn() {
                Ok(worn) => worn,
                Err(_) => unreachable!(),
            },
        }
    }
}

/// An image through the one that writes it. Each call may wait for one turn.
#[derive(Drop)]
pub struct Penned<'a, R: Wait> {
    pub rt: &'a R,
    pub image: &'a SharedImage,
    pub pen: &'a mut Pen,
    pub ghost seated: { pen.now.image ≡ image.now },
}

impl<'a, R: Wait> PieceRead for Penned<'a, R> {
    ghost view = { λ s. seen_through true s.pen.ghost_name s.pen.now };

    /// The bytes of the image after all pieces. Failed: the seat was shown the ticket word at 2^63, and counts it.
    fn look(&mut self, at: u64, len: usize, out: &mut Piece) -> Result<(), Failed>
        requires { len ≤ 512 }
        ensures looked { Looked (seen_through true self.old.pen.ghost_name self.old.pen.now) (seen_through true self.new.pen.ghost_name self.new.pen.now) }
        ensures shows { OnOk result (out.new ≡ range (bytes_of self.new.pen.now) at len) }
        ensures bound { OnOk result (length out.new ≤ len) }
        ensures failed { OnErr result (out.new ≡ out.old) }
        ensures cause { OnErr result (Rose self.old.pen.now.faults self.new.pen.now.faults) }
    {
        self.pen.look(self.rt, self.image, at, len, out)
    }
}

impl<'a, R: Wait> PieceWrite for Penned<'a, R> {
    ghost writes_alone = { λ s. refl };

    /// Failed: the seat was shown the ticket word at 2^63, and counts it.
    fn reserve(&mut self, pieces: u64, end: u64) -> Result<(), ImageError>
        ensures same { Same (seen_through true self.old.pen.ghost_name self.old.pen.now) (seen_through true self.new.pen.ghost_name self.new.pen.now) }
        ensures pieces { OnOk result (pieces ≤ self.new.pen.now.pieces) }
        ensures end { OnOk result (end ≤ self.new.pen.now.end) }
        ensures cause { result ≡ Err ImageError.Failed → Rose self.old.pen.now.faults self.new.pen.now.faults }
    {
        self.pen.reserve(self.rt, self.image, pieces, end)
    }

    /// The write is the history's last, once. Failed: the seat was shown the ticket word at 2^63, and counts it.
    fn write(&mut self, w: &Write) -> Result<(), Failed>
        requires pieces { 1 ≤ self.old.pen.now.pieces }
        requires end { w.now.at + length w.now.piece ≤ self.old.pen.now.end }
        ensures wrote { OnOk result (Wrote (w.now ∷ []) (seen_through true self.old.pen.ghost_name self.old.pen.now) (seen_through true self.new.pen.ghost_name self.new.pen.now)) }
        ensures same { OnErr result (Same (seen_through true self.old.pen.ghost_name self.old.pen.now) (seen_through true self.new.pen.ghost_name self.new.pen.now)) }
        ensures cause { OnErr result (Rose self.old.pen.now.faults self.new.pen.now.faults) }
    {
        self.pen.write(self.rt, self.image, w)
    }
}
