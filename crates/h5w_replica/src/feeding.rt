ghost use Rattle.std.specs.Prelude.{◌≡◌, ◌≤◌, ◌+◌, ◌∷◌, [], false, true, length, refl, Err, OnErr, OnOk};
ghost use Rattle.h5w_model.specs.Causes.{Rose};
ghost use Rattle.h5w_model.specs.Numbers.{range};
ghost use Rattle.h5w_image.specs.View.{Looked, Same, Wrote};
ghost use Rattle.h5w_shared.specs.Seats.{bytes_of, seen_through};
ghost use Rattle.h5w_replica.specs.Feeds.{FailedFeed, HasRoomFed, IsFed, fed_seat, with_piece};

use crate::feed::Feed;
use h5w_image::{Failed, ImageError, PieceRead, PieceWrite};
use h5w_model::{Piece, Write};
use h5w_shared::SharedImage;
use std::sync::Wait;

/// The first image of a mirror through its feed. Each call may wait for one turn.
#[derive(Drop)]
pub struct Feeding<'a, R: Wait> {
    pub rt: &'a R,
    pub first: &'a SharedImage,
    pub feed: &'a mut Feed,
    pub ghost seated: { feed.now.seat.image ≡ first.now },
}

impl<'a, R: Wait> PieceRead for Feeding<'a, R> {
    ghost view = { λ s. seen_through true s.feed.ghost_name (fed_seat s.feed.now) };

    /// The bytes of the image after all pieces. Failed: the seat was shown the ticket word at 2^63, and counts it.
    fn look(&mut self, at: u64, len: usize, out: &mut Piece) -> Result<(), Failed>
        requires { len ≤ 512 }
        ensures looked { Looked (seen_through true self.old.feed.ghost_name (fed_seat self.old.feed.now)) (seen_through true self.new.feed.ghost_name (fed_seat self.new.feed.now)) }
        ensures shows { OnOk result (out.new ≡ range (bytes_of self.new.feed.now.seat) at len) }
        ensures bound { OnOk result (length out.new ≤ len) }
        ensures failed { OnErr result (out.new ≡ out.old) }
        ensures cause { OnErr result (Rose self.old.feed.now.seat.faults self.new.feed.now.seat.faults) }
        ensures feed { OnOk result (self.new.feed.now ≡ self.old.feed.now) }
        ensures worn { OnOk result (self.old.feed.now.seat.worn ≡ false) }
        ensures refused { OnErr result (FailedFeed self.old.feed.now self.new.feed.now) }
        ensures fed { IsFed self.new.feed.now }
    {
        self.feed.look(self.rt, self.first, at, len, out)
    }
}

impl<'a, R: Wait> PieceWrite for Feeding<'a, R> {
    ghost writes_alone = { λ s. refl };

    /// Makes room for the pieces in the image, and for as many that no batch has. Failed: the seat was shown the ticket word at 2^63, and
    /// counts it.
    fn reserve(&mut self, pieces: u64, end: u64) -> Result<(), ImageError>
        ensures same { Same (seen_through true self.old.feed.ghost_name (fed_seat self.old.feed.now)) (seen_through true self.new.feed.ghost_name (fed_seat self.new.feed.now)) }
        ensures pieces { OnOk result (pieces ≤ self.new.feed.now.room) }
        ensures end { OnOk result (end ≤ self.new.feed.now.seat.end) }
        ensures cause { result ≡ Err ImageError.Failed → Rose self.old.feed.now.seat.faults self.new.feed.now.seat.faults }
        ensures made { OnOk result (HasRoomFed pieces end self.old.feed.now self.new.feed.now) }
        ensures worn { OnOk result (self.old.feed.now.seat.worn ≡ false) }
        ensures refused { result ≡ Err ImageError.Failed → FailedFeed self.old.feed.now self.new.feed.now }
        ensures memory { result ≡ Err ImageError.OutOfMemory → self.new.feed.now ≡ self.old.feed.now }
        ensures fed { IsFed self.new.feed.now }
    {
        self.feed.reserve(self.rt, self.first, pieces, end)
    }

    /// The write is the history's last, once, and no batch has it yet. Failed: the seat was shown the ticket word at 2^63, and counts it.
    fn write(&mut self, w: &Write) -> Result<(), Failed>
        requires room { 1 ≤ self.old.feed.now.room }
        requires end { w.now.at + length w.now.piece ≤ self.old.feed.now.seat.end }
        ensures wrote { OnOk result (Wrote (w.now ∷ []) (seen_through true self.old.feed.ghost_name (fed_seat self.old.feed.now)) (seen_through true self.new.feed.ghost_name (fed_seat self.new.feed.now))) }
        ensures same { OnErr result (Same (seen_through true self.old.feed.ghost_name (fed_seat self.old.feed.now)) (seen_through true self.new.feed.ghost_name (fed_seat self.new.feed.now))) }
        ensures cause { OnErr result (Rose self.old.feed.now.seat.faults self.new.feed.now.seat.faults) }
        ensures feed { OnOk result (self.new.feed.now ≡ with_piece w.now self.old.feed.now) }
        ensures worn { OnOk result (self.old.feed.now.seat.worn ≡ false) }
        ensures refused { OnErr result (FailedFeed self.old.feed.now self.new.feed.now) }
        ensures fed { IsFed self.new.feed.now }
    {
        self.feed.write(self.rt, self.first, w)
    }
}
