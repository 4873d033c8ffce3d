//! A block that is looked at in pieces.
ghost use Rattle.std.specs.Prelude.{◌≡◌, ◌+◌, ◌-◌, ◌<◌, ◌≤◌, ◌^◌, min, length, ℕ, true, false, Ok, Some, IfOk};

use crate::look::{Look, below_end};
use crate::outcome::Progress;
use h5w_model::{OutOfMemory, PIECE, Piece};

/// Bytes that were found, and the range of the image that is to be put behind them, in pieces of at most 512 bytes.
#[derive(Drop)]
pub struct Gather {
    /// Where the bytes begin.
    pub start: u64,
    /// Where the next look begins.
    place: u64,
    /// How many bytes are to be looked at, at least 1.
    pub rest: u64,
    got: Vec<u8>,
    ghost more: { 0 < rest },
    ghost inside: { place + rest ≤ 2 ^ 64 },
    ghost behind: { start + length got.items ≤ place },
}

/// What a piece makes of it: all bytes that the image has of the range, once none is left to be looked at.
pub type Gathered = Progress<Vec<u8>, Gather>;

impl Gather {
    ghost use Rattle.h5w_model.specs.Programs.{next_look, fed};
    ghost use Rattle.h5w_lookup.specs.Looks.{look_of};
    ghost use Rattle.h5w_lookup.specs.Gathering.{gathering, gathered, cut_behind, StartsAt};

    /// The range of `len` bytes from `place` on, behind the bytes `got`, which begin at `start`.
    pub fn new(start: u64, got: Vec<u8>, place: u64, len: u64) -> Gather
        requires some { 0 < len }
        requires behind { start + length got.items ≤ place }
        ensures left { gathering result ≡ cut_behind got.items place len }
        ensures start { result.start ≡ start }
    {
        Gather {
            start,
            place,
            rest: below_end(place, len),
            got,
        }
    }

    /// Where the bytes begin.
    pub fn start(&self) -> u64
        ensures { result ≡ self.now.start }
    {
        self.start
    }

    /// The next look.
    #[tactic(auto, using(crate::proofs::PieceLemmas::gather_wants))]
    pub fn want(&self) -> Look
        ensures next { next_look (gathering self.now) ≡ Some (look_of result) }
        ensures low { 1 ≤ result.len }
        ensures high { result.len ≤ 512 }
        ensures inside { result.at + result.len ≤ 2 ^ 64 }
    {
        Look {
            at: self.place,
            len: self.rest.min(PIECE as u64) as usize,
        }
    }

    /// Takes up a full piece behind which the range goes on; false where the piece may be the last.
    #[tactic(auto, using(crate::proofs::PieceLemmas::gather_more))]
    pub fn absorb(&mut self, piece: &Piece) -> Result<bool, OutOfMemory>
        ensures more { result ≡ Ok true → gathering self.new ≡ fed piece.now (gathering self.old) }
        ensures start { self.new.start ≡ self.old.start }
        ensures same { result ≡ Ok false → self.new ≡ self.old }
    {
        if piece.len() < PIECE || self.rest <= PIECE as u64 {
            return Ok(false);
        }
        self.got.extend_from_slice(piece.as_slice())?;
        self.place += PIECE as u64;
        self.rest -= PIECE as u64;
        Ok(true)
    }

    /// Goes on with the piece that the look gave.
    #[tactic(auto, using(crate::proofs::PieceLemmas::gather_last, crate::proofs::PieceLemmas::gather_short, crate::proofs::PieceLemmas::gather_more))]
    pub fn feed(self, piece: &Piece) -> Result<Gathered, OutOfMemory>
        requires { length piece.now ≤ min 512 self.rest }
        ensures left { IfOk result (λ g. gathered g ≡ fed piece.now (gathering self)) }
        ensures start { IfOk result (λ g. StartsAt self.start g) }
    {
        let Gather {
            start,
            place,
            rest,
            mut got,
        } = self;
        got.extend_from_slice(piece.as_slice())?;
        if piece.len() < PIECE || rest <= PIECE as u64 {
            return Ok(Progress::Done(got));
        }
        Ok(Progress::Looks(Gather {
            start,
            place: place + PIECE as u64,
            rest: rest - PIECE as u64,
            got,
        }))
    }
}
