//! The way from the superblock to the messages of the root header.
ghost use Rattle.std.specs.Prelude.{◌≡◌, ◌+◌, ◌<◌, ◌≤◌, ◌^◌, min, length, Some, Ok, IfOk};
ghost use Rattle.h5w_model.specs.Datasets.{is_swmr, super_of};

use crate::view::root_view;
use crate::walk::{Block, Walk};
use h5w_dataset::{FoundMessage, header_refusal, super_refusal};
use h5w_lookup::{Gather, Look, Outcome, Progress, look_at};
use h5w_model::{Bytes, OutOfMemory, PIECE, Piece, Prefix, ReadError};
use h5w_ohdr::prefix;
use h5w_super::{LEN, Super, decode};
use std::alloc::Global;

/// What is awaited.
#[derive(Drop)]
pub enum Opening {
    /// The superblock.
    Super(Gather),
    /// The first look at the root header, which is at this place.
    Root(u64),
    /// What of the root header's chunk 0 is behind its first look.
    Rest(Prefix, Gather),
    /// A continuation block of it.
    Visit(Block),
}

/// What an opening comes to: the messages of the root header, or a further look.
pub type Opened = Outcome<Vec<FoundMessage>, Opening>;

/// Whether the flags say open for writing and open for SWMR writing, or neither. In version 2 they say nothing.
fn is_swmr(s: &Super) -> bool
    ensures { result ≡ is_swmr s.now }
{
    s.version == 2 || s.flags % 2 == s.flags / 4 % 2
}

/// The superblock of a file that readers may open, or its refusal.
fn read_super(bytes: &[u8]) -> Result<Super, ReadError>
    ensures exact { result ≡ super_of bytes.now }
{
    let s = match decode(bytes) {
        Ok(s) => s,
        Err(error) => return Err(super_refusal(error)),
    };
    if !is_swmr(&s) {
        return Err(ReadError::NotSwmr { flags: s.flags });
    }
    Ok(s)
}

impl Opening {
    ghost use Rattle.h5w_model.specs.Programs.{next_look, fed};
    ghost use Rattle.h5w_lookup.specs.Looks.{look_of, IsWithinLook};
    ghost use Rattle.h5w_reader.specs.Opening.{opening, opened, root_messages, first_rest};

    /// Goes on from what counts of the first look at the root header.
    fn after_look(alloc: Global, place: u64, first: &Bytes) -> Result<Opened, OutOfMemory>
        requires inside { place + length first.now ≤ 2 ^ 64 }
        requires small { length first.now ≤ 512 }
        ensures { IfOk result (λ o. opened o ≡ first_rest place first.now) }
    {
        let bytes = first.as_slice();
        let p = match prefix(bytes) {
            Ok(p) => p,
            Err(error) => return Ok(Outcome::Refused(header_refusal(place, 0, error)?)),
        };
        if p.total <= PIECE as u64 {
            let walked = Walk::start(alloc, place, &p, bytes)?;
            return Ok(walked.map_looks(Opening::Visit));
        }
        if u64::MAX - place < PIECE as u64 {
            let walked = Walk::start(alloc, place, &p, bytes)?;
            return Ok(walked.map_looks(Opening::Visit));
        }
        let behind = place + PIECE as u64;
        let got = Vec::from_slice(alloc, bytes)?;
        let rest = Gather::new(place, got, behind, p.total - PIECE as u64);
        Ok(Outcome::Looks(Opening::Rest(p, rest)))
    }

    /// From the superblock on.
    pub fn new(alloc: Global) -> Opening
        ensures { opening result ≡ root_messages }
    {
        Opening::Super(Gather::new(0, Vec::new(alloc), 0, LEN as u64))
    }

    /// The next look.
    pub fn want(&self) -> Look
        ensures next { next_look (opening self.now) ≡ Some (look_of result) }
        ensures low { 1 ≤ result.len }
        ensures high { result.len ≤ 512 }
        ensures inside { result.at + result.len ≤ 2 ^ 64 }
    {
        match self {
            Opening::Super(gather) | Opening::Rest(_, gather) => gather.want(),
            Opening::Root(place) => look_at(*place),
            Opening::Visit(block) => block.want(),
        }
    }

    /// Goes on with the piece that the look gave.
    pub fn feed(self, alloc: Global, piece: &Piece) -> Result<Opened, OutOfMemory>
        requires { IsWithinLook (next_look (opening self)) (length piece.now) }
        ensures { IfOk result (λ o. opened o ≡ fed piece.now (opening self)) }
    {
        match self {
            Opening::Super(gather) => match gather.feed(piece)? {
                Progress::Looks(gather) => Ok(Outcome::Looks(Opening::Super(gather))),
                Progress::Done(bytes) => Ok(match read_super(&bytes) {
                    Ok(s) => Outcome::Looks(Opening::Root(s.root)),
                    Err(error) => Outcome::Refused(error),
                }),
            },
            Opening::Root(place) => {
                let first = root_view(alloc, piece)?;
                Opening::after_look(alloc, place, &first)
            }
            Opening::Rest(p, gather) => {
                let place = gather.start();
                match gather.feed(piece)? {
                    Progress::Looks(gather) => Ok(Outcome::Looks(Opening::Rest(p, gather))),
                    Progress::Done(bytes) => {
                        let walked = Walk::start(alloc, place, &p, &bytes)?;
                        Ok(walked.map_looks(Opening::Visit))
                    }
                }
            }
            Opening::Visit(block) => {
                let walked = block.feed(alloc, piece)?;
                Ok(walked.map_looks(Opening::Visit))
            }
        }
    }
}
