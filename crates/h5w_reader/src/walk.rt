//! The messages of a header and of its continuation blocks, visited in order.
ghost use Rattle.std.specs.Prelude.{◌≡◌, ◌+◌, ◌-◌, ◌<◌, ◌≤◌, ◌^◌, ◌∷◌, length, Some, IfOk};

use h5w_bytes::number;
use h5w_dataset::{FoundMessage, header_refusal, put_before};
use h5w_lookup::{Gather, Look, Outcome, Progress};
use h5w_model::{BlockFault, HeaderError, OutOfMemory, Piece, Prefix, ReadError};
use h5w_ohdr::kind::CONTINUATION;
use h5w_ohdr::{BLOCKS, LEAST, block, messages};
use std::alloc::Global;

/// How far the visit of a header's messages came.
#[derive(Drop)]
pub struct Walk {
    /// The place of the header.
    pub header: u64,
    /// Whether its messages have creation orders.
    pub tracked: bool,
    /// How many continuation blocks may still come.
    pub more: u8,
    /// The messages that were visited.
    pub done: Vec<FoundMessage>,
    /// The messages that come next, the last of all first.
    pub next: Vec<FoundMessage>,
}

/// A visit that waits for a continuation block.
#[derive(Drop)]
pub struct Block {
    walk: Walk,
    /// How many bytes the block has.
    len: u64,
    gather: Gather,
}

/// What a visit comes to: all messages, in order, or a block that is to be looked at first.
pub type Walked = Outcome<Vec<FoundMessage>, Block>;

impl Walk {
    ghost use Rattle.h5w_model.specs.Headers.{block_at, messages_at};
    ghost use Rattle.h5w_dataset.specs.Founds.{found_of, founds, stack};
    ghost use Rattle.h5w_reader.specs.Walking.{walked, walk_left, walk_rest, block_left, chunk_0_rest};

    /// Begins with the messages of chunk 0 of the header at `place`, of which these bytes were found.
    pub fn start(alloc: Global, place: u64, p: &Prefix, bytes: &[u8]) -> Result<Walked, OutOfMemory>
        requires { place + length bytes.now ≤ 2 ^ 64 }
        ensures { IfOk result (λ w. walked w ≡ chunk_0_rest place p.now bytes.now) }
    {
        let got = bytes.len();
        match messages(alloc, bytes) {
            Ok(msgs) => {
                let mut next = Vec::new(alloc);
                put_before(&mut next, msgs, place, got, true)?;
                let walk = Walk {
                    header: place,
                    tracked: p.tracked,
                    more: BLOCKS,
                    done: Vec::new(alloc),
                    next,
                };
                walk.go_on(alloc)
            }
            Err(error) => Ok(Outcome::Refused(header_refusal(place, got, error)?)),
        }
    }

    /// Goes on up to the next continuation message, or to the end.
    pub fn go_on(self, alloc: Global) -> Result<Walked, OutOfMemory>
        ensures { IfOk result (λ w. walked w ≡ walk_left self) }
    {
        let Walk {
            header,
            tracked,
            more,
            mut done,
            mut next,
        } = self;
        while let Some(m) = next.pop() {
            if m.kind == CONTINUATION {
                let walk = Walk {
                    header,
                    tracked,
                    more,
                    done,
                    next,
                };
                return Ok(walk.visit(alloc, &m));
            }
            done.push(m)?;
        }
        Ok(Outcome::Done(done))
    }

    /// Goes on at a continuation message.
    fn visit(self, alloc: Global, m: &FoundMessage) -> Walked
        requires { m.now.kind ≡ 16 }
        ensures { walked result ≡ walk_rest self.more self.header self.tracked (founds self.done.items) (found_of m.now ∷ stack self.next.items) }
    {
        if self.more == 0 {
            return Outcome::Refused(ReadError::Header {
                at: self.header,
                error: HeaderError::Continuations,
            });
        }
        let body = m.body.as_slice();
        let (place, len) = (number(body, 0, 8), number(body, 8, 8));
        if len < LEAST {
            return Outcome::Refused(ReadError::Damaged {
                at: place,
                fault: BlockFault::Cut {
                    need: LEAST,
                    got: len,
                },
            });
        }
        let Walk {
            header,
            tracked,
            more,
            done,
            next,
        } = self;
        Outcome::Looks(Block {
            walk: Walk {
                header,
                tracked,
                more: more - 1,
                done,
                next,
            },
            len,
            gather: Gather::new(place, Vec::new(alloc), place, len),
        })
    }

    /// Goes on with the continuation block of `len` bytes at `place`, of which these were found.
    fn enter(
        mut self,
        alloc: Global,
        place: u64,
        len: u64,
        bytes: &[u8],
    ) -> Result<Walked, OutOfMemory>
        requires { place + length bytes.now ≤ 2 ^ 64 }
        ensures { IfOk result (λ w. walked w ≡ block_left self place len bytes.now) }
    {
        let got = bytes.len();
        if (got as u64) < len {
            return Ok(Outcome::Refused(ReadError::Damaged {
                at: place,
                fault: BlockFault::Cut {
                    need: len,
                    got: got as u64,
                },
            }));
        }
        match block(alloc, bytes, self.tracked) {
            Ok(msgs) => {
                put_before(&mut self.next, msgs, place, got, false)?;
                self.go_on(alloc)
            }
            Err(error) => Ok(Outcome::Refused(header_refusal(place, got, error)?)),
        }
    }
}

impl Block {
    ghost use Rattle.h5w_model.specs.Programs.{next_look, fed};
    ghost use Rattle.h5w_lookup.specs.Looks.{look_of, IsWithinLook};
    ghost use Rattle.h5w_reader.specs.Walking.{walked, walking};

    /// The next look.
    pub fn want(&self) -> Look
        ensures next { next_look (walking self.now) ≡ Some (look_of result) }
        ensures low { 1 ≤ result.len }
        ensures high { result.len ≤ 512 }
        ensures inside { result.at + result.len ≤ 2 ^ 64 }
    {
        self.gather.want()
    }

    /// Goes on with the piece that the look gave.
    pub fn feed(self, alloc: Global, piece: &Piece) -> Result<Walked, OutOfMemory>
        requires { IsWithinLook (next_look (walking self)) (length piece.now) }
        ensures { IfOk result (λ w. walked w ≡ fed piece.now (walking self)) }
    {
        let Block { walk, len, gather } = self;
        let place = gather.start();
        match gather.feed(piece)? {
            Progress::Looks(gather) => Ok(Outcome::Looks(Block { walk, len, gather })),
            Progress::Done(bytes) => walk.enter(alloc, place, len, &bytes),
        }
    }
}
