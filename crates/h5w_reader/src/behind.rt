//! What an attempt looks at behind the dataset header.
ghost use Rattle.std.specs.Prelude.{◌≡◌, ◌+◌, ◌≤◌, ◌^◌, length, Ok, Some, true, false, IfOk};
ghost use Rattle.h5w_lookup.specs.Attempts.{known_of, rules_of};

use crate::walk::{Block, Walk, Walked};
use h5w_dataset::header_refusal;
use h5w_lookup::{Known, Look, Lookup, News, Outcome, Rules, settle};
use h5w_model::{Bytes, OutOfMemory, PIECE, Piece, ReadError, Unsupported};
use h5w_ohdr::prefix;
use std::alloc::Global;

/// What is awaited.
#[derive(Drop)]
pub enum Behind {
    /// A continuation block of the dataset header.
    Visit(Block),
    /// A block in place.
    Lookup(Lookup),
}

/// What it comes to.
pub type Reached = Outcome<News, Behind>;

impl Behind {
    ghost use Rattle.h5w_model.specs.Calls.{CallRules};
    ghost use Rattle.h5w_model.specs.Programs.{next_look, fed};
    ghost use Rattle.h5w_lookup.specs.Looks.{look_of, IsWithinLook};
    ghost use Rattle.h5w_reader.specs.Calling.{behind_left, reached, messages_rest, behind_rest};
    ghost use Rattle.h5w_reader.specs.Walking.{walked};
    ghost use Rattle.h5w_reader.specs.Headers.{IsView};

    /// Goes on from what the visit of the dataset header's messages comes to.
    fn after_walk(
        alloc: Global,
        rules: &Rules,
        known: &Option<Known>,
        w: Walked,
    ) -> Result<Reached, OutOfMemory>
        ensures { IfOk result (λ r. reached (rules_of rules.now (known_of known.now)) r ≡ messages_rest (rules_of rules.now (known_of known.now)) (walked w)) }
    {
        match w {
            Outcome::Done(found) => {
                let looked_up = settle(alloc, rules, known, &found)?;
                Ok(looked_up.map_looks(Behind::Lookup))
            }
            Outcome::Refused(error) => Ok(Outcome::Refused(error)),
            Outcome::Looks(block) => Ok(Outcome::Looks(Behind::Visit(block))),
        }
    }

    /// Begins with what counts of a look at the dataset header.
    pub fn begin(
        alloc: Global,
        rules: &Rules,
        known: &Option<Known>,
        view: &Bytes,
    ) -> Result<Reached, OutOfMemory>
        requires { IsView rules.now.place view.now }
        ensures { IfOk result (λ r. reached (rules_of rules.now (known_of known.now)) r ≡ behind_rest (rules_of rules.now (known_of known.now)) view.now) }
    {
        let bytes = view.as_slice();
        let p = match prefix(bytes) {
            Ok(p) => p,
            Err(error) => {
                let error = header_refusal(rules.place, 0, error)?;
                return Ok(Outcome::Refused(error));
            }
        };
        if p.total > PIECE as u64 {
            return Ok(Outcome::Refused(ReadError::Unsupported(Unsupported(1))));
        }
        let walked = Walk::start(alloc, rules.place, &p, bytes)?;
        Behind::after_walk(alloc, rules, known, walked)
    }

    /// The next look.
    pub fn want(&self) -> Look
        ensures next { (g : CallRules) → next_look (behind_left g self.now) ≡ Some (look_of result) }
        ensures low { 1 ≤ result.len }
        ensures high { result.len ≤ 512 }
        ensures inside { result.at + result.len ≤ 2 ^ 64 }
    {
        match self {
            Behind::Visit(block) => block.want(),
            Behind::Lookup(lookup) => lookup.want(),
        }
    }

    /// Takes up a full piece where the block of the index that is looked at goes on behind it; false where the piece may be its
    /// last, or something else is looked at.
    pub fn absorb(&mut self, piece: &Piece) -> Result<bool, OutOfMemory>
        ensures more { result ≡ Ok true → (g : CallRules) → behind_left g self.new ≡ fed piece.now (behind_left g self.old) }
        ensures same { result ≡ Ok false → (g : CallRules) → behind_left g self.new ≡ behind_left g self.old }
    {
        match self {
            Behind::Lookup(lookup) => lookup.absorb(piece),
            _ => Ok(false),
        }
    }

    /// Goes on with the piece that the look gave.
    pub fn feed(
        self,
        alloc: Global,
        rules: &Rules,
        known: &Option<Known>,
        piece: &Piece,
    ) -> Result<Reached, OutOfMemory>
        requires { IsWithinLook (next_look (behind_left (rules_of rules.now (known_of known.now)) self)) (length piece.now) }
        ensures { IfOk result (λ r. reached (rules_of rules.now (known_of known.now)) r ≡ fed piece.now (behind_left (rules_of rules.now (known_of known.now)) self)) }
    {
        match self {
            Behind::Visit(block) => {
                Behind::after_walk(alloc, rules, known, block.feed(alloc, piece)?)
            }
            Behind::Lookup(lookup) => {
                let looked_up = lookup.feed(alloc, rules, known, piece)?;
                Ok(looked_up.map_looks(Behind::Lookup))
            }
        }
    }
}
