//! The continuation blocks that messages name.
ghost use Rattle.std.specs.Prelude.{◌≡◌, ◌++◌, [], ◌∷◌, take, option_to_list};
ghost use Rattle.h5w_model.specs.Headers.{cont_of, conts_of};

use crate::kind::CONTINUATION;
use crate::list::Msgs;
use h5w_bytes::number;
use h5w_model::Msg;
use std::marker::Model;

/// The most continuation blocks of a header.
pub const BLOCKS: u8 = 32;

/// One more than these, so that the one too many can be seen.
pub const MOST: usize = BLOCKS as usize + 1;

/// The fewest bytes of a continuation block.
pub const LEAST: u64 = 8;

/// The address and the length in bytes of continuation blocks, at most 33 of them.
#[derive(Drop)]
pub struct Conts {
    list: [(u64, u64); 33],
    len: usize,
}

impl Model for Conts {
    ghost use Rattle.std.specs.Prelude.{ℕ, ◌≤◌, List, take};

    ghost Value = { List (ℕ × ℕ) };

    ghost view = { λ c. take c.len c.list };

    ghost invariant = { λ c. c.len ≤ 33 };
}

impl Conts {
    fn new() -> Conts
        ensures { result ≡ [] }
    {
        Conts {
            list: [(0, 0); 33],
            len: 0,
        }
    }

    /// Adds one, unless there are 33.
    fn add(&mut self, address: u64, length: u64)
        ensures { self.new ≡ take 33 (self.old ++ (address, length) ∷ []) }
    {
        if self.len < MOST {
            self.list[self.len] = (address, length);
            self.len += 1;
        }
    }

    pub fn as_slice(&self) -> &[(u64, u64)]
        ensures { result.now ≡ self.now }
    {
        &self.list[..self.len]
    }
}

/// What a message names, if it is a continuation with an address and a length.
fn cont_of(m: &Msg) -> Option<(u64, u64)>
    ensures { option_to_list result ≡ cont_of m.now }
{
    let body = m.body.as_slice();
    if m.kind != CONTINUATION || body.len() < 16 {
        return None;
    }
    Some((number(body, 0, 8), number(body, 8, 8)))
}

/// What the continuation messages of a list name, in order: the first 33. Takes no memory.
pub fn continuations(msgs: &Msgs) -> Conts
    ensures { result ≡ take 33 (conts_of msgs.now) }
{
    let mut conts = Conts::new();
    for m in msgs.as_slice() {
        if let Some((address, length)) = cont_of(m) {
            conts.add(address, length);
        }
    }
    conts
}
