//! The three words of a checksum while it is computed.

ghost use Rattle.std.specs.Prelude.{◌≡◌, ℕ, ◌+◌, ◌%◌, ◌<◌, ◌≤◌, List, ◌++◌, length};
ghost use Rattle.h5w_model.specs.Checksum.{Words as Lookup, added, begun, finish_line, finished, mix_line, mixed, sum_of};
ghost use Rattle.h5w_sum.specs.Fronts.{IsFront};

use h5w_bytes::word;
use std::marker::Model;

#[derive(Drop)]
pub struct Words {
    a: u32,
    b: u32,
    c: u32,
}

impl Model for Words {
    ghost Value = { Lookup };

    ghost view = { λ w. record { a = w.a; b = w.b; c = w.c } };
}

impl Words {
    /// What the words are for `len` bytes, before any of them counts.
    pub fn begun(len: usize) -> Self
        ensures { result ≡ begun len }
    {
        let start = 0xdead_beef_u32.wrapping_add((len % (1 << 32)) as u32);
        Words {
            a: start,
            b: start,
            c: start,
        }
    }

    /// The words with twelve bytes added, four to each.
    #[tactic(auto, unfolding(h5w_model::specs::Checksum::added))]
    pub fn added(self, block: &[u8]) -> Self
        requires { 12 ≤ length block.now }
        ensures { result ≡ added self block.now }
    {
        Words {
            a: self.a.wrapping_add(word(block, 0)),
            b: self.b.wrapping_add(word(block, 4)),
            c: self.c.wrapping_add(word(block, 8)),
        }
    }

    /// A line of the mixing: `a -= c; a ^= rot(c, k); c += b`, with the words renamed for the next line.
    #[tactic(auto, unfolding(h5w_model::specs::Checksum::mix_line))]
    fn mix_line(self, k: u32) -> Self
        ensures { result ≡ mix_line k self }
    {
        Words {
            a: self.b,
            b: self.c.wrapping_add(self.b),
            c: self.a.wrapping_sub(self.c) ^ self.c.rotate_left(k),
        }
    }

    /// The words mixed.
    #[tactic(auto, unfolding(h5w_model::specs::Checksum::mixed))]
    pub fn mixed(self) -> Self
        ensures { result ≡ mixed self }
    {
        self.mix_line(4)
            .mix_line(6)
            .mix_line(8)
            .mix_line(16)
            .mix_line(19)
            .mix_line(4)
    }

    /// A line of the finish: `c ^= b; c -= rot(b, k)`, with the words renamed for the next line.
    #[tactic(auto, unfolding(h5w_model::specs::Checksum::finish_line))]
    fn finish_line(self, k: u32) -> Self
        ensures { result ≡ finish_line k self }
    {
        Words {
            a: self.b,
            b: (self.c ^ self.b).wrapping_sub(self.b.rotate_left(k)),
            c: self.a,
        }
    }

    /// The sum, where the words have all bytes in them.
    #[tactic(auto, unfolding(h5w_model::specs::Checksum::finished))]
    pub fn finished(self) -> u32
        ensures { result ≡ finished self }
    {
        let ended = self
            .finish_line(14)
            .finish_line(11)
            .finish_line(25)
            .finish_line(16)
            .finish_line(4)
            .finish_line(14)
            .finish_line(24);
        ended.b
    }

    /// The words with blocks of twelve bytes mixed in, one behind another.
    #[inline(always)]
    pub fn with(self, blocks: &[u8]) -> Self
        requires { length blocks.now % 12 ≡ 0 }
        ensures { (len : ℕ) (front : List ℕ) → IsFront len front self → IsFront len (front ++ blocks.now) result }
    {
        let mut words = self;
        for block in blocks.chunks_exact(12) {
            words = words.added(block).mixed();
        }
        words
    }

    /// The sum, where these bytes come next and are the last.
    #[inline(always)]
    pub fn sum_behind(self, rest: &[u8]) -> u32
        requires { 0 < length rest.now }
        ensures { (len : ℕ) (front : List ℕ) → IsFront len front self → length front + length rest.now ≡ len → result ≡ sum_of (front ++ rest.now) }
    {
        // all but the last 1 to 12 bytes
        let (blocks, end) = rest.split_at((rest.len() - 1) / 12 * 12);
        let mut padded = [0; 12];
        padded[..end.len()].copy_from_slice(end);
        self.with(blocks).added(&padded).finished()
    }

    /// These words again.
    pub fn copied(&self) -> Self
        ensures { result ≡ self.now }
    {
        Words {
            a: self.a,
            b: self.b,
            c: self.c,
        }
    }

    /// The third word.
    pub fn last(self) -> u32
        ensures { result ≡ self.c }
    {
        self.c
    }
}
