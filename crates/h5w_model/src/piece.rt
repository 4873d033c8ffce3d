ghost use Rattle.std.specs.Prelude.{◌≡◌, ◌≤◌, [], length};

use std::marker::Model;

/// The most bytes of a piece, and of a look.
pub const PIECE: usize = 512;

/// At most 512 bytes, which become visible at once or were looked at at once.
#[derive(Drop)]
pub struct Piece {
    bytes: [u8; 512],
    len: usize,
}

impl Model for Piece {
    ghost use Rattle.std.specs.Prelude.{ℕ, ◌≤◌, List, take};

    ghost Value = { List ℕ };

    ghost view = { λ p. take p.len p.bytes };

    ghost invariant = { λ p. p.len ≤ 512 };
}

impl Piece {
    /// A piece without bytes.
    pub fn new() -> Piece
        ensures { result ≡ [] }
    {
        Piece {
            bytes: [0; 512],
            len: 0,
        }
    }

    /// A piece of these bytes.
    pub fn of(bytes: &[u8]) -> Piece
        requires { length bytes.now ≤ 512 }
        ensures { result ≡ bytes.now }
    {
        let mut piece = Piece::new();
        piece.set(bytes);
        piece
    }

    /// The bytes, at most 512.
    pub fn as_slice(&self) -> &[u8]
        ensures value { result.now ≡ self.now }
        ensures bound { length self.now ≤ 512 }
    {
        &self.bytes[..self.len]
    }

    /// How many bytes it has, at most 512.
    pub fn len(&self) -> usize
        ensures value { result ≡ length self.now }
        ensures bound { length self.now ≤ 512 }
    {
        self.len
    }

    /// It has these bytes from now on.
    pub fn set(&mut self, bytes: &[u8])
        requires { length bytes.now ≤ 512 }
        ensures { self.new ≡ bytes.now }
    {
        self.bytes[..bytes.len()].copy_from_slice(bytes);
        self.len = bytes.len();
    }

    /// It has no bytes from now on.
    pub fn clear(&mut self)
        ensures { self.new ≡ [] }
    {
        self.len = 0;
    }
}

/// A piece and the place of its first byte in the image.
#[derive(Drop)]
pub struct Write {
    pub at: u64,
    pub piece: Piece,
}
