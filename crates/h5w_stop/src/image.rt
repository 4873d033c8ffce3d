//! The image that pieces make of no bytes.
ghost use Rattle.std.specs.Prelude.{◌≡◌, ◌≤◌, ◌+◌, ◌++◌, ◌-◌, [], drop, length, replicate, take, OnOk};
ghost use Rattle.h5w_model.specs.Images.{apply};
ghost use Rattle.h5w_image.specs.Journals.{write_seen};
ghost use Rattle.h5w_stop.specs.Images.{still};

use h5w_image::{Failed, PieceRead, WriteRef};
use h5w_model::{Bytes, OutOfMemory, Piece};
use std::alloc::Global;
use std::marker::Model;

/// An image that began without bytes. No look at it fails.
#[derive(Drop)]
pub struct Image {
    bytes: Vec<u8>,
}

impl Model for Image {
    ghost use Rattle.std.specs.Prelude.{ℕ, List};

    ghost Value = { List ℕ };

    ghost view = { λ i. i.bytes.items };
}

/// Adds zeros up to a length.
fn fill(bytes: &mut Vec<u8>, end: usize) -> Result<(), OutOfMemory>
    ensures { OnOk result (bytes.new.items ≡ bytes.old.items ++ replicate (end - length bytes.old.items) 0) }
{
    if bytes.len() < end {
        bytes.resize(end, 0)?;
    }
    Ok(())
}

/// Puts a piece over the bytes that stand at its place.
fn overwrite(bytes: &mut [u8], at: usize, piece: &[u8])
    requires { at + length piece.now ≤ length bytes.old }
    ensures { bytes.new ≡ (take at bytes.old ++ piece.now) ++ drop (at + length piece.now) bytes.old }
{
    bytes[at..at + piece.len()].copy_from_slice(piece);
}

/// Puts a piece at a place of the bytes, with zeros between their end and the place.
fn put(bytes: &mut Vec<u8>, at: usize, piece: &[u8]) -> Result<(), OutOfMemory>
    ensures { OnOk result (bytes.new.items ≡ apply (record { at = at; piece = piece.now }) bytes.old.items) }
{
    let Some(end) = at.checked_add(piece.len()) else {
        return Err(OutOfMemory);
    };
    fill(bytes, end)?;
    overwrite(bytes, at, piece);
    Ok(())
}

impl Image {
    /// An image without bytes. Takes no memory yet.
    pub fn new(alloc: Global) -> Image
        ensures { result ≡ [] }
    {
        Image {
            bytes: Vec::new(alloc),
        }
    }

    /// The piece becomes visible.
    pub fn put(&mut self, write: &WriteRef<'_>) -> Result<(), OutOfMemory>
        ensures { OnOk result (self.new ≡ apply (write_seen write.now) self.old) }
    {
        put(&mut self.bytes, write.at as usize, write.piece)
    }

    /// How many bytes it has.
    pub fn len(&self) -> usize
        ensures { result ≡ length self.now }
    {
        self.bytes.len()
    }

    /// The bytes, without a copy.
    pub fn into_bytes(self) -> Bytes
        ensures { result ≡ self }
    {
        Bytes::from_vec(self.bytes)
    }
}

impl PieceRead for Image {
    ghost view = { λ i. still i };

    fn look(&mut self, at: u64, len: usize, out: &mut Piece) -> Result<(), Failed> {
        let rest = &self.bytes[self.bytes.len().min(at as usize)..];
        out.set(&rest[..rest.len().min(len)]);
        Ok(())
    }
}
