ghost use Rattle.std.specs.Prelude.{◌≡◌, ◌≤◌, ◌+◌, [], ◌∷◌, ◌++◌, length, slice_get, IsOk, IfOk, OnOk, OnErr};
ghost use Rattle.std.specs.Option.{option_map};
ghost use Rattle.h5w_model.specs.Numbers.{range};
ghost use Rattle.h5w_image.specs.Journals.{write_seen};

use h5w_model::{OutOfMemory, PIECE, Write};
use std::alloc::Global;
use std::marker::Model;

/// Where a write's bytes stand among those of all writes, and its place in the image.
#[derive(Clone, Copy)]
pub struct Entry {
    pub at: u64,
    pub from: usize,
    pub len: usize,
}

/// A write of a journal, with its bytes where the journal has them.
#[derive(Clone, Copy)]
pub struct WriteRef<'a> {
    pub at: u64,
    pub piece: &'a [u8],
}

/// A list of writes, the oldest first. A write takes as many bytes as it has, and its entry.
#[derive(Drop)]
pub struct Journal {
    entries: Vec<Entry>,
    bytes: Vec<u8>,
}

impl Model for Journal {
    ghost use Rattle.std.specs.Prelude.{◌-◌, ◌/◌, min, map, vec_len};
    ghost use Rattle.std.specs.Vec.{vec_capacity};
    ghost use Rattle.h5w_image.specs.Journals.{AreAmong, write_of};
    ghost use Rattle.h5w_image.specs.Memory.{JournalView};

    ghost Value = { JournalView };

    ghost view = { λ j. record { writes = map (write_of j.bytes.items) j.entries.items; room = min (vec_capacity j.entries - vec_len j.entries) ((vec_capacity j.bytes - vec_len j.bytes) / 512) } };

    ghost invariant = { λ j. AreAmong j.bytes.items j.entries.items };
}

/// So many bytes from a place on.
fn part(bytes: &[u8], from: usize, len: usize) -> &[u8]
    requires { from + len ≤ length bytes.now }
    ensures { result.now ≡ range bytes.now from len }
{
    &bytes[from..from + len]
}

impl Journal {
    /// A journal without writes. Takes no memory yet.
    pub fn new(alloc: Global) -> Journal
        ensures { result.writes ≡ [] }
    {
        Journal {
            entries: Vec::new(alloc),
            bytes: Vec::new(alloc),
        }
    }

    /// Makes room for so many more writes of up to 512 bytes. Room that was there stays.
    pub fn reserve(&mut self, writes: u64) -> Result<(), OutOfMemory>
        ensures same { self.new.writes ≡ self.old.writes }
        ensures room { OnOk result (writes ≤ self.new.room) }
        ensures kept { self.old.room ≤ self.new.room }
    {
        let Some(bytes) = (writes as usize).checked_mul(PIECE) else {
            return Err(OutOfMemory);
        };
        self.entries.reserve(writes as usize)?;
        self.bytes.reserve(bytes)?;
        Ok(())
    }

    /// Adds a write as the last. Takes no memory where there is room.
    pub fn push(&mut self, w: &Write) -> Result<(), OutOfMemory>
        ensures last { OnOk result (self.new.writes ≡ self.old.writes ++ w.now ∷ []) }
        ensures refused { OnErr result (self.new.writes ≡ self.old.writes) }
        ensures succeeds { 1 ≤ self.old.room → IsOk result }
        ensures room { self.old.room ≤ self.new.room + 1 }
    {
        let piece = w.piece.as_slice();
        let entry = Entry {
            at: w.at,
            from: self.bytes.len(),
            len: piece.len(),
        };
        self.entries.reserve(1)?;
        self.bytes.extend_from_slice(piece)?;
        self.entries.push_reserved(entry);
        Ok(())
    }

    /// How many writes it has.
    pub fn len(&self) -> u64
        ensures { result ≡ length self.now.writes }
    {
        self.entries.len() as u64
    }

    /// The write at place `k`, counted from 0. None exactly where `k` is not below the length.
    pub fn get(&self, k: u64) -> Option<WriteRef<'_>>
        ensures { option_map write_seen result ≡ slice_get self.now.writes k }
    {
        match self.entries.get(k as usize) {
            Some(entry) => Some(WriteRef {
                at: entry.at,
                piece: part(&self.bytes, entry.from, entry.len),
            }),
            None => None,
        }
    }

    /// A journal of the same writes.
    pub fn copy(&self, alloc: Global) -> Result<Journal, OutOfMemory>
        ensures { IfOk result (λ j. j.writes ≡ self.now.writes) }
    {
        Ok(Journal {
            entries: Vec::from_slice(alloc, &self.entries)?,
            bytes: Vec::from_slice(alloc, &self.bytes)?,
        })
    }
}
