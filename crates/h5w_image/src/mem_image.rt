ghost use Rattle.std.specs.Prelude.{◌≡◌, ◌≤◌, ◌<◌, ◌+◌, ◌∷◌, ◌++◌, ◌-◌, ◌↔◌, IsTrue, [], take, drop, replicate, is_err, length, true, vec_len, if◌then◌else◌, IfOk, OnOk, OnErr};
ghost use Rattle.std.specs.Vec.{vec_capacity};
ghost use Rattle.h5w_model.specs.Numbers.{range};
ghost use Rattle.h5w_model.specs.Causes.{Rose};
ghost use Rattle.h5w_model.specs.Images.{apply, image};
ghost use Rattle.h5w_image.specs.View.{ImageView, Same, Looked, Wrote, GivesRange};
ghost use Rattle.h5w_image.specs.Memory.{called, counted, fails, fresh, in_memory, is_failing, roomy, written};

use crate::fault::{Failed, ImageError};
use crate::journal::Journal;
use crate::store::{call, make_room, put, show};
use crate::traits::{PieceRead, PieceWrite};
use h5w_model::{OutOfMemory, Piece, Write};
use std::alloc::Global;
use std::marker::Model;
use std::snapshot::Snapshot;

/// An image in memory, with the journal of its writes and a list of calls that are to fail.
#[derive(Drop)]
pub struct MemImage {
    start: Snapshot<Vec<u8>>,
    bytes: Vec<u8>,
    journal: Journal,
    failing: Vec<u64>,
    calls: u64,
    faults: u64,
    pieces: u64,
    end: u64,
}

impl Model for MemImage {
    ghost use Rattle.std.specs.Prelude.{◌≡◌, ◌≤◌};
    ghost use Rattle.std.specs.Vec.{vec_capacity};
    ghost use Rattle.h5w_model.specs.Images.{image};
    ghost use Rattle.h5w_image.specs.Memory.{MemView};

    ghost Value = { MemView };

    ghost view = { λ m. record { start = m.start.value.items; bytes = m.bytes.items; history = m.journal.writes; failing = m.failing.items; calls = m.calls; faults = m.faults; pieces = m.pieces; end = m.end } };

    ghost invariant = { λ m. (m.bytes.items ≡ image m.start.value.items m.journal.writes) × (m.pieces ≤ m.journal.room) × (m.end ≤ vec_capacity m.bytes) };
}

impl MemImage {
    /// An image without bytes.
    pub fn new(alloc: Global) -> Result<MemImage, OutOfMemory>
        ensures { IfOk result (λ m. m ≡ fresh [] []) }
    {
        MemImage::of(alloc, &[])
    }

    /// An image of these bytes.
    pub fn of(alloc: Global, bytes: &[u8]) -> Result<MemImage, OutOfMemory>
        ensures { IfOk result (λ m. m ≡ fresh bytes.now []) }
    {
        MemImage::with_faults(alloc, bytes, &[])
    }

    /// An image of these bytes. The k-th call of a trait, counted from 1, fails where k is in `calls`.
    pub fn with_faults(alloc: Global, bytes: &[u8], calls: &[u64]) -> Result<MemImage, OutOfMemory>
        ensures { IfOk result (λ m. m ≡ fresh bytes.now calls.now) }
    {
        let bytes = Vec::from_slice(alloc, bytes)?;
        Ok(MemImage {
            start: Snapshot::of(&bytes),
            bytes,
            journal: Journal::new(alloc),
            failing: Vec::from_slice(alloc, calls)?,
            calls: 0,
            faults: 0,
            pieces: 0,
            end: 0,
        })
    }

    /// How many bytes it has.
    pub fn len(&self) -> u64
        ensures len { result ≡ length self.now.bytes }
        ensures folds { self.now.bytes ≡ image self.now.start self.now.history }
    {
        self.bytes.len() as u64
    }

    /// The writes that were Ok.
    pub fn journal(&self) -> &Journal
        ensures writes { result.now.writes ≡ self.now.history }
        ensures folds { self.now.bytes ≡ image self.now.start result.now.writes }
    {
        &self.journal
    }
}

impl PieceRead for MemImage {
    ghost view = { λ m. in_memory m };

    /// It fails exactly where this call is one that is to fail.
    fn look(&mut self, at: u64, len: usize, out: &mut Piece) -> Result<(), Failed>
        requires { len ≤ 512 }
        ensures looked { Looked (in_memory self.old) (in_memory self.new) }
        ensures shows { OnOk result (out.new ≡ range self.new.bytes at len) }
        ensures bound { OnOk result (length out.new ≤ len) }
        ensures failed { OnErr result (out.new ≡ out.old) }
        ensures cause { OnErr result (Rose self.old.faults self.new.faults) }
        ensures exact { is_err result ≡ fails self.old }
        ensures after { self.new ≡ called self.old }
    {
        call(&self.failing, &mut self.calls, &mut self.faults)?;
        show(&self.bytes, at, len, out);
        Ok(())
    }
}

impl PieceWrite for MemImage {
    ghost use Rattle.std.specs.Prelude.{refl};

    ghost writes_alone = { λ m. refl };

    /// It answers Failed exactly where this call is one that is to fail.
    fn reserve(&mut self, pieces: u64, end: u64) -> Result<(), ImageError>
        ensures same { Same (in_memory self.old) (in_memory self.new) }
        ensures pieces { OnOk result (pieces ≤ self.new.pieces) }
        ensures end { OnOk result (end ≤ self.new.end) }
        ensures cause { result ≡ Err ImageError.Failed → Rose self.old.faults self.new.faults }
        ensures exact { result ≡ Err ImageError.Failed ↔ IsTrue (fails self.old) }
        ensures ok { OnOk result (self.new ≡ roomy pieces end self.old) }
        ensures refused { OnErr result (self.new ≡ called self.old) }
    {
        call(&self.failing, &mut self.calls, &mut self.faults)?;
        self.journal.reserve(pieces)?;
        make_room(&mut self.bytes, end)?;
        self.pieces = self.pieces.max(pieces);
        self.end = self.end.max(end);
        Ok(())
    }

    /// It fails exactly where this call is one that is to fail.
    #[tactic(auto, using(crate::proofs::Overwrite::histories))]
    fn write(&mut self, w: &Write) -> Result<(), Failed>
        requires pieces { 1 ≤ self.old.pieces }
        requires end { w.now.at + length w.now.piece ≤ self.old.end }
        ensures wrote { OnOk result (Wrote (w.now ∷ []) (in_memory self.old) (in_memory self.new)) }
        ensures same { OnErr result (Same (in_memory self.old) (in_memory self.new)) }
        ensures cause { OnErr result (Rose self.old.faults self.new.faults) }
        ensures exact { is_err result ≡ fails self.old }
        ensures after { self.new ≡ (if fails self.old then called self.old else written w.now self.old) }
    {
        call(&self.failing, &mut self.calls, &mut self.faults)?;
        self.pieces -= 1;
        put(&mut self.bytes, w.at as usize, w.piece.as_slice());
        self.journal.push(w).unwrap();
        Ok(())
    }
}
