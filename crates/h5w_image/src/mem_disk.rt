ghost use Rattle.std.specs.Prelude.{◌≡◌, ◌≢◌, ◌≤◌, ◌+◌, ◌↔◌, ◌∷◌, ℕ, max, length, true, is_err, is_none, [], if◌then◌else◌, IsTrue, IsSome, IfSome, IfOk, OnOk, OnErr};
ghost use Rattle.std.specs.Option.{option_map, unwrap_or};
ghost use Rattle.std.specs.Vec.{vec_capacity};
ghost use Rattle.std.specs.FinMap as finite;
ghost use Rattle.h5w_model.specs.Numbers.{range};
ghost use Rattle.h5w_model.specs.Causes.{Rose};
ghost use Rattle.h5w_image.specs.View.{Leaves, file, made, put as after_put};
ghost use Rattle.h5w_image.specs.MemoryDisk.{blank, called, disk_in_memory, fails, with_file, with_put, with_room};

use crate::disk::Disk;
use crate::fault::{Failed, MakeError};
use crate::mem_files::MemFiles;
use crate::store::{call, show};
use h5w_model::{OutOfMemory, Piece, Write};
use std::alloc::Global;
use std::marker::Model;

/// A disk in memory, with a list of calls that are to fail.
#[derive(Drop)]
pub struct MemDisk {
    alloc: Global,
    files: MemFiles,
    puts: Vec<u64>,
    failing: Vec<u64>,
    calls: u64,
    faults: u64,
    pieces: u64,
}

impl Model for MemDisk {
    ghost use Rattle.std.specs.Prelude.{◌+◌, ◌≤◌, length};
    ghost use Rattle.std.specs.Vec.{vec_capacity};
    ghost use Rattle.h5w_image.specs.MemoryDisk.{MemDiskView, disk_code};

    ghost Value = { MemDiskView };

    ghost coded = { disk_code };

    ghost view = { λ m. record { told = record { files = m.files.files; puts = m.puts.items }; failing = m.failing.items; calls = m.calls; faults = m.faults; pieces = m.pieces; ends = m.files.ends } };

    ghost invariant = { λ m. length m.puts.items + m.pieces ≤ vec_capacity m.puts };
}

impl MemDisk {
    /// A disk without files. Takes no memory yet.
    pub fn new(alloc: Global) -> MemDisk
        ensures { result ≡ blank [] }
    {
        MemDisk {
            alloc,
            files: MemFiles::new(alloc),
            puts: Vec::new(alloc),
            failing: Vec::new(alloc),
            calls: 0,
            faults: 0,
            pieces: 0,
        }
    }

    /// A disk without files. Of its calls `size`, `make`, `look` and `put` the k-th, counted from 1,
    /// fails where k is in `calls`.
    pub fn with_faults(alloc: Global, calls: &[u64]) -> Result<MemDisk, OutOfMemory>
        ensures { IfOk result (λ m. m ≡ blank calls.now) }
    {
        let mut disk = MemDisk::new(alloc);
        disk.failing.extend_from_slice(calls)?;
        Ok(disk)
    }
}

impl MemDisk {
    /// A file of these bytes stands under the name from now on, without room.
    pub fn insert(&mut self, name: &str, bytes: &[u8]) -> Result<(), OutOfMemory>
        ensures ok { OnOk result (self.new ≡ with_file name.now bytes.now self.old) }
        ensures refused { OnErr result (self.new ≡ self.old) }
    {
        let bytes = Vec::from_slice(self.alloc, bytes)?;
        self.files
            .insert(String::from_str(self.alloc, name)?, bytes)
    }

    fn make_room(&mut self, name: &str, pieces: u64, end: u64) -> Result<(), OutOfMemory>
        requires { IsSome (file self.old.told name.now) }
        ensures ok { OnOk result (self.new ≡ with_room name.now pieces end self.old) }
        ensures refused { OnErr result (self.new ≡ self.old) }
    {
        self.puts.reserve(pieces as usize)?;
        self.files.make_room(name, end)?;
        self.pieces = self.pieces.max(pieces);
        Ok(())
    }

    /// The bytes of the file of this name, where it is there.
    pub fn file(&self, name: &str) -> Option<&[u8]>
        ensures { option_map (λ b. b.now) result ≡ file self.now.told name.now }
    {
        self.files.get(name)
    }

    /// Of each put that was Ok the count of faults that stood before it, the oldest first.
    pub fn puts(&self) -> &[u64]
        ensures { result.now ≡ self.now.told.puts }
    {
        &self.puts
    }
}

impl Disk for MemDisk {
    ghost view = { λ m. disk_in_memory m };

    fn faults(&self) -> u64
        ensures { result ≡ self.now.faults }
    {
        self.faults
    }

    /// It fails exactly where this call is one that is to fail.
    fn size(&mut self, name: &str) -> Result<Option<u64>, Failed>
        ensures same { Leaves 0 (Some self.old.told) (disk_in_memory self.old) (disk_in_memory self.new) }
        ensures exact { IfOk result (λ size. size ≡ option_map length (file self.old.told name.now)) }
        ensures calm { OnOk result (self.new.faults ≡ self.old.faults) }
        ensures cause { OnErr result (Rose self.old.faults self.new.faults) }
        ensures failing { is_err result ≡ fails self.old }
        ensures after { self.new ≡ called self.old }
    {
        call(&self.failing, &mut self.calls, &mut self.faults)?;
        match self.files.get(name) {
            Some(bytes) => Ok(Some(bytes.len() as u64)),
            None => Ok(None),
        }
    }

    /// It answers Failed exactly where this call is one that is to fail.
    fn make(&mut self, name: &str) -> Result<bool, MakeError>
        ensures exact { IfOk result (λ new. new ≡ is_none (file self.old.told name.now)) }
        ensures made { result ≡ Ok true → Leaves 0 (Some (made name.now self.old.told)) (disk_in_memory self.old) (disk_in_memory self.new) }
        ensures same { result ≢ Ok true → Leaves 0 (Some self.old.told) (disk_in_memory self.old) (disk_in_memory self.new) }
        ensures calm { OnOk result (self.new.faults ≡ self.old.faults) }
        ensures cause { result ≡ Err MakeError.Failed → Rose self.old.faults self.new.faults }
        ensures failing { result ≡ Err MakeError.Failed ↔ IsTrue (fails self.old) }
        ensures new { result ≡ Ok true → self.new ≡ with_file name.now [] (called self.old) }
        ensures old { result ≢ Ok true → self.new ≡ called self.old }
    {
        call(&self.failing, &mut self.calls, &mut self.faults)?;
        if self.files.get(name).is_some() {
            return Ok(false);
        }
        self.insert(name, &[])?;
        Ok(true)
    }

    /// It fails exactly where this call is one that is to fail.
    fn look(&mut self, name: &str, at: u64, len: usize, out: &mut Piece) -> Result<(), Failed>
        requires there { IsSome (file self.old.told name.now) }
        requires piece { len ≤ 512 }
        ensures same { Leaves 0 (Some self.old.told) (disk_in_memory self.old) (disk_in_memory self.new) }
        ensures shows { OnOk result (out.new ≡ range (unwrap_or (file self.old.told name.now) []) at len) }
        ensures bound { OnOk result (length out.new ≤ len) }
        ensures failed { OnErr result (out.new ≡ out.old) }
        ensures calm { OnOk result (self.new.faults ≡ self.old.faults) }
        ensures cause { OnErr result (Rose self.old.faults self.new.faults) }
        ensures failing { is_err result ≡ fails self.old }
        ensures after { self.new ≡ called self.old }
    {
        call(&self.failing, &mut self.calls, &mut self.faults)?;
        show(self.files.get(name).unwrap(), at, len, out);
        Ok(())
    }

    /// It fails exactly where this call is one that is to fail.
    fn put(&mut self, name: &str, w: &Write) -> Result<(), Failed>
        requires there { IsSome (file self.old.told name.now) }
        requires pieces { 1 ≤ self.old.pieces }
        requires end { w.now.at + length w.now.piece ≤ unwrap_or (finite.get self.old.ends name.now) 0 }
        ensures put { OnOk result (Leaves 1 (Some (after_put name.now w.now self.old.faults self.old.told)) (disk_in_memory self.old) (disk_in_memory self.new)) }
        ensures same { OnErr result (Leaves 0 (Some self.old.told) (disk_in_memory self.old) (disk_in_memory self.new)) }
        ensures calm { OnOk result (self.new.faults ≡ self.old.faults) }
        ensures cause { OnErr result (Rose self.old.faults self.new.faults) }
        ensures failing { is_err result ≡ fails self.old }
        ensures after { self.new ≡ (if fails self.old then called self.old else with_put name.now w.now (called self.old)) }
    {
        call(&self.failing, &mut self.calls, &mut self.faults)?;
        self.files.put(name, w);
        self.pieces -= 1;
        self.puts.push(self.faults).unwrap();
        Ok(())
    }

    /// This call is never one that is to fail, and is not counted.
    fn reserve(&mut self, name: &str, pieces: u64, end: u64) -> Result<(), OutOfMemory>
        requires { IsSome (file self.old.told name.now) }
        ensures same { Leaves 0 (Some self.old.told) (disk_in_memory self.old) (disk_in_memory self.new) }
        ensures pieces { OnOk result (pieces ≤ self.new.pieces) }
        ensures end { OnOk result (end ≤ unwrap_or (finite.get self.new.ends name.now) 0) }
        ensures calm { OnOk result (self.new.faults ≡ self.old.faults) }
        ensures ok { OnOk result (self.new ≡ with_room name.now pieces end self.old) }
        ensures refused { OnErr result (self.new ≡ self.old) }
    {
        self.make_room(name, pieces, end)?;
        Ok(())
    }
}
