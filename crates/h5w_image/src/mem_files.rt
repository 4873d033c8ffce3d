ghost use Rattle.std.specs.Prelude.{◌≡◌, ◌≤◌, ◌+◌, max, length, [], is_some, IsSome, OnOk, OnErr};
ghost use Rattle.std.specs.Option.{option_map, unwrap_or};
ghost use Rattle.std.specs.String.{string_bytes};
ghost use Rattle.std.specs.Vec.{vec_capacity};
ghost use Rattle.std.specs.FinMap as finite;
ghost use Rattle.h5w_model.specs.Images.{apply};

use crate::store::{make_room, put};
use h5w_model::{OutOfMemory, Write};
use std::alloc::Global;
use std::collections::BTreeMap;
use std::marker::Model;

/// A file's bytes, with room up to `end`.
#[derive(Drop)]
pub struct MemFile {
    pub bytes: Vec<u8>,
    pub end: u64,
    ghost room: { end ≤ vec_capacity bytes },
}

impl MemFile {
    fn write(&mut self, w: &Write)
        requires { w.now.at + length w.now.piece ≤ self.old.end }
        ensures bytes { self.new.bytes.items ≡ apply w.now self.old.bytes.items }
        ensures end { self.new.end ≡ self.old.end }
    {
        put(&mut self.bytes, w.at as usize, w.piece.as_slice());
    }

    fn make_room(&mut self, end: u64) -> Result<(), OutOfMemory>
        ensures bytes { self.new.bytes.items ≡ self.old.bytes.items }
        ensures end { OnOk result (self.new.end ≡ max self.old.end end) }
        ensures refused { OnErr result (self.new.end ≡ self.old.end) }
    {
        make_room(&mut self.bytes, end)?;
        self.end = self.end.max(end);
        Ok(())
    }
}

/// The files of a disk in memory, by name.
#[derive(Drop)]
pub struct MemFiles {
    files: BTreeMap<String, MemFile>,
}

impl Model for MemFiles {
    ghost use Rattle.h5w_image.specs.NamedFiles.{FilesView, files_code};

    ghost Value = { FilesView };

    ghost coded = { files_code };

    ghost use Rattle.h5w_image.specs.MemoryFiles.{ends_of, files_of};

    ghost view = { λ m. record { files = files_of m.files.entries; ends = ends_of m.files.entries } };
}

impl MemFiles {
    /// No files. Takes no memory yet.
    pub fn new(alloc: Global) -> MemFiles
        ensures { result ≡ record { files = finite.empty; ends = finite.empty } }
    {
        MemFiles {
            files: BTreeMap::new(alloc),
        }
    }

    /// The bytes of the file of this name, where it is there.
    pub fn get(&self, name: &str) -> Option<&[u8]>
        ensures value { option_map (λ b. b.now) result ≡ finite.get self.now.files name.now }
        ensures room { is_some result ≡ is_some (finite.get self.now.ends name.now) }
    {
        match self.files.get(name) {
            Some(file) => Some(&file.bytes),
            None => None,
        }
    }

    /// These bytes stand under the name from now on, without room.
    pub fn insert(&mut self, name: String, bytes: Vec<u8>) -> Result<(), OutOfMemory>
        ensures ok { OnOk result (self.new ≡ record { files = finite.insert self.old.files (string_bytes name) bytes.items; ends = finite.insert self.old.ends (string_bytes name) 0 }) }
        ensures refused { OnErr result (self.new ≡ self.old) }
    {
        self.files.insert(name, MemFile { bytes, end: 0 })?;
        Ok(())
    }

    /// Applies the write to the file of this name.
    pub fn put(&mut self, name: &str, w: &Write)
        requires there { IsSome (finite.get self.old.files name.now) }
        requires room { w.now.at + length w.now.piece ≤ unwrap_or (finite.get self.old.ends name.now) 0 }
        ensures files { self.new.files ≡ finite.insert self.old.files name.now (apply w.now (unwrap_or (finite.get self.old.files name.now) [])) }
        ensures ends { self.new.ends ≡ self.old.ends }
    {
        self.files.get_mut(name).unwrap().write(w);
    }

    /// Makes room up to `end` in the file of this name.
    pub fn make_room(&mut self, name: &str, end: u64) -> Result<(), OutOfMemory>
        requires { IsSome (finite.get self.old.files name.now) }
        ensures files { self.new.files ≡ self.old.files }
        ensures ok { OnOk result (self.new.ends ≡ finite.insert self.old.ends name.now (max (unwrap_or (finite.get self.old.ends name.now) 0) end)) }
        ensures refused { OnErr result (self.new.ends ≡ self.old.ends) }
    {
        self.files.get_mut(name).unwrap().make_room(end)?;
        Ok(())
    }
}
