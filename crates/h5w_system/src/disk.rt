//! The files of the system as a disk. A file's bytes are told by nothing here.
//!
//! It rests on file systems that put a write of up to 512 bytes into a file whole, and show it to each later read: local ones, as ext4,
//! xfs and tmpfs. Over a network they may not. To a read during the write some of them, as ext4, may show a part of it: so a poll looks
//! again where it is refused.
ghost use Rattle.std.specs.Prelude.{◌≡◌, ◌≤◌, ◌^◌, None, [], length, true, false, IfOk, OnErr, OnOk};
ghost use Rattle.h5w_system.specs.Edges.{IsKept};

use crate::streams::count_fault;
use h5w_image::{Disk, Failed, MakeError, OutOfMemory, PIECE, Piece, Write};
use std::fs::{File, OpenOptions};
use std::io;
use std::io::ErrorKind;
use std::os::unix::fs::FileExt;

/// No file has bytes from here on.
const END: u64 = (1 << 63) - PIECE as u64;

/// A file that is kept open.
#[derive(Drop)]
struct Kept {
    name: String,
    file: File,
    writable: bool,
}

/// The files of the system as a disk. The file of the last call is kept open, and each look and each put is a call of the system
/// or more, with no buffer between. It tells nothing of files' bytes.
#[derive(Drop)]
pub struct FileDisk<'a> {
    rt: &'a HostRuntime,
    kept: Option<Kept>,
    faults: u64,
}

/// Reads from a place on until the buffer is full or the file ends, and answers how many bytes that were.
fn read_from(file: &File, at: u64, buf: &mut [u8]) -> io::Result<usize>
    ensures { IfOk result (λ n. n ≤ length buf.new) }
{
    let mut got = 0;
    while got < buf.len() {
        let n = file.read_at(&mut buf[got..], at.saturating_add(got as u64))?;
        if n == 0 {
            break;
        }
        got += n;
    }
    Ok(got)
}

/// Writes all bytes from a place on.
fn write_from(file: &File, at: u64, bytes: &[u8]) -> io::Result<()> {
    let mut rest = bytes;
    let mut place = at;
    while !rest.is_empty() {
        let n = file.write_at(rest, place)?;
        if n == 0 {
            return Err(ErrorKind::WriteZero.into());
        }
        rest = &rest[n..];
        place = place.saturating_add(n as u64);
    }
    Ok(())
}

impl<'a> FileDisk<'a> {
    /// All files that the program may name. None is kept open yet.
    pub fn new(rt: &'a HostRuntime) -> FileDisk<'a>
        ensures kept { result.kept ≡ None }
        ensures faults { result.faults ≡ 0 }
    {
        FileDisk {
            rt,
            kept: None,
            faults: 0,
        }
    }

    /// Opens the file of this name, and keeps it open. Where that fails, the file that was kept stays so.
    fn open(&mut self, name: &str, writable: bool) -> io::Result<()>
        ensures kept { OnOk result (IsKept self.new.kept name.now writable) }
        ensures failed { OnErr result (self.new.kept ≡ self.old.kept) }
        ensures faults { self.new.faults ≡ self.old.faults }
    {
        let file = OpenOptions::new()
            .read(true)
            .write(writable)
            .open(self.rt, name)?;
        self.kept = Some(Kept {
            name: String::from_str(self.rt.alloc(), name)?,
            file,
            writable,
        });
        Ok(())
    }

    /// Sees to it that the file of this name is the one that is kept open, and may be written where `writable` is set.
    fn keep(&mut self, name: &str, writable: bool) -> io::Result<()>
        ensures kept { OnOk result (IsKept self.new.kept name.now writable) }
        ensures failed { OnErr result (self.new.kept ≡ self.old.kept) }
        ensures faults { self.new.faults ≡ self.old.faults }
    {
        match &self.kept {
            Some(kept) if kept.name.as_str() == name && (kept.writable || !writable) => Ok(()),
            _ => self.open(name, writable),
        }
    }

    /// How many bytes the file of this name has.
    fn measure(&mut self, name: &str) -> io::Result<u64>
        ensures kept { OnOk result (IsKept self.new.kept name.now false) }
        ensures faults { self.new.faults ≡ self.old.faults }
    {
        self.open(name, false)?;
        match &self.kept {
            Some(kept) => Ok(kept.file.metadata()?.len()),
            None => unreachable!(),
        }
    }

    /// Reads from a place of the file on, and answers how many bytes that were.
    fn read(&mut self, name: &str, at: u64, buf: &mut [u8]) -> io::Result<usize>
        ensures bound { IfOk result (λ n. n ≤ length buf.new) }
        ensures kept { OnOk result (IsKept self.new.kept name.now false) }
        ensures faults { self.new.faults ≡ self.old.faults }
    {
        self.keep(name, false)?;
        match &self.kept {
            Some(kept) if at < END => read_from(&kept.file, at, buf),
            Some(_) => Ok(0),
            None => unreachable!(),
        }
    }

    /// Writes bytes at a place of the file.
    fn write(&mut self, name: &str, at: u64, bytes: &[u8]) -> io::Result<()>
        ensures kept { OnOk result (IsKept self.new.kept name.now true) }
        ensures faults { self.new.faults ≡ self.old.faults }
    {
        self.keep(name, true)?;
        match &self.kept {
            Some(kept) if at < END => write_from(&kept.file, at, bytes),
            Some(_) => Err(ErrorKind::InvalidInput.into()),
            None => unreachable!(),
        }
    }

    /// Makes the file of this name, and keeps it open. Where that fails, the file that was kept stays so.
    fn create(&mut self, name: &str) -> io::Result<()>
        ensures kept { OnOk result (IsKept self.new.kept name.now true) }
        ensures failed { OnErr result (self.new.kept ≡ self.old.kept) }
        ensures faults { self.new.faults ≡ self.old.faults }
    {
        let owned = String::from_str(self.rt.alloc(), name)?;
        let file = OpenOptions::new()
            .read(true)
            .write(true)
            .create_new(true)
            .open(self.rt, name)?;
        self.kept = Some(Kept {
            name: owned,
            file,
            writable: true,
        });
        Ok(())
    }
}

impl<'a> Disk for FileDisk<'a> {
    ghost view = { λ s. record { told = None; faults = s.faults; through = []; pieces = 2 ^ 64; end = λ name. 2 ^ 64 } };

    fn faults(&self) -> u64 {
        self.faults
    }

    /// A folder has a size too; each look at it fails.
    fn size(&mut self, name: &str) -> Result<Option<u64>, Failed> {
        match self.measure(name) {
            Ok(size) => Ok(Some(size)),
            Err(e) if e.kind() == ErrorKind::NotFound => Ok(None),
            Err(_) => Err(count_fault(&mut self.faults)),
        }
    }

    fn make(&mut self, name: &str) -> Result<bool, MakeError> {
        match self.create(name) {
            Ok(()) => Ok(true),
            Err(e) if e.kind() == ErrorKind::AlreadyExists => Ok(false),
            Err(e) if e.kind() == ErrorKind::OutOfMemory => Err(MakeError::OutOfMemory),
            Err(_) => {
                count_fault(&mut self.faults);
                Err(MakeError::Failed)
            }
        }
    }

    fn look(&mut self, name: &str, at: u64, len: usize, out: &mut Piece) -> Result<(), Failed> {
        let mut buf = [0; PIECE];
        match self.read(name, at, &mut buf[..len]) {
            Ok(n) => {
                out.set(&buf[..n]);
                Ok(())
            }
            Err(_) => Err(count_fault(&mut self.faults)),
        }
    }

    fn put(&mut self, name: &str, w: &Write) -> Result<(), Failed> {
        match self.write(name, w.at, w.piece.as_slice()) {
            Ok(()) => Ok(()),
            Err(_) => Err(count_fault(&mut self.faults)),
        }
    }

    /// There is always room.
    fn reserve(&mut self, _name: &str, _pieces: u64, _end: u64) -> Result<(), OutOfMemory> {
        Ok(())
    }
}
