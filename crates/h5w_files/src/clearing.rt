//! The command that clears the flags of writers, and makes superblocks of version 2 those of version 3.
ghost use Rattle.std.specs.Prelude.{◌≡◌, ◌≤◌, [], ◌++◌, Ok, Err, length, OnOk, IfErr, IfOk};
ghost use Rattle.h5w_model.specs.Datasets.{super_refusal};
ghost use Rattle.h5w_image.specs.View.{IsThere};
ghost use Rattle.h5w_files.specs.Ends.{EndsWell};
ghost use Rattle.h5w_files.specs.Clears.{ClearEnds, ClearsTo, FindsSuperblock, IsOfClear, Puts, clear_text, clears_at, clears_by, clears_of};

use crate::flags::{Clearing, NEWER, OLDER, cleared, flags_put, rewritten};
use h5w_image::{Disk, Piece, Write};
use h5w_model::{BlockFault, OutOfMemory, ReadError};
use h5w_super::{LEN, Super, SuperError, decode};
use h5w_text::{ErrorLine, Sink, Status, say, tell, write_numbers};
use std::alloc::Global;

/// The line of a superblock's refusal.
fn super_line(error: SuperError) -> ErrorLine
    ensures { result ≡ ErrorLine.Read (super_refusal error) }
{
    let refusal = match error {
        SuperError::NotHdf5 => ReadError::NotHdf5,
        SuperError::Short { got } => ReadError::Damaged {
            at: 0,
            fault: BlockFault::Cut {
                need: LEN as u64,
                got,
            },
        },
        SuperError::Sum(sums) => ReadError::Damaged {
            at: 0,
            fault: BlockFault::Sum(sums),
        },
        error => ReadError::Super(error),
    };
    ErrorLine::Read(refusal)
}

/// What is cleared in a superblock; one of version 2 is refused, unless it is to be upgraded.
fn clears_by(superblock: Super, upgrade: bool) -> Result<Clearing, ErrorLine>
    ensures exact { result ≡ clears_by upgrade superblock }
    ensures kinds { IfErr result IsOfClear }
    ensures quiet { result ≡ Err ErrorLine.Disk → ⊥ }
{
    if superblock.version != OLDER {
        return Ok(Clearing::Flags(superblock.flags));
    }
    if upgrade {
        return Ok(Clearing::Upgraded);
    }
    Err(ErrorLine::WriterVersion(superblock.version))
}

/// What is cleared in a superblock, which these bytes begin with.
fn clears_at(bytes: &[u8], upgrade: bool) -> Result<Clearing, ErrorLine>
    ensures exact { result ≡ clears_at upgrade bytes.now }
    ensures kinds { IfErr result IsOfClear }
    ensures whole { OnOk result (48 ≤ length bytes.now) }
    ensures quiet { result ≡ Err ErrorLine.Disk → ⊥ }
{
    match decode(bytes) {
        Ok(superblock) => clears_by(superblock, upgrade),
        Err(error) => Err(super_line(error)),
    }
}

/// Puts the file's first 48 bytes into `piece`, or fewer where it ends. Answers what is cleared in the superblock that they are.
#[tactic(auto, using(h5w_image::proofs::DiskLemmas::kept))]
fn superblock<D: Disk>(
    file: &str,
    upgrade: bool,
    disk: &mut D,
    piece: &mut Piece,
) -> Result<Clearing, ErrorLine>
    ensures finds { FindsSuperblock file.now upgrade (D.view disk.old) (D.view disk.new) piece.new result }
{
    match disk.size(file) {
        Ok(Some(_)) => {}
        Ok(None) => return Err(ErrorLine::Missing),
        Err(_) => return Err(ErrorLine::Disk),
    }
    match disk.look(file, 0, LEN, piece) {
        Ok(()) => clears_at(piece.as_slice(), upgrade),
        Err(_) => Err(ErrorLine::Disk),
    }
}

/// Puts the superblock with version 3 and these flags.
#[tactic(auto, using(h5w_image::proofs::DiskLemmas::kept))]
fn put_superblock<D: Disk>(
    file: &str,
    superblock: &[u8],
    flags: u8,
    disk: &mut D,
) -> Result<(), ErrorLine>
    requires there { IsThere (D.view disk.old) file.now }
    requires whole { length superblock.now ≡ 48 }
    ensures puts { Puts file.now superblock.now flags (D.view disk.old) (D.view disk.new) result }
{
    if disk.reserve(file, 1, LEN as u64).is_err() {
        return Err(ErrorLine::Memory);
    }
    let w = Write {
        at: 0,
        piece: Piece::of(&rewritten(superblock, flags)),
    };
    match disk.put(file, &w) {
        Ok(()) => Ok(()),
        Err(_) => Err(ErrorLine::Disk),
    }
}

/// Adds the line of what is cleared: the flags before and after, or the versions.
fn write_cleared(text: &mut Vec<u8>, found: Clearing) -> Result<(), OutOfMemory>
    ensures { OnOk result (text.new.items ≡ text.old.items ++ clear_text (Ok found)) }
{
    let flags = match found {
        Clearing::Flags(flags) => flags,
        Clearing::Upgraded => {
            return write_numbers(text, b"upgrade", &[u64::from(OLDER), u64::from(NEWER)]);
        }
    };
    let numbers = [u64::from(flags), u64::from(cleared(flags))];
    write_numbers(text, b"clear", &numbers)
}

/// Clears the flags of writers in the file, where one of them is set, or upgrades its superblock, and answers what it did. `text`
/// gets the line of that before anything is put.
#[tactic(auto, using(crate::proofs::ClearLemmas::clears_nothing, crate::proofs::ClearLemmas::clears_put, crate::proofs::ClearLemmas::clears_failed))]
fn clear_flags<D: Disk>(
    file: &str,
    upgrade: bool,
    text: &mut Vec<u8>,
    disk: &mut D,
) -> Result<Clearing, ErrorLine>
    requires { text.old.items ≡ [] }
    ensures clears { ClearsTo file.now upgrade (D.view disk.old) (D.view disk.new) result }
    ensures text { IfOk result (λ found. text.new.items ≡ clear_text (Ok found)) }
{
    let mut piece = Piece::new();
    let found = superblock(file, upgrade, disk, &mut piece)?;
    if write_cleared(text, found).is_err() {
        return Err(ErrorLine::Memory);
    }
    let Some(flags) = flags_put(found) else {
        return Ok(found);
    };
    put_superblock(file, piece.as_slice(), flags, disk)?;
    Ok(found)
}

/// Clears the flags of writers in the file of the name `file`, and writes the flags before and after. A superblock of version 2,
/// whose flags say nothing, gets version 3 and no flags where `upgrade` is set, and is refused otherwise.
#[tactic(auto, using(crate::proofs::ClearLemmas::clears_whole, crate::proofs::ClearLemmas::clears_done))]
pub fn clear<K: Sink, D: Disk>(
    alloc: Global,
    file: &str,
    upgrade: bool,
    sink: &mut K,
    disk: &mut D,
) -> Status
    ensures clears { ClearEnds file.now upgrade (D.view disk.old) (D.view disk.new) result (K.view sink.old) (K.view sink.new) }
    ensures completes { EndsWell (clears_of upgrade) file.now (D.view disk.old) (D.view disk.new) result (K.view sink.old) (K.view sink.new) }
{
    let mut text = Vec::new(alloc);
    match clear_flags(file, upgrade, &mut text, disk) {
        Ok(_) => say(&text, Status::Done, sink),
        Err(error) => tell(alloc, &error, sink),
    }
}
