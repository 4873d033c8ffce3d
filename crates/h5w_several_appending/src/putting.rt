//! The pieces of a session of several datasets that are put into a file.
ghost use Rattle.std.specs.Prelude.{◌≡◌, ◌≤◌, ◌+◌, [], ◌∷◌, false, length, OnErr, OnOk, Ok};
ghost use Rattle.h5w_image.specs.View.{IsThere};
ghost use Rattle.h5w_model.specs.Several.{FileLog};
ghost use Rattle.h5w_model.specs.Superblock.{super_at, super_bytes};
ghost use Rattle.h5w_writer.specs.PartLaws.{super_piece};
ghost use Rattle.h5w_several_writer_laws.specs.Sessions.{all_pending, closed_all, closed_super};
ghost use Rattle.h5w_several_writer_laws.specs.Standing.{StandsAll};
ghost use Rattle.h5w_several_appending.specs.Puts.{PutsPieces, PutsSome};
ghost use Rattle.h5w_several_appending.specs.Appending.{PutsBy};

use crate::batching::Ending;
use h5w_appending::Target;
use h5w_image::{Disk, Failed};
use h5w_several_writer::SeveralWriter;

/// Puts the session's oldest pending piece into the file.
#[tactic(auto, using(h5w_image::proofs::DiskLemmas::kept))]
fn put_next<D: Disk>(session: &mut SeveralWriter, file: &str, disk: &mut D) -> Result<(), Failed>
    requires there { IsThere (D.view disk.old) file.now }
    requires some { 1 ≤ length (all_pending session.old.parts) }
    requires room { 1 ≤ (D.view disk.old).pieces }
    requires end { session.old.places.end ≤ (D.view disk.old).end file.now }
    ensures puts { OnOk result (PutsPieces file.now session.old session.new (D.view disk.old) (D.view disk.new)) }
    ensures one { OnOk result (length (all_pending session.new.parts) + 1 ≡ length (all_pending session.old.parts)) }
    ensures calm { OnOk result ((D.view disk.new).faults ≡ (D.view disk.old).faults) }
    ensures failed { OnErr result (PutsSome file.now session.old session.new (D.view disk.old) (D.view disk.new)) }
{
    let Some(w) = session.next() else {
        return Ok(());
    };
    match disk.put(file, w) {
        Ok(()) => {
            session.written();
            Ok(())
        }
        Err(failed) => Err(failed),
    }
}

/// Puts the session's pending pieces into the file, one after another.
fn put_pending<D: Disk>(session: &mut SeveralWriter, file: &str, disk: &mut D) -> Result<(), Failed>
    requires there { IsThere (D.view disk.old) file.now }
    requires room { length (all_pending session.old.parts) ≤ (D.view disk.old).pieces }
    requires end { session.old.places.end ≤ (D.view disk.old).end file.now }
    ensures puts { OnOk result (PutsPieces file.now session.old session.new (D.view disk.old) (D.view disk.new)) }
    ensures all { OnOk result (all_pending session.new.parts ≡ []) }
    ensures calm { OnOk result ((D.view disk.new).faults ≡ (D.view disk.old).faults) }
    ensures failed { OnErr result (PutsSome file.now session.old session.new (D.view disk.old) (D.view disk.new)) }
{
    for _ in 0..session.pending() {
        match put_next(session, file, disk) {
            Ok(()) => {}
            Err(failed) => return Err(failed),
        }
    }
    Ok(())
}

/// Puts the session's pending pieces into the file. Where the disk fails, or has failed since the beginning, the session is stopped.
pub fn put_all<D: Disk>(
    session: &mut SeveralWriter,
    target: Target<'_>,
    disk: &mut D,
) -> Result<(), Ending>
    requires there { IsThere (D.view disk.old) target.file.now }
    requires room { length (all_pending session.old.parts) ≤ (D.view disk.old).pieces }
    requires end { session.old.places.end ≤ (D.view disk.old).end target.file.now }
    ensures { PutsBy target.entry.faults target.entry.file.now session.old session.new (D.view disk.old) (D.view disk.new) result }
{
    if disk.faults() != target.faults {
        session.failed();
        return Err(Ending::Disk);
    }
    match put_pending(session, target.file, disk) {
        Ok(()) => Ok(()),
        Err(_) => {
            session.failed();
            Err(Ending::Disk)
        }
    }
}

/// Closes the session, which has nothing pending.
pub fn close(session: &mut SeveralWriter)
    requires running { session.old.stopped ≡ false }
    requires idle { all_pending session.old.parts ≡ [] }
    ensures closed { session.new ≡ closed_all session.old }
    ensures pending { all_pending session.new.parts ≡ super_piece (closed_super session.old) ∷ [] }
    ensures reads { super_at (super_bytes (closed_super session.old)) ≡ Ok (closed_super session.old) }
    ensures stands { (log : FileLog) → StandsAll session.old log → StandsAll session.new log }
{
    match session.close() {
        Ok(()) => {}
        Err(_) => unreachable!(),
    }
}
