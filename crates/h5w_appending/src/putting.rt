//! The pieces of a session that are put into a file.
ghost use Rattle.std.specs.Prelude.{◌≡◌, ◌≤◌, ◌+◌, [], false, length, OnErr, OnOk, Ok};
ghost use Rattle.h5w_image.specs.View.{IsThere};
ghost use Rattle.h5w_model.specs.Logs.{Log};
ghost use Rattle.h5w_model.specs.Superblock.{super_at, super_bytes};
ghost use Rattle.h5w_writer.specs.Sessions.{closed_of, closed_root};
ghost use Rattle.h5w_writer.specs.Stands.{Stands};
ghost use Rattle.h5w_appending.specs.Puts.{PutsPieces, PutsSome};

use h5w_image::{Disk, Failed};
use h5w_writer::WriterCore;

/// Puts the session's oldest pending piece into the file.
#[tactic(auto, using(h5w_image::proofs::DiskLemmas::kept))]
fn put_next<D: Disk>(session: &mut WriterCore, file: &str, disk: &mut D) -> Result<(), Failed>
    requires there { IsThere (D.view disk.old) file.now }
    requires some { 1 ≤ length session.old.pending }
    requires room { 1 ≤ (D.view disk.old).pieces }
    requires end { session.old.places.end ≤ (D.view disk.old).end file.now }
    ensures puts { OnOk result (PutsPieces file.now session.old session.new (D.view disk.old) (D.view disk.new)) }
    ensures one { OnOk result (length session.new.pending + 1 ≡ length session.old.pending) }
    ensures calm { OnOk result ((D.view disk.new).faults ≡ (D.view disk.old).faults) }
    ensures failed { OnErr result (PutsSome file.now session.old session.new (D.view disk.old) (D.view disk.new)) }
{
    let Some(w) = session.next() else {
        return Ok(());
    };
    match disk.put(file, w) {
        Ok(()) => {
            session.written();
            Ok(())
        }
        Err(failed) => Err(failed),
    }
}

/// Puts the session's pending pieces into the file, one after another.
pub fn put_pending<D: Disk>(
    session: &mut WriterCore,
    file: &str,
    disk: &mut D,
) -> Result<(), Failed>
    requires there { IsThere (D.view disk.old) file.now }
    requires room { length session.old.pending ≤ (D.view disk.old).pieces }
    requires end { session.old.places.end ≤ (D.view disk.old).end file.now }
    ensures puts { OnOk result (PutsPieces file.now session.old session.new (D.view disk.old) (D.view disk.new)) }
    ensures all { OnOk result (session.new.pending ≡ []) }
    ensures calm { OnOk result ((D.view disk.new).faults ≡ (D.view disk.old).faults) }
    ensures failed { OnErr result (PutsSome file.now session.old session.new (D.view disk.old) (D.view disk.new)) }
{
    for _ in 0..session.pending() {
        match put_next(session, file, disk) {
            Ok(()) => {}
            Err(failed) => return Err(failed),
        }
    }
    Ok(())
}

/// Closes the session, which has nothing pending.
pub fn close(session: &mut WriterCore)
    requires running { session.old.stopped ≡ false }
    requires idle { session.old.pending ≡ [] }
    ensures closed { session.new ≡ closed_of session.old }
    ensures reads { super_at (super_bytes (closed_root session.old)) ≡ Ok (closed_root session.old) }
    ensures stands { (log : Log) → Stands session.old log → Stands session.new log }
{
    match session.close() {
        Ok(()) => {}
        Err(_) => unreachable!(),
    }
}
