//! A session of several datasets ends.
ghost use Rattle.std.specs.Prelude.{◌≡◌, ◌≤◌, ◌^◌, ◌∷◌, [], Ok, Err, IfOk, IsOk, MatchOption, OnErr, OnOk, false, length, map};
ghost use Rattle.h5w_model.specs.Several.{FileLog};
ghost use Rattle.h5w_model.specs.Superblock.{super_at, super_bytes};
ghost use Rattle.h5w_writer.specs.Sessions.{cleared, stopped_of};
ghost use Rattle.h5w_several_writer.specs.Parts.{AllSessions, AreEnded, IsFirst};
ghost use Rattle.h5w_several_writer.specs.Refusals.{close_refusal_of};
ghost use Rattle.h5w_writer.specs.PartLaws.{super_piece};
ghost use Rattle.h5w_several_writer_laws.specs.Sessions.{AreSessions, all_pending, closed_all, closed_part, closed_parts, closed_super, stopped_all};
ghost use Rattle.h5w_several_writer_laws.specs.Standing.{StandsAll};

use crate::several::{SeveralWriter, set_aside};
use h5w_model::Super;
use h5w_writer::{CloseError, WriterCore};
use std::alloc::Global;

/// Drops the pending pieces of these datasets, whose sessions are stopped from then on.
fn stop_all(parts: &mut [WriterCore])
    ensures { parts.new ≡ map stopped_of parts.old }
{
    match parts.split_first_mut() {
        None => {}
        Some((part, rest)) => {
            part.stop();
            stop_all(rest);
        }
    }
}

/// The same, and the superblock of all of them is this.
fn close_behind(parts: &mut [WriterCore], alloc: Global, root: Super, end: u64, limit: u64)
    requires version { root.version ≡ 3 }
    requires begun { 48 ≤ end }
    requires limit { limit ≤ 2 ^ 40 }
    requires ends { AreEnded end limit parts.old }
    ensures closed { parts.new ≡ map (closed_part root) parts.old }
    ensures sessions { AllSessions parts.new }
{
    match parts.split_first_mut() {
        None => {}
        Some((part, rest)) => {
            part.stop();
            drop(set_aside(part, alloc, root, end, limit));
            close_behind(rest, alloc, root, end, limit);
        }
    }
}

/// The first of these datasets writes the superblock of a file that nobody writes; the others are told of it. Answers
/// that superblock.
fn close_all(
    parts: &mut [WriterCore],
    alloc: Global,
    root: Super,
    end: u64,
    limit: u64,
) -> Result<Super, CloseError>
    requires version { root.version ≡ 3 }
    requires begun { 48 ≤ end }
    requires limit { limit ≤ 2 ^ 40 }
    requires ends { AreEnded end limit parts.old }
    requires first { IsFirst root parts.old }
    ensures ok { IsOk result }
    ensures root { IfOk result (λ r. r ≡ record root { flags = cleared root.flags }) }
    ensures closed { IfOk result (λ r. parts.new ≡ closed_parts r parts.old) }
    ensures reads { IfOk result (λ r. super_at (super_bytes r) ≡ Ok r) }
    ensures sessions { AllSessions parts.new }
{
    match parts.split_first_mut() {
        None => Ok(root),
        Some((part, rest)) => match part.close() {
            Ok(()) => {
                let root = part.root();
                close_behind(rest, alloc, root, end, limit);
                Ok(root)
            }
            Err(e) => Err(e),
        },
    }
}

impl SeveralWriter {
    /// Drops the pending pieces. The session is stopped from then on: nothing is pending, and what was flushed stays.
    /// Takes no memory.
    pub fn stop(&mut self)
        ensures session { self.new ≡ stopped_all self.old }
        ensures sessions { AreSessions self.new }
        ensures stands { (log : FileLog) → StandsAll self.old log → StandsAll self.new log }
    {
        self.drop_pending();
    }

    /// Nothing is pending, and the session is stopped.
    fn drop_pending(&mut self)
        ensures session { self.new ≡ stopped_all self.old }
        ensures sessions { AreSessions self.new }
    {
        stop_all(&mut self.parts);
        self.stopped = true;
    }

    /// The image failed at a piece, so that the pieces behind it cannot become visible: the session is stopped.
    pub fn failed(&mut self)
        ensures session { self.new ≡ stopped_all self.old }
        ensures sessions { AreSessions self.new }
        ensures stands { (log : FileLog) → StandsAll self.old log → StandsAll self.new log }
    {
        self.stop();
    }

    /// Plans the superblock with the flags of a file that nobody writes, as one pending piece: rows that wait stay
    /// unwritten. The session is stopped from then on. Takes no memory.
    pub fn close(&mut self) -> Result<(), CloseError>
        ensures closed { OnOk result (self.new ≡ closed_all self.old) }
        ensures reads { OnOk result (super_at (super_bytes (closed_super self.old)) ≡ Ok (closed_super self.old)) }
        ensures stands { OnOk result ((log : FileLog) → StandsAll self.old log → StandsAll self.new log) }
        ensures refused { MatchOption (close_refusal_of self.old) (result ≡ Ok tt) (λ e. result ≡ Err e) }
        ensures kept { OnErr result (self.new ≡ self.old) }
        ensures pending { OnOk result (all_pending self.new.parts ≡ super_piece (closed_super self.old) ∷ []) }
        ensures sessions { AreSessions self.new }
    {
        // the session is opened here, so that what holds of every session is known
        let _ = &self.parts;
        self.clear()
    }

    /// Plans the superblock with cleared flags, and nothing else.
    fn clear(&mut self) -> Result<(), CloseError>
        ensures closed { OnOk result (self.new ≡ closed_all self.old) }
        ensures reads { OnOk result (super_at (super_bytes (closed_super self.old)) ≡ Ok (closed_super self.old)) }
        ensures refused { MatchOption (close_refusal_of self.old) (result ≡ Ok tt) (λ e. result ≡ Err e) }
        ensures kept { OnErr result (self.new ≡ self.old) }
        ensures going { OnOk result (self.old.stopped ≡ false) }
        ensures idle { OnOk result (length (all_pending self.old.parts) ≡ 0) }
        ensures sessions { AreSessions self.new }
    {
        if self.stopped {
            return Err(CloseError::Stopped);
        }
        let pending = self.pending();
        if pending > 0 {
            return Err(CloseError::Busy { pending });
        }
        let alloc = *self.parts.allocator();
        match close_all(
            &mut self.parts,
            alloc,
            self.root,
            self.places.end(),
            self.places.limit(),
        ) {
            Ok(root) => {
                self.root = root;
                self.stopped = true;
                Ok(())
            }
            Err(e) => Err(e),
        }
    }
}
