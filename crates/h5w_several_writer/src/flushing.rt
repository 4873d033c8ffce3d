//! The flush of all datasets: each part is planned over what the parts before it leave, and nothing is carried out
//! before all are planned.
ghost use Rattle.std.specs.Prelude.{◌≡◌, ◌⊎◌, ◌+◌, ◌<◌, ◌≤◌, ◌^◌, length, IfErr, IfOk, MatchOption, OnErr, OnOk, Ok, Err, Some};
ghost use Rattle.h5w_image.specs.View.{Same};
ghost use Rattle.h5w_model.specs.Causes.{Rose};
ghost use Rattle.h5w_model.specs.Several.{FileLog, plans_each};
ghost use Rattle.h5w_space.specs.declared.Full.{Full};
ghost use Rattle.h5w_writer.specs.Refusals.{IsSpace};
ghost use Rattle.h5w_writer.specs.declared.refusal.FlushError.{FlushError};
ghost use Rattle.h5w_several_writer.specs.Flows.{PlansAll};
ghost use Rattle.h5w_several_writer.specs.Refusals.{HasRoomForAll, IsDeepAmong, IsFullAmong, NoPlaceAll, flush_refusal_of};
ghost use Rattle.h5w_several_writer.specs.Parts.{AllSessions, AreIdle};
ghost use Rattle.h5w_several_writer_laws.specs.Sessions.{AreFlushed, AreSameBut, AreSessions, FlushesAll, SameButHeld, all_pending, counts_of};
ghost use Rattle.h5w_several_writer_laws.specs.Standing.{StandsAll, and_then};

use crate::parts::Parts;
use crate::planning::{begin_part, end_part, undo_part};
use crate::several::{SeveralWriter, set_aside};
use h5w_image::PieceWrite;
use h5w_model::{OutOfMemory, Super};
use h5w_space::Places;
use h5w_writer::{FlushError, WriterCore};
use std::alloc::Global;

/// Makes room in the image for so many pieces and one more, up to this end.
fn make_room<W: PieceWrite>(pieces: u64, end: u64, image: &mut W) -> Result<(), FlushError>
    ensures pieces { OnOk result (pieces + 1 ≤ (W.view image.new).pieces) }
    ensures end { OnOk result (end ≤ (W.view image.new).end) }
    ensures few { OnOk result (pieces + 1 < 2 ^ 64) }
    ensures image { Same (W.view image.old) (W.view image.new) }
    ensures fault { result ≡ Err FlushError.Failed → Rose (W.view image.old).faults (W.view image.new).faults }
    ensures causes { IfErr result (λ e. (e ≡ FlushError.Failed) ⊎ (e ≡ FlushError.OutOfMemory)) }
{
    let all = pieces.checked_add(1).ok_or(OutOfMemory)?;
    image.reserve(all, end)?;
    Ok(())
}

/// Flushes these datasets, whose own places end by `from`, over a superblock and places, behind parts that have so many
/// pieces at most. The superblock and the places are then those that the last part leaves, and each dataset has that
/// superblock, and places that end there. After a refusal all is as before, but for places that are held in the
/// indexes.
fn flush_parts<W: PieceWrite>(
    parts: &mut [WriterCore],
    alloc: Global,
    from: u64,
    pieces: u64,
    limit: u64,
    root: &mut Super,
    places: &mut Places,
    image: &mut W,
) -> Result<(), FlushError>
    requires idle { AreIdle from parts.old }
    requires from { from ≤ places.old.end }
    requires begun { 48 ≤ places.old.end }
    requires version { root.old.version ≡ 3 }
    requires within { limit ≤ 2 ^ 40 }
    requires limit { limit ≡ places.old.limit }
    ensures flushed { OnOk result (AreFlushed root.old places.old parts.old root.new places.new parts.new) }
    ensures sessions { OnOk result (AllSessions parts.new) }
    ensures version { OnOk result (root.new.version ≡ 3) }
    ensures rises { OnOk result (places.old.end ≤ places.new.end) }
    ensures limit { OnOk result (places.new.limit ≡ limit) }
    ensures pieces { OnOk result (pieces + length (all_pending parts.new) + 1 ≤ (W.view image.new).pieces) }
    ensures few { OnOk result (pieces + length (all_pending parts.new) + 1 < 2 ^ 64) }
    ensures end { OnOk result (places.new.end ≤ (W.view image.new).end) }
    ensures kept { OnErr result (AreSameBut parts.old parts.new) }
    ensures root { OnErr result (root.new ≡ root.old) }
    ensures places { OnErr result (places.new ≡ places.old) }
    ensures full { (full : Full) → result ≡ Err (FlushError.Space full) → IsFullAmong root.old places.old parts.old full }
    ensures deep { result ≡ Err FlushError.Deep → IsDeepAmong parts.old }
    ensures causes { IfErr result (λ e. IsSpace e ⊎ ((e ≡ FlushError.Deep) ⊎ ((e ≡ FlushError.Failed) ⊎ (e ≡ FlushError.OutOfMemory)))) }
    ensures fault { result ≡ Err FlushError.Failed → Rose (W.view image.old).faults (W.view image.new).faults }
    ensures image { Same (W.view image.old) (W.view image.new) }
{
    match parts.split_first_mut() {
        None => make_room(pieces, places.end(), image),
        Some((part, rest)) => {
            if part.waits() == 0 {
                return match flush_parts(rest, alloc, from, pieces, limit, root, places, image) {
                    Ok(()) => {
                        drop(set_aside(part, alloc, *root, places.end(), limit));
                        Ok(())
                    }
                    Err(e) => Err(e),
                };
            }
            match begin_part(part, alloc, pieces, root, places) {
                Ok(mut turn) => match flush_parts(
                    rest,
                    alloc,
                    from,
                    turn.pieces,
                    limit,
                    &mut turn.root,
                    &mut turn.places,
                    image,
                ) {
                    Ok(()) => {
                        end_part(part, alloc, turn, limit, root, places);
                        Ok(())
                    }
                    Err(e) => {
                        undo_part(part, alloc, turn, root, places);
                        Err(e)
                    }
                },
                Err(e) => Err(e),
            }
        }
    }
}

/// How many pieces of each dataset are pending.
fn counts(parts: &[WriterCore]) -> Parts
    requires { length parts.now ≤ 8 }
    ensures { result ≡ counts_of parts.now }
{
    let mut counts = Parts::new();
    for part in parts {
        counts.push(part.pending());
    }
    counts
}

impl SeveralWriter {
    /// Plans the pieces that make the rows that wait visible, which are pending then: those of each dataset with such
    /// rows in turn, each as the session of that dataset alone has them, ended by its header, with the superblock in
    /// each part in which the end of the file is another. Answers how many they are, dataset after dataset, 0 where no
    /// row waits. What is refused is refused whole: where the file has no place for one part, or an index no room, no
    /// dataset is flushed. All memory and all places are taken before anything is carried out. Room is reserved in the
    /// image for all pieces and one more, up to the file's new end.
    pub fn flush<W: PieceWrite>(&mut self, image: &mut W) -> Result<Parts, FlushError>
        ensures flushed { OnOk result (FlushesAll self.old self.new) }
        ensures counts { IfOk result (λ counts. counts ≡ counts_of self.new.parts) }
        ensures rows { OnOk result (PlansAll self.old self.new) }
        ensures stands { IfOk result (λ counts. (log : FileLog) → StandsAll self.old log → StandsAll self.new (and_then (plans_each counts) log)) }
        ensures left { OnErr result ((log : FileLog) → StandsAll self.old log → StandsAll self.new log) }
        ensures refused { (e : FlushError) → flush_refusal_of self.old ≡ Some e → result ≡ Err e }
        ensures causes { IfErr result (λ e. (flush_refusal_of self.old ≡ Some e) ⊎ (IsSpace e ⊎ ((e ≡ FlushError.Deep) ⊎ ((e ≡ FlushError.Failed) ⊎ (e ≡ FlushError.OutOfMemory))))) }
        ensures full { (full : Full) → result ≡ Err (FlushError.Space full) → IsFullAmong self.old.root self.old.places self.old.parts full }
        ensures bound { (full : Full) → result ≡ Err (FlushError.Space full) → (log : FileLog) → StandsAll self.old log → NoPlaceAll self.old log full }
        ensures deep { result ≡ Err FlushError.Deep → IsDeepAmong self.old.parts }
        ensures fault { result ≡ Err FlushError.Failed → Rose (W.view image.old).faults (W.view image.new).faults }
        ensures kept { OnErr result (SameButHeld self.old self.new) }
        ensures sessions { AreSessions self.new }
        ensures image { Same (W.view image.old) (W.view image.new) }
        ensures room { OnOk result (HasRoomForAll self.new (W.view image.new)) }
    {
        // the session is opened here, so that what holds of every session is known
        let _ = &self.parts;
        self.ready()?;
        self.flush_counted(image)
    }

    /// Flushes all datasets, and answers how many pieces each has.
    fn flush_counted<W: PieceWrite>(&mut self, image: &mut W) -> Result<Parts, FlushError>
        requires idle { length (all_pending self.old.parts) ≡ 0 }
        ensures flushed { OnOk result (FlushesAll self.old self.new) }
        ensures counts { IfOk result (λ counts. counts ≡ counts_of self.new.parts) }
        ensures full { (full : Full) → result ≡ Err (FlushError.Space full) → IsFullAmong self.old.root self.old.places self.old.parts full }
        ensures deep { result ≡ Err FlushError.Deep → IsDeepAmong self.old.parts }
        ensures fault { result ≡ Err FlushError.Failed → Rose (W.view image.old).faults (W.view image.new).faults }
        ensures kept { OnErr result (SameButHeld self.old self.new) }
        ensures sessions { AreSessions self.new }
        ensures image { Same (W.view image.old) (W.view image.new) }
        ensures room { OnOk result (HasRoomForAll self.new (W.view image.new)) }
        ensures causes { IfErr result (λ e. IsSpace e ⊎ ((e ≡ FlushError.Deep) ⊎ ((e ≡ FlushError.Failed) ⊎ (e ≡ FlushError.OutOfMemory)))) }
    {
        match self.flush_all(image) {
            Ok(()) => Ok(counts(&self.parts)),
            Err(e) => Err(e),
        }
    }

    /// Why no flush is planned, but for places, the image and memory.
    fn ready(&self) -> Result<(), FlushError>
        ensures { MatchOption (flush_refusal_of self.now) (result ≡ Ok tt) (λ e. result ≡ Err e) }
    {
        if self.stopped {
            return Err(FlushError::Stopped);
        }
        let pending = self.pending();
        if pending > 0 {
            return Err(FlushError::Busy { pending });
        }
        Ok(())
    }

    /// Flushes all datasets.
    fn flush_all<W: PieceWrite>(&mut self, image: &mut W) -> Result<(), FlushError>
        requires idle { length (all_pending self.old.parts) ≡ 0 }
        ensures flushed { OnOk result (FlushesAll self.old self.new) }
        ensures kept { OnErr result (SameButHeld self.old self.new) }
        ensures sessions { AreSessions self.new }
        ensures full { (full : Full) → result ≡ Err (FlushError.Space full) → IsFullAmong self.old.root self.old.places self.old.parts full }
        ensures deep { result ≡ Err FlushError.Deep → IsDeepAmong self.old.parts }
        ensures causes { IfErr result (λ e. IsSpace e ⊎ ((e ≡ FlushError.Deep) ⊎ ((e ≡ FlushError.Failed) ⊎ (e ≡ FlushError.OutOfMemory)))) }
        ensures fault { result ≡ Err FlushError.Failed → Rose (W.view image.old).faults (W.view image.new).faults }
        ensures image { Same (W.view image.old) (W.view image.new) }
        ensures room { OnOk result (HasRoomForAll self.new (W.view image.new)) }
    {
        let alloc = *self.parts.allocator();
        let from = self.places.end();
        flush_parts(
            &mut self.parts,
            alloc,
            from,
            0,
            self.places.limit(),
            &mut self.root,
            &mut self.places,
            image,
        )
    }
}
