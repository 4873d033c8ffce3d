//! The flush of a session in two halves: all memory and all places are taken before anything changes.
ghost use Rattle.std.specs.Prelude.{◌≡◌, ◌≢◌, ◌⊎◌, ◌+◌, ◌<◌, ◌≤◌, [], ◌∷◌, length, IfOk, IfErr, IfSome, IsOk, IsSome, MatchOption, OnOk, OnErr, Some, Ok, Err};
ghost use Rattle.h5w_model.specs.Causes.{Rose};
ghost use Rattle.h5w_model.specs.Headers.{index_in_header, messages_at, rows_in_header, with_rows_bytes};
ghost use Rattle.h5w_model.specs.Logs.{Log, and_now, load, plans};
ghost use Rattle.h5w_flush_laws.specs.Parts.{AreEnded};
ghost use Rattle.h5w_image.specs.View.{Same};
ghost use Rattle.h5w_space.specs.declared.Full.{Full};
ghost use Rattle.h5w_index.specs.Placing.{IsPlacing};
ghost use Rattle.h5w_index.specs.Steps.{IsPlan};
ghost use Rattle.h5w_writer.specs.Flushes.{IsFlushed, SameBut, touched_by};
ghost use Rattle.h5w_writer.specs.Loads.{NoPlace};
ghost use Rattle.h5w_pieces.specs.Joined.{option_list};
ghost use Rattle.h5w_writer.specs.Starts.{HasFlushed, IsStartFlushed};
ghost use Rattle.h5w_writer.specs.Refusals.{IsDeepFor, IsFullFor, IsSpace, flush_refusal};
ghost use Rattle.h5w_writer.specs.Room.{HasRoomFor};
ghost use Rattle.h5w_writer.specs.Past.{IsNew};
ghost use Rattle.h5w_writer.specs.Sessions.{AllEndBy, AreReached, IsWhole, TakesRows, cutting_of, rows_of, Session};
ghost use Rattle.h5w_writer.specs.Stands.{Stands};
ghost use Rattle.h5w_writer.specs.declared.refusal.FlushError.{FlushError};
ghost use Rattle.h5w_writer.specs.Halves.{HasGrown, IsHalf, PlansAlone, PlansGrowth, PlansStart, WasHalf, end_of, most_of, places_of};

use crate::planned::{Growing, Planned, Prepared, Starting};
use crate::refusal::FlushError;
use crate::state::WriterCore;
use crate::taking::unset;
use h5w_chunks::ChunkPlace;
use h5w_image::PieceWrite;
use h5w_model::{OutOfMemory, PIECE, Piece, Super, Write};
use h5w_ohdr::with_rows;
use h5w_pieces::{end_at, join, join_first, naming};

/// Makes room in the image for the pieces of the rows, for so many behind them, and for one more, up to this end.
fn make_room<W: PieceWrite>(
    rows: usize,
    after: usize,
    end: u64,
    image: &mut W,
) -> Result<(), FlushError>
    ensures pieces { OnOk result (rows + after + 1 ≤ (W.view image.new).pieces) }
    ensures end { OnOk result (end ≤ (W.view image.new).end) }
    ensures image { Same (W.view image.old) (W.view image.new) }
    ensures fault { result ≡ Err FlushError.Failed → Rose (W.view image.old).faults (W.view image.new).faults }
    ensures causes { IfErr result (λ e. (e ≡ FlushError.Failed) ⊎ (e ≡ FlushError.OutOfMemory)) }
{
    let all = rows.checked_add(after).ok_or(OutOfMemory)?;
    let pieces = (all as u64).checked_add(1).ok_or(OutOfMemory)?;
    image.reserve(pieces, end)?;
    Ok(())
}

/// The superblock with this end of the file, to be written where its end is another.
fn raise(root: &mut Super, end: u64) -> Option<Write>
    requires { root.old.version ≡ 3 }
    ensures root { root.new ≡ record root.old { end = end } }
    ensures ended { AreEnded root.old end (option_list result) }
    ensures unraised { end ≡ root.old.end → option_list result ≡ [] }
    ensures sized { IfSome result (λ w. (w.at ≡ 0) × (length w.piece ≡ 48)) }
{
    if root.end == end {
        return None;
    }
    root.end = end;
    Some(Write {
        at: 0,
        piece: Piece::of(&h5w_super::encode(root)),
    })
}

/// A dataset's header gets another number of rows, and the address of its index where one is given.
#[inline(always)]
fn change_rows(header: &mut Piece, rows: u64, index: Option<u64>)
    requires read { IsOk (messages_at header.old) }
    requires rows { IsSome (rows_in_header header.old) }
    requires index { IsSome index → IsSome (index_in_header header.old) }
    ensures header { header.new ≡ with_rows_bytes header.old rows index }
    ensures short { length header.old ≤ 512 }
{
    let mut bytes = [0; PIECE];
    let chunk = &mut bytes[..header.len()];
    chunk.copy_from_slice(header.as_slice());
    with_rows(chunk, rows, index);
    header.set(chunk);
}

/// The same, and the piece that writes the header at its place.
fn raise_rows(header: &mut Piece, at: u64, rows: u64, index: Option<u64>) -> Write
    requires read { IsOk (messages_at header.old) }
    requires rows { IsSome (rows_in_header header.old) }
    requires index { IsSome index → IsSome (index_in_header header.old) }
    ensures header { header.new ≡ with_rows_bytes header.old rows index }
    ensures write { result ≡ record { at = at; piece = header.new } }
    ensures short { length header.old ≤ 512 }
{
    change_rows(header, rows, index);
    Write {
        at,
        piece: Piece::of(header.as_slice()),
    }
}

impl WriterCore {
    /// Plans the pieces that make the rows that wait visible, which are pending then, and answers how many they are: none exactly where
    /// no row waits. Where the file has no place for a new chunk, or the index no room for its key, the first such chunk by its key is told;
    /// or else the first block of the index in turn that has no place; or want of memory. All memory and all places are taken here, so that nothing after it fails. Room is reserved in
    /// the image for these pieces and one more, up to the file's new end.
    ///
    /// The pieces are, in this order: those of the rows, chunk after chunk; the copies of the index's changed blocks; the superblock, only if
    /// the end of the file is another; the changed blocks in place; and the dataset header. A first flush plans the superblock after the blocks
    /// in place, but for an array's header that is there already.
    ///
    /// Where the layout names no index yet one is made: the places of its blocks in place, of an array those of its index block and then of its
    /// header, are the first that are taken and that a full file tells, and the dataset header names it with the rows. Where the layout names an
    /// array that has no index block yet, the place of that alone is the first, and the array's header, which stays where it is, names it.
    ///
    /// A refused flush leaves no more than places held in the index, which the next flush writes in any case.
    pub fn flush<W: PieceWrite>(&mut self, image: &mut W) -> Result<u64, FlushError>
        ensures flushed { OnOk result (TakesRows self.old self.new) }
        ensures planned { 0 < self.old.waits → OnOk result (HasFlushed self.old self.new) }
        ensures pieces { IfOk result (λ pieces. pieces ≡ length self.new.pending) }
        ensures some { 0 < self.old.waits → IfOk result (λ pieces. 1 ≤ pieces) }
        ensures nothing { self.old.waits ≡ 0 → OnOk result (self.new ≡ self.old) }
        // readers look for each chunk that the rows need and that has an address
        ensures reached { 0 < self.old.waits → OnOk result (AreReached self.new) }
        ensures stands { IfOk result (λ pieces. (log : Log) → Stands self.old log → Stands self.new (and_now (plans pieces) log)) }
        ensures bound { IfOk result (λ pieces. (log : Log) → Stands self.old log → pieces ≤ load (cutting_of self.old) log) }
        ensures refused { (e : FlushError) → flush_refusal self.old ≡ Some e → result ≡ Err e }
        ensures causes { IfErr result (λ e. (flush_refusal self.old ≡ Some e) ⊎ (IsSpace e ⊎ ((e ≡ FlushError.Deep) ⊎ ((e ≡ FlushError.Failed) ⊎ (e ≡ FlushError.OutOfMemory))))) }
        ensures full { (full : Full) → result ≡ Err (FlushError.Space full) → IsFullFor self.old full }
        ensures deep { result ≡ Err FlushError.Deep → IsDeepFor self.old }
        // never in a file that a session created
        ensures shallow { (log : Log) → Stands self.old log → IsNew log → result ≢ Err FlushError.Deep }
        ensures bounds { (full : Full) → result ≡ Err (FlushError.Space full) → (log : Log) → Stands self.old log → NoPlace self.old log full }
        ensures fault { result ≡ Err FlushError.Failed → Rose (W.view image.old).faults (W.view image.new).faults }
        ensures kept { OnErr result (SameBut self.old self.new) }
        ensures left { OnErr result ((log : Log) → Stands self.old log → Stands self.new log) }
        ensures image { Same (W.view image.old) (W.view image.new) }
        ensures room { OnOk result (HasRoomFor self.new (W.view image.new)) }
    {
        self.ready()?;
        if self.backlog.waits == 0 {
            image.reserve(1, self.places.end())?;
            return Ok(0);
        }
        self.flush_rows(image)
    }

    /// Why no flush is planned, but for places, the image and memory.
    fn ready(&self) -> Result<(), FlushError>
        ensures { MatchOption (flush_refusal self.now) (result ≡ Ok tt) (λ e. result ≡ Err e) }
    {
        if self.stopped {
            return Err(FlushError::Stopped);
        }
        let pending = self.pending();
        if pending > 0 {
            return Err(FlushError::Busy { pending });
        }
        Ok(())
    }

    /// Plans the pieces that make the rows that wait visible.
    fn flush_rows<W: PieceWrite>(&mut self, image: &mut W) -> Result<u64, FlushError>
        requires waits { 0 < self.old.waits }
        requires idle { self.old.pending ≡ [] }
        ensures flushed { OnOk result (HasFlushed self.old self.new) }
        ensures pieces { IfOk result (λ pieces. pieces ≡ length self.new.pending) }
        ensures ends { OnOk result (AllEndBy self.new.places.end self.new.pending) }
        ensures kept { OnErr result (SameBut self.old self.new) }
        ensures full { (full : Full) → result ≡ Err (FlushError.Space full) → IsFullFor self.old full }
        ensures deep { result ≡ Err FlushError.Deep → IsDeepFor self.old }
        ensures causes { IfErr result (λ e. IsSpace e ⊎ ((e ≡ FlushError.Deep) ⊎ ((e ≡ FlushError.Failed) ⊎ (e ≡ FlushError.OutOfMemory)))) }
        ensures fault { result ≡ Err FlushError.Failed → Rose (W.view image.old).faults (W.view image.new).faults }
        ensures image { Same (W.view image.old) (W.view image.new) }
        ensures room { OnOk result (HasRoomFor self.new (W.view image.new)) }
    {
        if !self.is_unmade() {
            if let Some(place) = self.chunk_alone() {
                return self.flush_alone(place, image);
            }
        }
        self.flush_planned(image)
    }

    /// Plans the pieces of the rows that wait, which all go into this chunk, in short for both halves.
    fn flush_alone<W: PieceWrite>(
        &mut self,
        place: ChunkPlace,
        image: &mut W,
    ) -> Result<u64, FlushError>
        requires waits { 0 < self.old.waits }
        requires there { IsWhole self.old }
        requires early { self.old.early ≡ 0 }
        requires placing { IsPlacing self.old.dataset (rows_of self.old) self.old.index self.old.places (place ∷ []) [] self.old.index self.old.places }
        requires all { touched_by self.old ≡ 1 }
        requires plan { IsPlan self.old.index self.old.places [] [] [] self.old.index self.old.places }
        ensures flushed { OnOk result (IsFlushed self.old self.new) }
        ensures pieces { IfOk result (λ pieces. pieces ≡ length self.new.pending) }
        ensures ends { OnOk result (AllEndBy self.new.places.end self.new.pending) }
        ensures kept { OnErr result (self.new ≡ self.old) }
        ensures causes { IfErr result (λ e. (e ≡ FlushError.Failed) ⊎ (e ≡ FlushError.OutOfMemory)) }
        ensures fault { result ≡ Err FlushError.Failed → Rose (W.view image.old).faults (W.view image.new).faults }
        ensures image { Same (W.view image.old) (W.view image.new) }
        ensures room { OnOk result (HasRoomFor self.new (W.view image.new)) }
    {
        let writes = self.plan_alone(place)?;
        make_room(writes.len(), 2, self.places.end(), image)?;
        Ok(self.carry_alone(writes))
    }

    /// Plans the pieces of the rows that wait in two halves, of which the second cannot fail. Not inlined, so that a flush into one chunk makes no
    /// room for what this one plans.
    #[inline(never)]
    fn flush_planned<W: PieceWrite>(&mut self, image: &mut W) -> Result<u64, FlushError>
        requires waits { 0 < self.old.waits }
        requires idle { self.old.pending ≡ [] }
        ensures flushed { OnOk result (HasFlushed self.old self.new) }
        ensures pieces { IfOk result (λ pieces. pieces ≡ length self.new.pending) }
        ensures ends { OnOk result (AllEndBy self.new.places.end self.new.pending) }
        ensures kept { OnErr result (SameBut self.old self.new) }
        ensures full { (full : Full) → result ≡ Err (FlushError.Space full) → IsFullFor self.old full }
        ensures deep { result ≡ Err FlushError.Deep → IsDeepFor self.old }
        ensures causes { IfErr result (λ e. IsSpace e ⊎ ((e ≡ FlushError.Deep) ⊎ ((e ≡ FlushError.Failed) ⊎ (e ≡ FlushError.OutOfMemory)))) }
        ensures fault { result ≡ Err FlushError.Failed → Rose (W.view image.old).faults (W.view image.new).faults }
        ensures image { Same (W.view image.old) (W.view image.new) }
        ensures room { OnOk result (HasRoomFor self.new (W.view image.new)) }
    {
        let planned = self.plan_taking()?;
        let (rows, after, end) = self.needs(&planned);
        match make_room(rows, after, end, image) {
            Ok(()) => Ok(self.carry_out(planned)),
            Err(e) => {
                self.give_up(planned);
                Err(e)
            }
        }
    }

    /// How many pieces the rows have, how many follow them at most, and where the file ends, in bytes, once all that is carried out. Whoever
    /// carries it out makes room for them in the image first.
    pub fn needs(&self, planned: &Planned) -> (usize, usize, u64)
        ensures pieces { result.0 + result.1 ≡ most_of planned.now }
        ensures end { result.2 ≡ end_of self.now planned.now }
    {
        match planned {
            Planned::Alone(writes) => (writes.len(), 2, self.places.end()),
            Planned::Grows(growing) => {
                let prepared = &growing.prepared;
                (prepared.writes.len(), prepared.after, prepared.end)
            }
            Planned::Starts(starting) => {
                let prepared = &starting.prepared;
                (prepared.writes.len(), prepared.after, prepared.end)
            }
        }
    }

    /// The second half of a flush: the pieces of what was planned are pending then, and no row waits. Answers how many they are. It takes no
    /// memory, and cannot fail.
    pub fn carry_out(&mut self, planned: Planned) -> u64
        requires half { WasHalf self.old planned }
        ensures flushed { (old : Session) → IsHalf old self.old planned → HasFlushed old self.new }
        ensures pieces { result ≡ length self.new.pending }
        ensures ends { AllEndBy self.new.places.end self.new.pending }
        ensures few { length self.new.pending ≤ most_of planned }
        ensures end { self.new.places.end ≡ end_of self.old planned }
        ensures places { self.new.places ≡ places_of self.old planned }
    {
        match planned {
            Planned::Alone(writes) => self.carry_alone(writes),
            Planned::Grows(growing) => self.carry_growing(growing),
            Planned::Starts(starting) => self.carry_starting(starting),
        }
    }

    /// Carries out a flush into one chunk that has its place.
    fn carry_alone(&mut self, writes: Vec<Write>) -> u64
        requires alone { PlansAlone self.old writes }
        ensures flushed { IsFlushed self.old self.new }
        ensures pieces { result ≡ length self.new.pending }
        ensures ends { AllEndBy self.new.places.end self.new.pending }
        ensures few { length self.new.pending ≤ length writes.items + 2 }
        ensures places { self.new.places ≡ self.old.places }
    {
        let to = self.rows();
        change_rows(&mut self.header, to, None);
        self.grid.shape.rows = to;
        let superblock = raise(&mut self.root, self.places.end());
        let pieces = end_at(writes, superblock, self.place, &self.header);
        self.backlog.commit_plan(pieces)
    }

    /// Carries out a flush into an index that is there.
    fn carry_growing(&mut self, growing: Growing) -> u64
        requires growth { HasGrown self.old growing }
        ensures flushed { (old : Session) → PlansGrowth old self.old growing → IsFlushed old self.new }
        ensures pieces { result ≡ length self.new.pending }
        ensures ends { AllEndBy self.new.places.end self.new.pending }
        ensures few { length self.new.pending ≤ length growing.prepared.writes.items + growing.prepared.after }
        ensures places { self.new.places ≡ self.old.places }
    {
        let Growing { prepared, rows, .. } = growing;
        let Prepared {
            writes,
            begun,
            end,
            ..
        } = prepared;
        let to = self.rows();
        let plan = self.index.finish(begun);
        let superblock = raise(&mut self.root, end);
        let header = raise_rows(&mut self.header, self.place, to, None);
        let pieces = join(writes, plan, superblock, header);
        self.backlog.put_back(rows);
        self.backlog.commit_plan(pieces)
    }

    /// Carries out a flush that makes the index: the dataset header names it, or the array's header its index block.
    fn carry_starting(&mut self, starting: Starting) -> u64
        requires start { PlansStart self.old starting }
        ensures flushed { IsStartFlushed self.old self.new }
        ensures pieces { result ≡ length self.new.pending }
        ensures ends { AllEndBy self.new.places.end self.new.pending }
        ensures few { length self.new.pending ≤ length starting.prepared.writes.items + starting.prepared.after }
        ensures end { self.new.places.end ≡ starting.prepared.end }
        ensures places { self.new.places ≡ starting.places }
    {
        let Starting {
            prepared,
            mut index,
            at,
            places,
        } = starting;
        let Prepared {
            writes,
            begun,
            end,
            ..
        } = prepared;
        let to = self.rows();
        let plan = index.finish(begun);
        let superblock = raise(&mut self.root, end);
        let naming = naming(self.grid.layout.address, at);
        let header = raise_rows(&mut self.header, self.place, to, naming);
        self.grid.shape.rows = to;
        self.grid.layout.address = at;
        self.places = places;
        self.index = index;
        let pieces = join_first(writes, plan, superblock, header, naming);
        self.backlog.commit_plan(pieces)
    }

    /// Gives up what was planned. The session is as it was before the first half, but for places that are held in the index. It takes no
    /// memory, and cannot fail.
    pub fn give_up(&mut self, planned: Planned)
        requires half { WasHalf self.old planned }
        ensures kept { (old : Session) → IsHalf old self.old planned → SameBut old self.new }
    {
        match planned {
            Planned::Alone(_) => {}
            Planned::Grows(growing) => self.shrink(growing),
            Planned::Starts(starting) => drop(starting),
        }
    }

    /// Gives up a flush into an index that is there: the rows wait again, and the index names none of their new chunks.
    fn shrink(&mut self, growing: Growing)
        requires growth { HasGrown self.old growing }
        ensures kept { (old : Session) → PlansGrowth old self.old growing → SameBut old self.new }
    {
        let Growing {
            prepared,
            rows,
            before,
            added,
        } = growing;
        drop(prepared);
        unset(&added, &mut self.index);
        self.places = before;
        self.grid.shape.rows -= rows.waits;
        self.backlog.plan.clear();
        self.backlog.shown = 0;
        self.backlog.put_back(rows);
    }
}
