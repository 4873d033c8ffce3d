//! The machine of one writer of several datasets and its readers.
ghost use Rattle.std.specs.Prelude.{◌≡◌, ◌*◌, ◌<◌, ◌≤◌, [], ◌∷◌, ℕ, List, false, true, length, map, slice_get, IfOk, IsErr, IsOk, None, Ok, OnErr, Some};
ghost use Rattle.h5w_model.specs.Images.{image};
ghost use Rattle.h5w_model.specs.Lawful.{Rules, ScriptState};
ghost use Rattle.h5w_model.specs.Several.{FileLog, shows_all};
ghost use Rattle.h5w_model.specs.declared.piece.Write.{Write};
ghost use Rattle.h5w_options.specs.Options.{AreAttempts, AreOptions};
ghost use Rattle.h5w_image.specs.View.{Wrote};
ghost use Rattle.h5w_steady.specs.Steady.{steady};
ghost use Rattle.h5w_space.specs.declared.Full.{Full};
ghost use Rattle.h5w_writer.specs.Sessions.{AllEndBy, Session, rows_of as session_rows};
ghost use Rattle.h5w_several_creation.specs.Forms.{AreNames};
ghost use Rattle.h5w_several_creation_laws.specs.SeveralFiles.{AllNamed, created_writes};
ghost use Rattle.h5w_several_writer.specs.Flows.{KeepsParts};
ghost use Rattle.h5w_several_writer.specs.Refusals.{HasRoomForAll, IsFullAmong};
ghost use Rattle.h5w_several_writer_laws.specs.Sessions.{AfterPieceOf, all_pending};
ghost use Rattle.h5w_several_writer_laws.specs.Standing.{StandsAll, and_then};
ghost use Rattle.h5w_several_script_laws.specs.Alone.{alone};
ghost use Rattle.h5w_several_script_laws.specs.Scripts.{FileState, AllowedAll, first_in, next_all, settled_in};
ghost use Rattle.h5w_core.specs.Readers.{IsCalling, MayRead};
ghost use Rattle.h5w_core.specs.Worlds.{HaveOneLog, full_reply, rules_for, rules_of as rules_of_one};
ghost use Rattle.h5w_several_core.specs.Creation.{AllSome, CreatesAll, new_files};
ghost use Rattle.h5w_several_core.specs.Places.{nobody, place_at, reader_in, seat_ended};
ghost use Rattle.h5w_several_core.specs.Worlds.{AreRowsIn, FileSteps, HaveFileLog, HoldsMoreIn, IsHeardIn, IsKeptIn, IsLeftIn, IsPastBudget, IsUsedBy, MayWantMemoryIn, StandsForFile, as_told, line_of, logged_in, names_of, pollings_of, reply_of, rules_of};

use crate::events::{FileEvent, FileReply};
use crate::places::{self, Place};
use crate::taking;
use h5w_core::{World, WorldParts, readers};
use h5w_creation::form_of;
use h5w_image::Journal;
use h5w_model::{OutOfMemory, Reply, Write};
use h5w_names::Names;
use h5w_options::Options;
use h5w_several_creating as creating;
use h5w_several_writer::{AppendError, FlushError, SeveralWriter};
use h5w_steady::SteadyImage;
use h5w_writer::Full;
use std::alloc::Global;
use std::marker::Model;

/// A writer of several datasets, the image that its pieces make, and readers 0 to 16, driven by events.
#[derive(Drop)]
pub struct SeveralWorld {
    alloc: Global,
    session: SeveralWriter,
    image: SteadyImage,
    /// The most attempts of a reader's call.
    attempts: u32,
    /// A place for each reader, by its number.
    places: Vec<Place>,
}

impl Model for SeveralWorld {
    ghost use Rattle.std.specs.Coded.{codes};
    ghost use Rattle.h5w_writer.specs.Codes.{tree_code};
    ghost use Rattle.h5w_reader.specs.contracts.reader.ReaderCore as core;
    ghost use Rattle.h5w_several_core.specs.Worlds.{HasOneBudget, HoldsAll, SeveralView};

    ghost Value = { SeveralView };

    ghost coded = { Prim.hlevel (codes, tree_code, core.the_row.coded) };

    ghost view = { λ w. record { session = w.session; bytes = w.image.bytes; journal = w.image.history; attempts = w.attempts; places = w.places.items } };

    ghost invariant = { λ w. HoldsAll w.session w.image w.attempts w.places.items × HasOneBudget w.session };
}

/// The oldest pending piece becomes visible, where there is one. Answers how many pieces became visible.
fn show(session: &mut SeveralWriter, image: &mut SteadyImage) -> u64
    requires { HasRoomForAll session.old (steady image.old) }
    ensures nothing { all_pending session.old.parts ≡ [] → (result ≡ 0) × (session.new ≡ session.old) × (image.new ≡ image.old) }
    ensures piece { (w : Write) (ws : List Write) → all_pending session.old.parts ≡ w ∷ ws → (result ≡ 1) × AfterPieceOf w session.old session.new × Wrote (w ∷ []) (steady image.old) (steady image.new) }
    ensures parts { (w : Write) (ws : List Write) → all_pending session.old.parts ≡ w ∷ ws → KeepsParts session.old session.new }
    ensures stands { (w : Write) (ws : List Write) → all_pending session.old.parts ≡ w ∷ ws → (log : FileLog) → StandsAll session.old log → StandsAll session.new (and_then (shows_all w) log) }
    ensures room { HasRoomForAll session.new (steady image.new) }
{
    let Some(w) = session.next() else {
        return 0;
    };
    image.put(w);
    session.written();
    1
}

/// Places for readers 0 to 16.
fn places(alloc: Global) -> Result<Vec<Place>, OutOfMemory>
    ensures { IfOk result (λ places. places.items ≡ nobody) }
{
    let mut places = Vec::new(alloc);
    for _ in 0..17u32 {
        places.push(Place {
            dataset: 0,
            reader: None,
        })?;
    }
    Ok(places)
}

/// The reply to an event of a reader.
fn told(reply: Result<Reply, OutOfMemory>) -> Result<FileReply, OutOfMemory>
    ensures { result ≡ as_told reply }
{
    match reply {
        Ok(reply) => Ok(FileReply::Says(reply)),
        Err(e) => Err(e),
    }
}

/// These pieces become visible, one after another.
fn put_all(writes: &[Write], image: &mut SteadyImage)
    requires pieces { length writes.now ≤ image.old.pieces }
    requires ends { AllEndBy image.old.end writes.now }
    requires some { AllSome writes.now }
    ensures { Wrote writes.now (steady image.old) (steady image.new) }
{
    match writes.split_first() {
        None => {}
        Some((w, rest)) => {
            image.put(w);
            put_all(rest, image);
        }
    }
}

/// A writer that created a file of these names, all of whose pieces are visible.
fn create(
    alloc: Global,
    names: &Names,
    options: &Options,
) -> Result<(SeveralWriter, SteadyImage), OutOfMemory>
    requires options { AreOptions options.now }
    requires names { AreNames names.now }
    requires named { AllNamed names.now }
    requires low { 1024 * length names.now ≤ options.now.limit }
    ensures { IfOk result (λ made. CreatesAll names.now options.now made.0 made.1) }
{
    let mut image = SteadyImage::new(alloc)?;
    let form = form_of(options);
    let forms = vec![in alloc; form; names.len()]?;
    let new = creating::create(alloc, names, &forms, options.limit, options.budget)?;
    image.make_room(new.writes.len() as u64 + 1, new.session.end())?;
    put_all(&new.writes, &mut image);
    Ok((new.session, image))
}

impl SeveralWorld {
    /// A machine whose writer created a file with a dataset under each of these names, by these options but for their
    /// name. The pieces of the creation are visible, and nothing is pending.
    pub fn new(
        alloc: Global,
        names: &Names,
        options: &Options,
        attempts: u32,
    ) -> Result<SeveralWorld, OutOfMemory>
        requires options { AreOptions options.now }
        requires attempts { AreAttempts attempts }
        requires names { AreNames names.now }
        requires named { AllNamed names.now }
        requires low { 1024 * length names.now ≤ options.now.limit }
        ensures fits { IfOk result (λ w. HaveFileLog w (first_in (rules_of w) options.now.limit options.now.budget)) }
        ensures rules { IfOk result (λ w. rules_of w ≡ map (λ (name : List ℕ). rules_for options.now attempts) names.now) }
        ensures names { IfOk result (λ w. names_of w ≡ names.now) }
        ensures created { IfOk result (λ w. w.journal ≡ created_writes (new_files names.now options.now)) }
    {
        let places = places(alloc)?;
        let (session, image) = create(alloc, names, options)?;
        Ok(SeveralWorld {
            alloc,
            session,
            image,
            attempts,
            places,
        })
    }

    /// The machine of the one name of a world, once another writer took its file over, and the rows that were flushed:
    /// with these it goes on. The takeover is as `step` says of a writer that was stopped; it is never refused. Readers
    /// go on, and so does the journal. The world is gone, also after an error.
    pub fn of_one(world: World) -> Result<(SeveralWorld, u64), OutOfMemory>
        ensures fits { IfOk result (λ x. (s : ScriptState) → HaveOneLog world s → HaveFileLog x.0 (settled_in (alone (rules_of_one world) s))) }
        ensures rows { IfOk result (λ x. (s : ScriptState) → HaveOneLog world s → x.1 ≡ s.flushed) }
        ensures rules { IfOk result (λ x. rules_of x.0 ≡ rules_of_one world ∷ []) }
        ensures names { IfOk result (λ x. names_of x.0 ≡ world.session.name ∷ []) }
        ensures journal { IfOk result (λ x. x.0.journal ≡ world.journal) }
    {
        let WorldParts {
            session: before,
            mut image,
            attempts,
            readers,
        } = world.into_parts();
        let alloc = *readers.allocator();
        let names = Names::of(alloc, before.name())?;
        let (limit, budget) = (before.limit(), before.budget());
        let session = taking::taken(alloc, &mut image, &names, limit, budget)?;
        let places = places::of_one(alloc, readers)?;
        let rows = session.committed(0);
        let machine = SeveralWorld {
            alloc,
            session,
            image,
            attempts,
            places,
        };
        Ok((machine, rows))
    }

    /// How many datasets the file has.
    pub fn count(&self) -> usize
        ensures count { result ≡ length (rules_of self.now) }
        ensures some { 1 ≤ result }
        ensures few { result ≤ 8 }
    {
        self.session.count()
    }

    /// How many columns a row of dataset `d` has.
    pub fn columns(&self, d: usize) -> u64
        requires { d < length (rules_of self.now) }
        ensures value { (g : Rules) → slice_get (rules_of self.now) d ≡ Some g → result ≡ g.cutting.columns }
        ensures some { 1 ≤ result }
    {
        self.session.columns(d)
    }

    /// Does what an event asks, and answers. Values that are appended are whole rows. The reply is lawful in each state
    /// that fits the machine and has the event's dataset in use, and the state after it fits the machine then; to each
    /// log for which the machine stood the event was added, unless it was refused. What an error leaves is as before,
    /// but that a look's call is taken away, and that a flush may have held more blocks of the indexes; memory is not
    /// wanted for what is refused, but maybe for want of a place, nor for a piece that becomes visible. An append is
    /// always refused, as for want of memory, where more bytes of its dataset would wait than the budget has. FullSpace
    /// is replied only if the file has no place of this size for the rows of one of the datasets. A flush for which an
    /// index has no room is answered as want of memory.
    ///
    /// Takeover is answered Running exactly where the writer was not stopped, and changes nothing then. Else another
    /// writer takes the file over, and TakenOver tells the rows that were flushed: those that were not are gone, nothing
    /// is pending, and readers go on. It is never refused, and want of memory leaves all as before.
    pub fn step(&mut self, event: FileEvent) -> Result<FileReply, OutOfMemory>
        requires { IsHeardIn (rules_of self.old) event }
        ensures lawful { IfOk result (λ reply. (F : FileState) → HaveFileLog self.old F → IsUsedBy event F → AllowedAll F (line_of event) (reply_of reply) × HaveFileLog self.new (next_all F (line_of event) (reply_of reply))) }
        ensures logged { IfOk result (λ reply. (log : FileLog) → StandsForFile self.old log → StandsForFile self.new (logged_in self.old event (reply_of reply) log)) }
        ensures full { (full : Full) → result ≡ Ok (FileReply.Says (full_reply full)) → IsFullAmong self.old.session.root self.old.session.places self.old.session.parts full }
        ensures rules { rules_of self.new ≡ rules_of self.old }
        ensures named { names_of self.new ≡ names_of self.old }
        ensures kept { OnErr result (IsLeftIn self.old event self.new) }
        ensures memory { OnErr result (MayWantMemoryIn self.old event) }
        ensures past { IsPastBudget self.old event → IsErr result }
        ensures visible { event ≡ FileEvent.Visible → IsOk result }
        ensures stop { event ≡ FileEvent.Stop → IsOk result }
        ensures running { event ≡ FileEvent.Takeover → self.old.session.stopped ≡ false → result ≡ Ok FileReply.Running }
        ensures takeover { event ≡ FileEvent.Takeover → self.old.session.stopped ≡ true → IfOk result (λ reply. self.new.session.stopped ≡ false) }
    {
        match event {
            FileEvent::Append { dataset, values } => self.append(dataset, values.as_slice()),
            FileEvent::Flush => self.flush(),
            FileEvent::Visible => Ok(self.show()),
            FileEvent::Stop => Ok(self.stop()),
            FileEvent::Takeover => self.takeover(),
            FileEvent::Open { reader, dataset } => self.open(reader, dataset),
            FileEvent::Refresh { reader } => Ok(self.refresh(reader)),
            FileEvent::Read {
                reader,
                from,
                count,
            } => self.read(reader, from, count),
            FileEvent::Look { reader } => self.look(reader),
        }
    }

    /// The writer appends values to a dataset. No row is written before its flush.
    fn append(&mut self, dataset: usize, values: &[i128]) -> Result<FileReply, OutOfMemory>
        requires { AreRowsIn (rules_of self.old) dataset values.now }
        ensures steps { IfOk result (λ reply. FileSteps self.old (FileEvent.Append dataset values.now) (reply_of reply) self.new) }
        ensures no_space { (full : Full) → result ≡ Ok (FileReply.Says (full_reply full)) → ⊥ }
        ensures polls { pollings_of self.new ≡ pollings_of self.old }
        ensures kept { OnErr result (self.new ≡ self.old) }
        ensures memory { OnErr result (MayWantMemoryIn self.old (FileEvent.Append dataset values.now)) }
        ensures past { IsPastBudget self.old (FileEvent.Append dataset values.now) → IsErr result }
    {
        match self.session.append(dataset, values, &mut self.image) {
            Ok(rows) => Ok(FileReply::Says(Reply::Appended { rows, pending: 0 })),
            Err(AppendError::Stopped) => Ok(FileReply::Says(Reply::Stopped)),
            Err(AppendError::Busy { pending }) => Ok(FileReply::Says(Reply::Busy { pending })),
            Err(AppendError::OutOfRange { index, value }) => {
                Ok(FileReply::Says(Reply::OutOfRange { index, value }))
            }
            Err(AppendError::Chunks { chunks, limit }) => {
                Ok(FileReply::Says(Reply::FullChunks { chunks, limit }))
            }
            Err(AppendError::Failed) => unreachable!(),
            Err(AppendError::OutOfMemory) => Err(OutOfMemory),
        }
    }

    /// The writer flushes the rows of all datasets.
    fn flush(&mut self) -> Result<FileReply, OutOfMemory>
        ensures steps { IfOk result (λ reply. FileSteps self.old FileEvent.Flush (reply_of reply) self.new) }
        ensures full { (full : Full) → result ≡ Ok (FileReply.Says (full_reply full)) → IsFullAmong self.old.session.root self.old.session.places self.old.session.parts full }
        ensures polls { pollings_of self.new ≡ pollings_of self.old }
        ensures kept { OnErr result (HoldsMoreIn self.old self.new) }
        ensures memory { OnErr result (MayWantMemoryIn self.old FileEvent.Flush) }
    {
        match self.session.flush(&mut self.image) {
            Ok(pieces) => Ok(FileReply::Flushing { pieces }),
            Err(FlushError::Stopped) => Ok(FileReply::Says(Reply::Stopped)),
            Err(FlushError::Busy { pending }) => Ok(FileReply::Says(Reply::Busy { pending })),
            Err(FlushError::Space(Full { at, size, limit })) => {
                Ok(FileReply::Says(Reply::FullSpace { at, size, limit }))
            }
            // an index that was taken over in the middle of a flush is not known to have room
            Err(FlushError::Deep) => Err(OutOfMemory),
            Err(FlushError::Failed) => unreachable!(),
            Err(FlushError::OutOfMemory) => Err(OutOfMemory),
        }
    }

    /// The oldest pending piece becomes visible, where there is one.
    fn show(&mut self) -> FileReply
        ensures steps { FileSteps self.old FileEvent.Visible (reply_of result) self.new }
        ensures no_space { (full : Full) → result ≡ FileReply.Says (full_reply full) → ⊥ }
        ensures polls { pollings_of self.new ≡ pollings_of self.old }
    {
        let pieces = show(&mut self.session, &mut self.image);
        FileReply::Says(Reply::Written {
            pieces,
            pending: self.session.pending(),
        })
    }

    /// The writer stops, and what is pending is dropped.
    fn stop(&mut self) -> FileReply
        ensures steps { FileSteps self.old FileEvent.Stop (reply_of result) self.new }
        ensures no_space { (full : Full) → result ≡ FileReply.Says (full_reply full) → ⊥ }
        ensures polls { pollings_of self.new ≡ pollings_of self.old }
    {
        self.session.stop();
        FileReply::Says(Reply::Stopped)
    }

    /// Another writer takes the file over where the writer was stopped, by the names, the limit and the budget of the
    /// session before.
    fn takeover(&mut self) -> Result<FileReply, OutOfMemory>
        ensures steps { IfOk result (λ reply. FileSteps self.old FileEvent.Takeover (reply_of reply) self.new) }
        ensures running { self.old.session.stopped ≡ false → result ≡ Ok FileReply.Running }
        ensures going { IfOk result (λ reply. self.new.session.stopped ≡ false) }
        ensures no_space { (full : Full) → result ≡ Ok (FileReply.Says (full_reply full)) → ⊥ }
        ensures polls { pollings_of self.new ≡ pollings_of self.old }
        ensures kept { OnErr result (self.new ≡ self.old) }
        ensures memory { OnErr result (MayWantMemoryIn self.old FileEvent.Takeover) }
    {
        if !self.session.is_stopped() {
            return Ok(FileReply::Running);
        }
        let names = taking::names(self.alloc, &self.session)?;
        let limit = self.session.limit();
        let budget = self.session.budget(0);
        let session = taking::taken(self.alloc, &mut self.image, &names, limit, budget)?;
        let rows = taking::committed(&session);
        self.session = session;
        Ok(FileReply::TakenOver { rows })
    }

    /// A reader begins to open a dataset.
    fn open(&mut self, reader: u64, dataset: usize) -> Result<FileReply, OutOfMemory>
        requires reader { reader ≤ 16 }
        requires dataset { dataset < length (rules_of self.old) }
        ensures steps { IfOk result (λ reply. FileSteps self.old (FileEvent.Open reader dataset) (reply_of reply) self.new) }
        ensures no_space { (full : Full) → result ≡ Ok (FileReply.Says (full_reply full)) → ⊥ }
        ensures polls { pollings_of self.new ≡ pollings_of self.old }
        ensures kept { OnErr result (IsKeptIn self.old self.new reader (place_at self.old.places reader)) }
        ensures memory { OnErr result (reader_in self.old.places reader ≡ None) }
    {
        told(places::open(
            &mut self.places[reader as usize],
            self.alloc,
            reader,
            dataset,
            self.session.name(dataset),
            self.attempts,
        ))
    }

    /// A reader begins a refresh.
    fn refresh(&mut self, reader: u64) -> FileReply
        requires { reader ≤ 16 }
        ensures steps { FileSteps self.old (FileEvent.Refresh reader) (reply_of result) self.new }
        ensures no_space { (full : Full) → result ≡ FileReply.Says (full_reply full) → ⊥ }
        ensures polls { pollings_of self.new ≡ pollings_of self.old }
    {
        let place = &mut self.places[reader as usize];
        FileReply::Says(readers::refresh(&mut place.reader, reader))
    }

    /// A reader begins a read of `count` rows from row `from` on.
    fn read(&mut self, reader: u64, from: u64, count: u64) -> Result<FileReply, OutOfMemory>
        requires { reader ≤ 16 }
        ensures steps { IfOk result (λ reply. FileSteps self.old (FileEvent.Read reader from count) (reply_of reply) self.new) }
        ensures no_space { (full : Full) → result ≡ Ok (FileReply.Says (full_reply full)) → ⊥ }
        ensures polls { pollings_of self.new ≡ pollings_of self.old }
        ensures kept { OnErr result (IsKeptIn self.old self.new reader (place_at self.old.places reader)) }
        ensures memory { OnErr result (MayRead from count (reader_in self.old.places reader)) }
    {
        let place = &mut self.places[reader as usize];
        told(readers::read(&mut place.reader, reader, from, count))
    }

    /// A reader takes a look.
    fn look(&mut self, reader: u64) -> Result<FileReply, OutOfMemory>
        requires { reader ≤ 16 }
        ensures steps { IfOk result (λ reply. FileSteps self.old (FileEvent.Look reader) (reply_of reply) self.new) }
        ensures no_space { (full : Full) → result ≡ Ok (FileReply.Says (full_reply full)) → ⊥ }
        ensures polls { pollings_of self.new ≡ pollings_of self.old }
        ensures kept { OnErr result (IsKeptIn self.old self.new reader (seat_ended (place_at self.old.places reader))) }
        ensures memory { OnErr result (IsCalling (reader_in self.old.places reader)) }
    {
        let place = &mut self.places[reader as usize];
        told(readers::look(&mut place.reader, reader, &mut self.image))
    }

    /// The pieces that became visible, the oldest first.
    pub fn journal(&self) -> &Journal
        ensures writes { result.now.writes ≡ self.now.journal }
        ensures folds { self.now.bytes ≡ image [] self.now.journal }
    {
        self.image.journal()
    }

    /// How many pieces are pending, of all datasets.
    pub fn pending(&self) -> u64
        ensures pending { result ≡ length (all_pending self.now.session.parts) }
    {
        self.session.pending()
    }

    /// How many rows were appended to dataset `d`.
    pub fn rows(&self, d: usize) -> u64
        requires { d < length (rules_of self.now) }
        ensures { (s : Session) → slice_get self.now.session.parts d ≡ Some s → result ≡ session_rows s }
    {
        self.session.rows(d)
    }
}
