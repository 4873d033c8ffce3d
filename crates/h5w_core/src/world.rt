//! The world of one writer and its readers.
ghost use Rattle.std.specs.Prelude.{◌<◌, ◌≡◌, ◌≤◌, [], ◌∷◌, ◌^◌, List, length, IfOk, IsOk, None, Ok, OnErr, option_map};
ghost use Rattle.h5w_model.specs.Images.{image};
ghost use Rattle.h5w_model.specs.Lawful.{ScriptState, Allowed, at_first, line_of, next_state};
ghost use Rattle.h5w_model.specs.Logs.{Log, and_now, shows};
ghost use Rattle.h5w_options.specs.Options.{AreAttempts, AreOptions};
ghost use Rattle.h5w_options.specs.declared.options.Options.{Options};
ghost use Rattle.h5w_model.specs.declared.piece.Write.{Write};
ghost use Rattle.h5w_image.specs.View.{Wrote};
ghost use Rattle.h5w_space.specs.declared.Full.{Full};
ghost use Rattle.h5w_creation_laws.specs.CreatedFiles.{created_writes};
ghost use Rattle.h5w_creation.specs.NewFiles.{new_file};
ghost use Rattle.h5w_writer.specs.Refusals.{IsFullFor};
ghost use Rattle.h5w_writer.specs.Room.{HasRoomFor};
ghost use Rattle.h5w_writer.specs.Sessions.{AfterPiece, rows_of as session_rows};
ghost use Rattle.h5w_writer.specs.Stands.{Stands};
ghost use Rattle.h5w_core.specs.Readers.{IsCalling, MayRead, ended, reader_at};
ghost use Rattle.h5w_steady.specs.Steady.{steady};
ghost use Rattle.h5w_front_laws.specs.Fronts.{IsLeftOpen};
ghost use Rattle.h5w_core.specs.Creation.{Creates, IsCreating};
ghost use Rattle.h5w_core.specs.Parts.{IsApart};
ghost use Rattle.h5w_core.specs.Worlds.{AreRowsBy, HaveOneLog, HoldsMore, IsHeard, IsKept, IsLeft, IsNewWorld, MayWantMemory, StandsFor, Steps, full_reply, logged, nobody, rules_for, rules_of};

use crate::parts::WorldParts;
use crate::readers;
use h5w_image::Journal;
use h5w_model::{Event, OutOfMemory, Reply};
use h5w_options::Options;
use h5w_reader::ReaderCore;
use h5w_steady::SteadyImage;
use h5w_writer::{AppendError, FlushError, Full, WriterCore};
use std::alloc::Global;
use std::marker::Model;

/// A writer, the image that its pieces make, and readers 0 to 16, driven by events.
#[derive(Drop)]
pub struct World {
    alloc: Global,
    session: WriterCore,
    image: SteadyImage,
    /// The most attempts of a reader's call.
    attempts: u32,
    /// A place for each reader, by its number.
    readers: Vec<Option<ReaderCore>>,
}

impl Model for World {
    ghost use Rattle.std.specs.Coded.{codes};
    ghost use Rattle.h5w_writer.specs.Codes.{tree_code};
    ghost use Rattle.h5w_reader.specs.contracts.reader.ReaderCore as core;
    ghost use Rattle.h5w_core.specs.Worlds.{HoldsTogether, IsWriting, WorldView};

    ghost Value = { WorldView };

    ghost coded = { Prim.hlevel (codes, tree_code, core.the_row.coded) };

    ghost view = { λ w. record { session = w.session; bytes = w.image.bytes; journal = w.image.history; attempts = w.attempts; readers = w.readers.items } };

    ghost invariant = { λ w. HoldsTogether w.session w.image w.attempts w.readers.items × IsWriting w.session w.image };
}

/// The oldest pending piece becomes visible, where there is one. Answers how many pieces became visible.
fn show(session: &mut WriterCore, image: &mut SteadyImage) -> u64
    requires { HasRoomFor session.old (steady image.old) }
    ensures nothing { session.old.pending ≡ [] → (result ≡ 0) × (session.new ≡ session.old) × (image.new ≡ image.old) }
    ensures piece { (w : Write) (ws : List Write) → session.old.pending ≡ w ∷ ws → (result ≡ 1) × AfterPiece session.old ws session.new × Wrote (w ∷ []) (steady image.old) (steady image.new) }
    ensures stands { (w : Write) (ws : List Write) → session.old.pending ≡ w ∷ ws → (log : Log) → Stands session.old log → Stands session.new (and_now (shows w) log) }
    ensures room { HasRoomFor session.new (steady image.new) }
{
    let Some(w) = session.next() else {
        return 0;
    };
    image.put(w);
    session.written();
    1
}

/// Places for readers 0 to 16.
fn places(alloc: Global) -> Result<Vec<Option<ReaderCore>>, OutOfMemory>
    ensures { IfOk result (λ places. places.items ≡ nobody) }
{
    let mut places = Vec::new(alloc);
    for _ in 0..17u32 {
        places.push(None)?;
    }
    Ok(places)
}

/// All pending pieces become visible: of a file that is created, those that are left.
fn show_all(session: &mut WriterCore, image: &mut SteadyImage)
    requires { HasRoomFor session.old (steady image.old) }
    ensures { (options : Options) → Creates options 0 session.old image.old → Creates options (length session.old.pending) session.new image.new }
{
    let pieces = session.pending();
    for _ in 0..pieces {
        show(session, image);
    }
}

/// Lets a writer go. It has many parts, and each place that lets it go is dear to prove.
fn release(_session: WriterCore) {}

/// An image in which all pieces of a file are visible that a writer has just created.
fn shown(alloc: Global, session: &mut WriterCore) -> Result<SteadyImage, OutOfMemory>
    requires { length session.old.pending < 2 ^ 32 }
    ensures { (options : Options) → IsCreating options session.old → IfOk result (λ image. Creates options (length (created_writes (new_file options))) session.new image) }
{
    let mut image = SteadyImage::new(alloc)?;
    image.make_room(session.pending() + 1, session.end())?;
    show_all(session, &mut image);
    Ok(image)
}

/// A writer that created a file, all of whose pieces are visible.
fn create(alloc: Global, options: &Options) -> Result<(WriterCore, SteadyImage), OutOfMemory>
    requires { AreOptions options.now }
    ensures { IfOk result (λ made. Creates options.now (length (created_writes (new_file options.now))) made.0 made.1) }
{
    let mut session = WriterCore::create(alloc, options)?;
    match shown(alloc, &mut session) {
        Ok(image) => Ok((session, image)),
        Err(error) => {
            release(session);
            Err(error)
        }
    }
}

impl World {
    /// A world whose writer created a file. Its pieces are visible, and nothing is pending.
    pub fn new(alloc: Global, options: &Options, attempts: u32) -> Result<World, OutOfMemory>
        requires options { AreOptions options.now }
        requires attempts { AreAttempts attempts }
        ensures fits { IfOk result (λ w. HaveOneLog w at_first) }
        ensures rules { IfOk result (λ w. rules_of w ≡ rules_for options.now attempts) }
        ensures created { IfOk result (λ w. w.journal ≡ created_writes (new_file options.now)) }
        ensures new { IfOk result (IsNewWorld options.now) }
    {
        let readers = places(alloc)?;
        let (session, image) = create(alloc, options)?;
        Ok(World {
            alloc,
            session,
            image,
            attempts,
            readers,
        })
    }

    /// How many columns a row of the dataset has.
    pub fn columns(&self) -> u64
        ensures value { result ≡ (rules_of self.now).cutting.columns }
        ensures some { 1 ≤ result }
    {
        self.session.columns()
    }

    /// Does what an event asks, and answers. Values that are appended are whole rows. The reply is lawful in each state that fits the world, and the state after
    /// it fits the world then; to each log for which the world stood the event was added, unless it was refused. What an
    /// error leaves is as before, but that a look's call is taken away, and that a flush may have held more blocks of the index;
    /// memory is not wanted for what is refused, but maybe for want of a place, nor for a piece that becomes visible. FullSpace is replied
    /// only if the session's file has no place of this size for the rows that wait, as its flush says.
    pub fn step(&mut self, event: Event) -> Result<Reply, OutOfMemory>
        requires { IsHeard (rules_of self.old) event }
        ensures lawful { IfOk result (λ reply. (s : ScriptState) → HaveOneLog self.old s → Allowed (rules_of self.old) s (line_of event) reply × HaveOneLog self.new (next_state (rules_of self.old) s (line_of event) reply)) }
        ensures logged { IfOk result (λ reply. (log : Log) → StandsFor self.old log → StandsFor self.new (logged self.old event reply log)) }
        ensures full { (full : Full) → result ≡ Ok (full_reply full) → IsFullFor self.old.session full }
        ensures rules { rules_of self.new ≡ rules_of self.old }
        ensures named { self.new.session.name ≡ self.old.session.name }
        ensures kept { OnErr result (IsLeft self.old event self.new) }
        ensures memory { OnErr result (MayWantMemory self.old event) }
        ensures visible { event ≡ Event.Visible → IsOk result }
        ensures stop { event ≡ Event.Stop → IsOk result }
    {
        match event {
            Event::Append(values) => self.append(values.as_slice()),
            Event::Flush => self.flush(),
            Event::Visible => Ok(self.show()),
            Event::Stop => Ok(self.stop()),
            Event::Open { reader } => self.open(reader),
            Event::Refresh { reader } => Ok(self.refresh(reader)),
            Event::Read {
                reader,
                from,
                count,
            } => self.read(reader, from, count),
            Event::Look { reader } => self.look(reader),
        }
    }

    /// The writer appends values. Pieces that it writes early are pending then.
    fn append(&mut self, values: &[i128]) -> Result<Reply, OutOfMemory>
        requires { AreRowsBy (rules_of self.old) values.now }
        ensures steps { IfOk result (λ reply. Steps self.old (Event.Append values.now) reply self.new) }
        ensures logged { IfOk result (λ reply. (log : Log) → StandsFor self.old log → StandsFor self.new (logged self.old (Event.Append values.now) reply log)) }
        ensures no_space { (full : Full) → result ≡ Ok (full_reply full) → ⊥ }
        ensures kept { OnErr result (self.new ≡ self.old) }
        ensures memory { OnErr result (MayWantMemory self.old (Event.Append values.now)) }
        ensures named { self.new.session.name ≡ self.old.session.name }
    {
        match self.session.append(values, &mut self.image) {
            Ok(rows) => Ok(Reply::Appended {
                rows,
                pending: self.session.pending(),
            }),
            Err(AppendError::Stopped) => Ok(Reply::Stopped),
            Err(AppendError::Busy { pending }) => Ok(Reply::Busy { pending }),
            Err(AppendError::OutOfRange { index, value }) => Ok(Reply::OutOfRange { index, value }),
            Err(AppendError::Chunks { chunks, limit }) => Ok(Reply::FullChunks { chunks, limit }),
            Err(AppendError::Failed) => unreachable!(),
            Err(AppendError::OutOfMemory) => Err(OutOfMemory),
        }
    }

    /// The writer plans the pieces of the rows that wait.
    fn flush(&mut self) -> Result<Reply, OutOfMemory>
        ensures steps { IfOk result (λ reply. Steps self.old Event.Flush reply self.new) }
        ensures logged { IfOk result (λ reply. (log : Log) → StandsFor self.old log → StandsFor self.new (logged self.old Event.Flush reply log)) }
        ensures full { (full : Full) → result ≡ Ok (full_reply full) → IsFullFor self.old.session full }
        ensures kept { OnErr result (HoldsMore self.old self.new) }
        ensures memory { OnErr result (MayWantMemory self.old Event.Flush) }
        ensures named { self.new.session.name ≡ self.old.session.name }
    {
        match self.session.flush(&mut self.image) {
            Ok(pieces) => Ok(Reply::Flushing { pieces }),
            Err(FlushError::Stopped) => Ok(Reply::Stopped),
            Err(FlushError::Busy { pending }) => Ok(Reply::Busy { pending }),
            Err(FlushError::Space(Full { at, size, limit })) => Ok(Reply::FullSpace {
                at,
                size,
                limit,
            }),
            Err(FlushError::Deep) => unreachable!(),
            Err(FlushError::Failed) => unreachable!(),
            Err(FlushError::OutOfMemory) => Err(OutOfMemory),
        }
    }

    /// The oldest pending piece becomes visible, where there is one.
    fn show(&mut self) -> Reply
        ensures steps { Steps self.old Event.Visible result self.new }
        ensures logged { (log : Log) → StandsFor self.old log → StandsFor self.new (logged self.old Event.Visible result log) }
        ensures no_space { (full : Full) → result ≡ full_reply full → ⊥ }
        ensures named { self.new.session.name ≡ self.old.session.name }
    {
        let pieces = show(&mut self.session, &mut self.image);
        Reply::Written {
            pieces,
            pending: self.session.pending(),
        }
    }

    /// The writer stops, and what is pending is dropped.
    fn stop(&mut self) -> Reply
        ensures steps { Steps self.old Event.Stop result self.new }
        ensures no_space { (full : Full) → result ≡ full_reply full → ⊥ }
        ensures logged { (log : Log) → StandsFor self.old log → StandsFor self.new log }
        ensures named { self.new.session.name ≡ self.old.session.name }
    {
        self.session.stop();
        Reply::Stopped
    }

    /// A reader begins to open.
    fn open(&mut self, reader: u64) -> Result<Reply, OutOfMemory>
        requires { reader ≤ 16 }
        ensures steps { IfOk result (λ reply. Steps self.old (Event.Open reader) reply self.new) }
        ensures no_space { (full : Full) → result ≡ Ok (full_reply full) → ⊥ }
        ensures logged { (log : Log) → StandsFor self.old log → StandsFor self.new log }
        ensures rules { rules_of self.new ≡ rules_of self.old }
        ensures kept { OnErr result (IsKept self.old self.new reader (reader_at self.old.readers reader)) }
        ensures memory { OnErr result (reader_at self.old.readers reader ≡ None) }
        ensures named { self.new.session.name ≡ self.old.session.name }
    {
        readers::open(
            &mut self.readers[reader as usize],
            self.alloc,
            reader,
            self.session.name(),
            self.attempts,
        )
    }

    /// A reader begins a refresh.
    fn refresh(&mut self, reader: u64) -> Reply
        requires { reader ≤ 16 }
        ensures steps { Steps self.old (Event.Refresh reader) result self.new }
        ensures no_space { (full : Full) → result ≡ full_reply full → ⊥ }
        ensures logged { (log : Log) → StandsFor self.old log → StandsFor self.new log }
        ensures named { self.new.session.name ≡ self.old.session.name }
    {
        readers::refresh(&mut self.readers[reader as usize], reader)
    }

    /// A reader begins a read of `count` rows from row `from` on.
    fn read(&mut self, reader: u64, from: u64, count: u64) -> Result<Reply, OutOfMemory>
        requires { reader ≤ 16 }
        ensures steps { IfOk result (λ reply. Steps self.old (Event.Read reader from count) reply self.new) }
        ensures no_space { (full : Full) → result ≡ Ok (full_reply full) → ⊥ }
        ensures logged { (log : Log) → StandsFor self.old log → StandsFor self.new log }
        ensures rules { rules_of self.new ≡ rules_of self.old }
        ensures kept { OnErr result (IsKept self.old self.new reader (reader_at self.old.readers reader)) }
        ensures memory { OnErr result (MayRead from count (reader_at self.old.readers reader)) }
        ensures named { self.new.session.name ≡ self.old.session.name }
    {
        readers::read(&mut self.readers[reader as usize], reader, from, count)
    }

    /// A reader takes a look.
    fn look(&mut self, reader: u64) -> Result<Reply, OutOfMemory>
        requires { reader ≤ 16 }
        ensures steps { IfOk result (λ reply. Steps self.old (Event.Look reader) reply self.new) }
        ensures no_space { (full : Full) → result ≡ Ok (full_reply full) → ⊥ }
        ensures logged { (log : Log) → StandsFor self.old log → StandsFor self.new log }
        ensures rules { rules_of self.new ≡ rules_of self.old }
        ensures kept { OnErr result (IsKept self.old self.new reader (option_map ended (reader_at self.old.readers reader))) }
        ensures memory { OnErr result (IsCalling (reader_at self.old.readers reader)) }
        ensures named { self.new.session.name ≡ self.old.session.name }
    {
        readers::look(&mut self.readers[reader as usize], reader, &mut self.image)
    }

    /// The pieces that became visible, the oldest first.
    pub fn journal(&self) -> &Journal
        ensures writes { result.now.writes ≡ self.now.journal }
        ensures folds { self.now.bytes ≡ image [] self.now.journal }
    {
        self.image.journal()
    }

    /// How many pieces are pending.
    pub fn pending(&self) -> u64
        ensures pending { result ≡ length self.now.session.pending }
    {
        self.session.pending()
    }

    /// How many rows were appended.
    pub fn rows(&self) -> u64
        ensures { result ≡ session_rows self.now.session }
    {
        self.session.rows()
    }

    /// Whether the writer was stopped.
    pub fn is_stopped(&self) -> bool
        ensures { result ≡ self.now.session.stopped }
    {
        self.session.is_stopped()
    }

    /// Takes the world apart, as another writer does that goes on with its file. The image says that it is written, also in
    /// the middle of a flush, and has room for the pieces that are pending and one more.
    pub fn into_parts(self) -> WorldParts
        ensures parts { IsApart self result }
        ensures room { HasRoomFor result.session (steady result.image) }
        ensures front { IsLeftOpen result.image.bytes }
        ensures some { (s : ScriptState) × HaveOneLog self s }
    {
        let World {
            session,
            image,
            attempts,
            readers,
            ..
        } = self;
        WorldParts {
            session,
            image,
            attempts,
            readers,
        }
    }
}
