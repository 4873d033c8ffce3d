//! A session, and its calls but for the flush.
ghost use Rattle.std.specs.Prelude.{◌≡◌, ◌≢◌, ℕ, ◌+◌, ◌*◌, ◌^◌, ◌<◌, ◌≤◌, true, false, [], ◌∷◌, List, length, slice_get, IfOk, IfErr, IfSome, MatchOption, OnOk, OnErr, Ok, Err, Some, ◌⊎◌};
ghost use Rattle.std.specs.Option.{option_copied};
ghost use Rattle.h5w_model.specs.declared.piece.Write.{Write};
ghost use Rattle.h5w_model.specs.Causes.{Rose};
ghost use Rattle.h5w_model.specs.Logs.{Log, and_now, appended, appends, flushed_rows, load, rows_in, shows};
ghost use Rattle.h5w_options.specs.Options.{AreOptions};
ghost use Rattle.h5w_model.specs.Superblock.{super_at, super_bytes};
ghost use Rattle.h5w_writer.specs.Creations.{IsCreated};
ghost use Rattle.h5w_creation.specs.NewFiles.{new_file};
ghost use Rattle.h5w_creation_laws.specs.CreatedFiles.{created_log};
ghost use Rattle.h5w_image.specs.View.{Same};
ghost use Rattle.h5w_writer.specs.Room.{HasRoomFor};
ghost use Rattle.h5w_writer.specs.Sessions.{AddsValues, AfterPiece, AreRows, Freed, chunk_limit, chunks_with, cleared, closed_of, closed_root, cutting_of, rows_of, stopped_of, with_values};
ghost use Rattle.h5w_writer.specs.Early.{IsWithin, WrittenEarly, dirty_of};
ghost use Rattle.h5w_writer.specs.Refusals.{append_refusal, close_refusal};
ghost use Rattle.h5w_writer.specs.Stands.{Stands};
ghost use Rattle.h5w_writer.specs.declared.refusal.AppendError.{AppendError};
ghost use Rattle.h5w_writer.specs.declared.refusal.CloseError.{CloseError};

use crate::backlog::Backlog;
use crate::refusal::{AppendError, CloseError};
use h5w_chunks::{Grid, IndexKind};
use h5w_creation::{create_file, form_of};
use h5w_ea::CHUNKS;
use h5w_image::PieceWrite;
use h5w_index::Index;
use h5w_model::{OutOfMemory, Piece, Super, Write};
use h5w_options::Options;
use h5w_pieces::Cells;
use h5w_space::Places;
use h5w_types::first_outside;
use std::alloc::Global;
use std::marker::Model;

/// The most chunks of a version 2 B-tree.
const TREE_CHUNKS: u64 = 1_000_000;

/// A session: rows are appended and wait as cells; the pieces that a flush planned become visible, one
/// after another. A session that was stopped or closed takes no rows and plans nothing.
#[derive(Drop)]
pub struct WriterCore {
    /// The dataset's name.
    pub(crate) name: Piece,
    /// The superblock, the dataset header's place and chunk 0, the dataset and the places once all planned pieces became visible.
    pub(crate) root: Super,
    pub(crate) place: u64,
    pub(crate) header: Piece,
    pub(crate) grid: Grid,
    pub(crate) places: Places,
    /// The rows that the file has before the last of them does.
    pub(crate) committed: u64,
    /// The rows that no flush has planned, and the pieces that are pending.
    pub(crate) backlog: Backlog,
    pub(crate) stopped: bool,
    /// What is retired stays out of use.
    pub(crate) keeps: bool,
    /// The most bytes that may wait unwritten after an append.
    pub(crate) budget: u64,
    /// The index of the chunks.
    pub(crate) index: Index,
}

impl Model for WriterCore {
    ghost use Rattle.std.specs.Prelude.{◌≤◌, length, drop, vec_capacity};
    ghost use Rattle.h5w_chunks.specs.Grids.{IsGrid, dataset_of};
    ghost use Rattle.h5w_index.specs.Held.{view_of};
    ghost use Rattle.std.specs.Coded.{codes};
    ghost use Rattle.h5w_writer.specs.Codes.{tree_code};
    ghost use Rattle.h5w_writer.specs.Sessions.{ArePieces, IsSession, Session};

    ghost Value = { Session };

    ghost coded = { Prim.hlevel (codes, tree_code) };

    ghost view = { λ w. record {
      name = w.name;
      root = w.root;
      place = w.place;
      header = w.header;
      dataset = dataset_of w.grid;
      places = w.places;
      committed = w.committed;
      waiting = w.backlog.waiting;
      waits = w.backlog.waits;
      pending = drop w.backlog.shown w.backlog.plan.items;
      stopped = w.stopped;
      keeps = w.keeps;
      budget = w.budget;
      early = w.backlog.early;
      chunks = w.backlog.chunks.items;
      flushing = w.backlog.flushing;
      index = view_of w.index;
    } };

    ghost invariant = { λ w.
        IsSession (record {
          name = w.name;
          root = w.root;
          place = w.place;
          header = w.header;
          dataset = dataset_of w.grid;
          places = w.places;
          committed = w.committed;
          waiting = w.backlog.waiting;
          waits = w.backlog.waits;
          pending = drop w.backlog.shown w.backlog.plan.items;
          stopped = w.stopped;
          keeps = w.keeps;
          budget = w.budget;
          early = w.backlog.early;
          chunks = w.backlog.chunks.items;
          flushing = w.backlog.flushing;
          index = view_of w.index;
        })
        × IsGrid w.grid
        × ArePieces w.places.end w.backlog.plan.items
        × (w.backlog.shown ≤ length w.backlog.plan.items)
        × (1 ≤ vec_capacity w.backlog.plan) };
}

impl WriterCore {
    /// A session that creates a file with a dataset by these options. The creation's pieces are pending; they end by the
    /// file's end. Whoever makes them visible reserves room for them and one more in the image first.
    pub fn create(alloc: Global, options: &Options) -> Result<WriterCore, OutOfMemory>
        requires { AreOptions options.now }
        ensures session { IfOk result (λ s. IsCreated (new_file options.now) options.now.limit s) }
        ensures budget { IfOk result (λ s. s.budget ≡ options.now.budget) }
        ensures stands { IfOk result (λ s. Stands s (created_log (new_file options.now))) }
    {
        let name = options.name.as_slice();
        let file = create_file(alloc, name, &form_of(options))?;
        Ok(WriterCore {
            name: Piece::of(name),
            root: file.root,
            place: file.place,
            header: file.header,
            grid: file.grid,
            places: Places::new(alloc, file.root.end, options.limit),
            committed: 0,
            backlog: Backlog {
                waiting: Cells::new(alloc),
                waits: 0,
                plan: file.writes,
                shown: 0,
                spare: Vec::new(alloc),
                early: 0,
                chunks: Vec::new(alloc),
                flushing: false,
            },
            stopped: false,
            keeps: false,
            budget: options.budget,
            index: file.index,
        })
    }

    /// Appends values, rows one after another, whose cells wait for the next flush. Answers how many rows were appended in all.
    /// Where more bytes wait than the budget has, whole bands of chunks are written early, the first rows first, until what waits is within it
    /// or the file has no place for the next band: their pieces are pending then, and no reader reaches what they write before the flush.
    /// Room is reserved in the image for these pieces and one more, up to the file's end.
    pub fn append<W: PieceWrite>(
        &mut self,
        values: &[i128],
        image: &mut W,
    ) -> Result<u64, AppendError>
        requires rows { AreRows self.old values.now }
        ensures added { OnOk result (AddsValues self.old values.now self.new) }
        ensures written { OnOk result (WrittenEarly (with_values self.old values.now) self.new) }
        ensures within { OnOk result (IsWithin self.new) }
        ensures early { OnOk result (self.new.pending ≢ [] → self.old.budget < dirty_of (with_values self.old values.now)) }
        ensures rows { IfOk result (λ rows. rows ≡ rows_of self.new) }
        ensures unplanned { OnOk result (self.new.flushing ≡ false) }
        ensures stands { OnOk result ((log : Log) → Stands self.old log → Stands self.new (and_now (appends values.now) log)) }
        ensures bound { OnOk result ((log : Log) → Stands self.old log → length self.new.pending ≤ load (cutting_of self.old) (and_now (appends values.now) log)) }
        ensures over { OnOk result (self.new.pending ≢ [] → (log : Log) → Stands self.old log → self.old.budget < load (cutting_of self.old) (and_now (appends values.now) log)) }
        ensures refused { (e : AppendError) → append_refusal self.old values.now ≡ Some e → result ≡ Err e }
        ensures causes { IfErr result (λ e. (append_refusal self.old values.now ≡ Some e) ⊎ (e ≡ AppendError.Failed) ⊎ (e ≡ AppendError.OutOfMemory)) }
        ensures fault { result ≡ Err AppendError.Failed → Rose (W.view image.old).faults (W.view image.new).faults }
        ensures kept { OnErr result (self.new ≡ self.old) }
        ensures image { Same (W.view image.old) (W.view image.new) }
        ensures room { OnOk result (HasRoomFor self.new (W.view image.new)) }
    {
        self.check(values)?;
        let rows = values.len() as u64 / self.grid.shape.cols;
        let bytes = self.backlog.waiting.len();
        self.backlog.waiting.put(values, &self.grid.int_type)?;
        self.backlog.waits += rows;
        match self.write_early(image) {
            Ok(()) => Ok(self.rows()),
            Err(e) => {
                self.backlog.waiting.truncate(bytes);
                self.backlog.waits -= rows;
                Err(AppendError::from(e))
            }
        }
    }

    /// Why these values are not appended, but for the image and memory.
    pub(crate) fn check(&self, values: &[i128]) -> Result<(), AppendError>
        requires rows { AreRows self.now values.now }
        ensures { MatchOption (append_refusal self.now values.now) (result ≡ Ok tt) (λ e. result ≡ Err e) }
    {
        if self.stopped {
            return Err(AppendError::Stopped);
        }
        let pending = self.pending();
        if pending > 0 {
            return Err(AppendError::Busy { pending });
        }
        if let Some((index, value)) = first_outside(values, &self.grid.int_type) {
            return Err(AppendError::OutOfRange { index, value });
        }
        let chunks = self.chunks_with(values.len() as u64 / self.grid.shape.cols);
        let limit = self.chunk_limit();
        if chunks > limit {
            return Err(AppendError::Chunks { chunks, limit });
        }
        Ok(())
    }

    /// How many chunks the rows need with so many more.
    fn chunks_with(&self, more: u64) -> u64
        requires { more * self.now.dataset.shape.cols < 2 ^ 62 }
        ensures { result ≡ chunks_with self.now more }
    {
        let (rows, cols) = self.grid.layout.chunk;
        let bands = (self.rows() + more).div_ceil(rows);
        let across = self.grid.shape.cols.div_ceil(cols);
        bands * across
    }

    /// The most chunks that the index has.
    fn chunk_limit(&self) -> u64
        ensures { result ≡ chunk_limit self.now }
    {
        match self.grid.layout.index {
            IndexKind::Array => CHUNKS,
            IndexKind::Tree => TREE_CHUNKS,
        }
    }

    /// How many pieces are pending.
    pub fn pending(&self) -> u64
        ensures { result ≡ length self.now.pending }
    {
        (self.backlog.plan.len() - self.backlog.shown) as u64
    }

    /// The oldest pending piece; None exactly where nothing is pending.
    pub fn next(&self) -> Option<&Write>
        ensures oldest { option_copied result ≡ slice_get self.now.pending 0 }
        ensures some { IfSome result (λ w. 1 ≤ length w.now.piece) }
        ensures within { IfSome result (λ w. w.now.at + length w.now.piece ≤ self.now.places.end) }
    {
        self.backlog.plan.get(self.backlog.shown)
    }

    /// Whether what is pending is a flush, and not pieces that were written early, or a superblock.
    pub fn is_flushing(&self) -> bool
        ensures { result ≡ self.now.flushing }
    {
        self.backlog.flushing
    }

    /// The oldest pending piece became visible. With the last one of a flush the file has the planned rows, and what was retired is free, or
    /// stays out of use. Takes no memory.
    pub fn written(&mut self)
        requires { 0 < length self.old.pending }
        ensures piece { (w : Write) (ws : List Write) → self.old.pending ≡ w ∷ ws → AfterPiece self.old ws self.new }
        ensures stands { (w : Write) (ws : List Write) → self.old.pending ≡ w ∷ ws → (log : Log) → Stands self.old log → Stands self.new (and_now (shows w) log) }
    {
        self.advance();
    }

    /// The oldest pending piece is pending no more.
    fn advance(&mut self)
        requires { 0 < length self.old.pending }
        ensures { (w : Write) (ws : List Write) → self.old.pending ≡ w ∷ ws → AfterPiece self.old ws self.new }
    {
        self.backlog.shown += 1;
        if self.backlog.shown == self.backlog.plan.len() && self.backlog.flushing {
            self.backlog.flushing = false;
            self.committed = self.grid.shape.rows;
            let_go(&mut self.places, self.keeps);
        }
    }

    /// Drops the pending pieces. The session is stopped from then on: nothing is pending, and what was flushed stays.
    /// Takes no memory.
    pub fn stop(&mut self)
        ensures session { self.new ≡ stopped_of self.old }
        ensures stands { (log : Log) → Stands self.old log → Stands self.new log }
    {
        self.backlog.plan.clear();
        self.backlog.shown = 0;
        self.stopped = true;
        self.backlog.flushing = false;
    }

    /// The image failed at a piece, so that the pieces behind it cannot become visible: the session is stopped.
    pub fn failed(&mut self)
        ensures session { self.new ≡ stopped_of self.old }
        ensures stands { (log : Log) → Stands self.old log → Stands self.new log }
    {
        self.stop();
    }

    /// Plans the superblock with the flags of a file that nobody writes, as one pending piece: rows that wait stay unwritten. The
    /// session is stopped from then on. Takes no memory.
    pub fn close(&mut self) -> Result<(), CloseError>
        ensures closed { OnOk result (self.new ≡ closed_of self.old) }
        ensures reads { OnOk result (super_at (super_bytes (closed_root self.old)) ≡ Ok (closed_root self.old)) }
        ensures stands { OnOk result ((log : Log) → Stands self.old log → Stands self.new log) }
        ensures refused { MatchOption (close_refusal self.old) (result ≡ Ok tt) (λ e. result ≡ Err e) }
        ensures kept { OnErr result (self.new ≡ self.old) }
    {
        if self.stopped {
            return Err(CloseError::Stopped);
        }
        let pending = self.pending();
        if pending > 0 {
            return Err(CloseError::Busy { pending });
        }
        self.clear();
        Ok(())
    }

    /// Plans the superblock with cleared flags, and nothing else.
    fn clear(&mut self)
        ensures session { self.new ≡ closed_of self.old }
        ensures reads { super_at (super_bytes (closed_root self.old)) ≡ Ok (closed_root self.old) }
    {
        self.root.flags = cleared(self.root.flags);
        let piece = Piece::of(&h5w_super::encode(&self.root));
        self.backlog.plan.clear();
        self.backlog.plan.push_reserved(Write { at: 0, piece });
        self.backlog.shown = 0;
        self.stopped = true;
    }

    /// What is retired stays out of use from now on: it is forgotten once the pieces of its flush are visible.
    pub fn keep_retired(&mut self)
        ensures session { self.new ≡ record self.old { keeps = true } }
        ensures stands { (log : Log) → Stands self.old log → Stands self.new log }
    {
        self.keeps = true;
    }

    /// How many rows were appended.
    pub fn rows(&self) -> u64
        ensures value { result ≡ rows_of self.now }
        ensures bound { result < 2 ^ 52 }
        ensures appended { (log : Log) → Stands self.now log → result ≡ rows_in log (appended log) }
    {
        self.grid.shape.rows + self.backlog.waits
    }

    /// How many rows the file has by the pieces that became visible.
    pub fn committed(&self) -> u64
        ensures value { result ≡ self.now.committed }
        ensures flushed { (log : Log) → Stands self.now log → result ≡ flushed_rows log }
    {
        self.committed
    }

    /// How many columns the dataset has, 1 in one dimension.
    pub fn columns(&self) -> u64
        ensures value { result ≡ self.now.dataset.shape.cols }
        ensures log { (log : Log) → Stands self.now log → result ≡ log.columns }
        ensures some { 1 ≤ result }
    {
        self.grid.shape.cols
    }

    /// How many bytes the file has once all planned pieces became visible.
    pub fn end(&self) -> u64
        ensures { result ≡ self.now.places.end }
    {
        self.places.end()
    }

    /// The most bytes that may wait unwritten after an append.
    pub fn budget(&self) -> u64
        ensures { result ≡ self.now.budget }
    {
        self.budget
    }

    /// Whether the session was stopped or closed, so that it takes no rows and plans nothing.
    pub fn is_stopped(&self) -> bool
        ensures { result ≡ self.now.stopped }
    {
        self.stopped
    }

    /// How many bytes the file may have at most.
    pub fn limit(&self) -> u64
        ensures { result ≡ self.now.places.limit }
    {
        self.places.limit()
    }

    /// The dataset's name.
    pub fn name(&self) -> &[u8]
        ensures { result.now ≡ self.now.name }
    {
        self.name.as_slice()
    }
}

/// What was retired is free, or where it stays out of use forgotten.
fn let_go(places: &mut Places, keeps: bool)
    ensures { Freed keeps places.old places.new }
{
    if keeps {
        places.forget();
    } else {
        places.commit();
    }
}

/// Flags without those of a file that is open for writing, and for SWMR writing.
fn cleared(flags: u8) -> u8
    ensures { result ≡ cleared flags }
{
    flags - flags % 2 - flags / 4 % 2 * 4
}
