//! A session of several datasets, and what it tells of them.
ghost use Rattle.std.specs.Prelude.{◌≡◌, ◌<◌, ◌≤◌, ◌^◌, Some, length, slice_get};
ghost use Rattle.h5w_writer.specs.Sessions.{IsSession, Session, rows_of};
ghost use Rattle.h5w_writer.specs.Told.{told_of};
ghost use Rattle.h5w_several_writer.specs.Opened.{AreOpened, places_from, rested, sessions_at_rest, sessions_over, settled};
ghost use Rattle.h5w_several_writer.specs.Parts.{AllSessions};
ghost use Rattle.h5w_model.specs.Several.{FileLog};
ghost use Rattle.h5w_several_writer_laws.specs.Sessions.{AreSessions, keeping};
ghost use Rattle.h5w_several_writer_laws.specs.Standing.{StandsAll};

use h5w_model::Super;
use h5w_space::Places;
use h5w_writer::WriterCore;
use std::alloc::Global;
use std::marker::Model;

/// A session of several datasets of one file: the rows of each are appended and wait as cells; the pieces that a flush
/// planned become visible one after another, dataset after dataset. A session that was stopped or closed takes no rows
/// and plans nothing.
#[derive(Drop)]
pub struct SeveralWriter {
    /// The superblock and the places of the file once all planned pieces became visible.
    pub(crate) root: Super,
    pub(crate) places: Places,
    /// The datasets in order, each with this superblock, and with places that end where these do and in which nothing
    /// is free.
    pub(crate) parts: Vec<WriterCore>,
    pub(crate) stopped: bool,
    /// What is retired stays out of use.
    pub(crate) keeps: bool,
}

impl Model for SeveralWriter {
    ghost use Rattle.std.specs.Prelude.{◌≡◌};
    ghost use Rattle.std.specs.Coded.{codes};
    ghost use Rattle.h5w_writer.specs.Codes.{tree_code};
    ghost use Rattle.h5w_several_writer.specs.Parts.{AreCounted};
    ghost use Rattle.h5w_several_writer_laws.specs.Sessions.{Sessions};

    ghost Value = { Sessions };

    ghost coded = { Prim.hlevel (codes, tree_code) };

    ghost view = { λ w. record {
      root = w.root;
      places = w.places;
      parts = w.parts.items;
      stopped = w.stopped;
      keeps = w.keeps;
    } };

    ghost invariant = { λ w.
        AreCounted (record {
          root = w.root;
          places = w.places;
          parts = w.parts.items;
          stopped = w.stopped;
          keeps = w.keeps;
        }) };
}

/// A part has this superblock, and places that end there with nothing free or retired. Answers the places that it had.
pub(crate) fn set_aside(
    part: &mut WriterCore,
    alloc: Global,
    root: Super,
    end: u64,
    limit: u64,
) -> Places
    requires version { root.version ≡ 3 }
    requires rises { part.old.places.end ≤ end }
    requires begun { 48 ≤ end }
    requires limit { limit ≤ 2 ^ 40 }
    ensures session { part.new ≡ told_of part.old root (places_from end limit) }
    ensures was { result ≡ part.old.places }
    ensures is { IsSession part.new }
{
    part.tell(root, Places::new(alloc, end, limit))
}

/// The piece of each of these sessions is one of another session too, which has it alone: nothing is pending in them.
fn settle(parts: &mut [WriterCore], alloc: Global, root: Super, limit: u64)
    requires opened { AreOpened root.end parts.old }
    requires version { root.version ≡ 3 }
    requires begun { 48 ≤ root.end }
    requires limit { limit ≤ 2 ^ 40 }
    ensures rested { parts.new ≡ rested root (places_from root.end limit) parts.old }
    ensures sessions { AllSessions parts.new }
{
    match parts.split_first_mut() {
        None => {}
        Some((part, rest)) => {
            part.written();
            drop(set_aside(part, alloc, root, root.end, limit));
            settle(rest, alloc, root, limit);
        }
    }
}

/// Of the pieces of these sessions, each the superblock, the first is pending for all of them.
fn settle_all(parts: &mut [WriterCore], alloc: Global, root: Super, limit: u64)
    requires opened { AreOpened root.end parts.old }
    requires version { root.version ≡ 3 }
    requires begun { 48 ≤ root.end }
    requires limit { limit ≤ 2 ^ 40 }
    ensures settled { parts.new ≡ settled root (places_from root.end limit) parts.old }
    ensures sessions { AllSessions parts.new }
{
    match parts.split_first_mut() {
        None => {}
        Some((part, rest)) => {
            drop(set_aside(part, alloc, root, root.end, limit));
            settle(rest, alloc, root, limit);
        }
    }
}

impl SeveralWriter {
    /// A session over a file that was opened: each of these is the session of one of its datasets, just begun with this
    /// superblock, to append rows up to `limit` bytes of the file. One piece is pending, the superblock.
    pub fn over(mut parts: Vec<WriterCore>, root: Super, limit: u64) -> SeveralWriter
        requires some { 1 ≤ length parts.items }
        requires few { length parts.items ≤ 8 }
        requires opened { AreOpened root.end parts.items }
        requires version { root.version ≡ 3 }
        requires begun { 48 ≤ root.end }
        requires limit { limit ≤ 2 ^ 40 }
        ensures session { result ≡ sessions_over root limit parts.items }
        ensures sessions { AreSessions result }
    {
        let alloc = *parts.allocator();
        settle_all(&mut parts, alloc, root, limit);
        let places = Places::new(alloc, root.end, limit);
        SeveralWriter {
            root,
            places,
            parts,
            stopped: false,
            keeps: false,
        }
    }

    /// The same over a file whose superblock is this one already, as that of a file that another writer left: nothing
    /// is pending.
    pub fn at_rest(mut parts: Vec<WriterCore>, root: Super, limit: u64) -> SeveralWriter
        requires some { 1 ≤ length parts.items }
        requires few { length parts.items ≤ 8 }
        requires opened { AreOpened root.end parts.items }
        requires version { root.version ≡ 3 }
        requires begun { 48 ≤ root.end }
        requires limit { limit ≤ 2 ^ 40 }
        ensures session { result ≡ sessions_at_rest root limit parts.items }
        ensures sessions { AreSessions result }
    {
        let alloc = *parts.allocator();
        settle(&mut parts, alloc, root, limit);
        let places = Places::new(alloc, root.end, limit);
        SeveralWriter {
            root,
            places,
            parts,
            stopped: false,
            keeps: false,
        }
    }

    /// How many datasets the session has.
    pub fn count(&self) -> usize
        ensures count { result ≡ length self.now.parts }
        ensures some { 1 ≤ result }
        ensures few { result ≤ 8 }
        ensures sessions { AreSessions self.now }
    {
        self.parts.len()
    }

    /// How many rows were appended to dataset `d`.
    pub fn rows(&self, d: usize) -> u64
        requires { d < length self.now.parts }
        ensures { (s : Session) → slice_get self.now.parts d ≡ Some s → result ≡ rows_of s }
    {
        self.parts[d].rows()
    }

    /// How many rows dataset `d` has in the file by the pieces that became visible.
    pub fn committed(&self, d: usize) -> u64
        requires { d < length self.now.parts }
        ensures { (s : Session) → slice_get self.now.parts d ≡ Some s → result ≡ s.committed }
    {
        self.parts[d].committed()
    }

    /// How many columns dataset `d` has, 1 in one dimension.
    pub fn columns(&self, d: usize) -> u64
        requires { d < length self.now.parts }
        ensures value { (s : Session) → slice_get self.now.parts d ≡ Some s → result ≡ s.dataset.shape.cols }
        ensures some { 1 ≤ result }
    {
        self.parts[d].columns()
    }

    /// The name of dataset `d`.
    pub fn name(&self, d: usize) -> &[u8]
        requires { d < length self.now.parts }
        ensures { (s : Session) → slice_get self.now.parts d ≡ Some s → result.now ≡ s.name }
    {
        self.parts[d].name()
    }

    /// How many bytes the file has once all planned pieces became visible.
    pub fn end(&self) -> u64
        ensures { result ≡ self.now.places.end }
    {
        self.places.end()
    }

    /// How many bytes the file may have at most.
    pub fn limit(&self) -> u64
        ensures { result ≡ self.now.places.limit }
    {
        self.places.limit()
    }

    /// The most bytes of dataset `d` that may wait unwritten after an append.
    pub fn budget(&self, d: usize) -> u64
        requires { d < length self.now.parts }
        ensures { (s : Session) → slice_get self.now.parts d ≡ Some s → result ≡ s.budget }
    {
        self.parts[d].budget()
    }

    /// Whether the session was stopped or closed, so that it takes no rows and plans nothing.
    pub fn is_stopped(&self) -> bool
        ensures { result ≡ self.now.stopped }
    {
        self.stopped
    }

    /// What is retired stays out of use from now on: it is forgotten once the pieces of its flush are visible.
    pub fn keep_retired(&mut self)
        ensures session { self.new ≡ keeping self.old }
        ensures sessions { AreSessions self.new }
        ensures stands { (log : FileLog) → StandsAll self.old log → StandsAll self.new log }
    {
        self.keeps = true;
    }
}
