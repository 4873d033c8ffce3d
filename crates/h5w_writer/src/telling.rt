//! What a session of several datasets asks of the session of one of them.
ghost use Rattle.std.specs.Prelude.{◌≡◌, ◌^◌, ◌<◌, ◌≤◌, []};
ghost use Rattle.h5w_flush_laws.specs.Spaces.{extent_of};
ghost use Rattle.h5w_model.specs.Findings.{the_superblock};
ghost use Rattle.h5w_writer.specs.Halves.{places_of};
ghost use Rattle.h5w_writer.specs.Lent.{WasLent};
ghost use Rattle.h5w_writer.specs.Sessions.{IsSession, IsUnmade};
ghost use Rattle.h5w_writer.specs.Told.{told_of};
ghost use Rattle.h5w_space.specs.Space.{IsLive};

use crate::planned::Planned;
use crate::state::WriterCore;
use h5w_model::Super;
use h5w_space::Places;
use std::mem;

impl WriterCore {
    /// Pieces of other datasets of the file were shown, or will be before the next ones of this one: the superblock and the places are these
    /// from now on. Answers the places that it had. It takes no memory, and cannot fail.
    pub fn tell(&mut self, root: Super, places: Places) -> Places
        requires version { root.version ≡ 3 }
        requires rises { self.old.places.end ≤ places.end }
        requires small { places.end < 2 ^ 64 }
        requires limit { places.limit ≤ 2 ^ 40 }
        // of a dataset whose index is not there yet
        requires live { IsUnmade self.old → IsLive places (extent_of the_superblock) }
        ensures session { self.new ≡ told_of self.old root places }
        ensures was { result ≡ self.old.places }
        ensures is { IsSession self.new }
    {
        self.root = root;
        mem::replace(&mut self.places, places)
    }

    /// Is not told so after all: since then no more than places are held in its index. The superblock and the places are again those that it had
    /// before. Answers the places that it was told of. Nothing is pending.
    pub fn take_back(&mut self, root: Super, places: Places) -> Places
        requires idle { self.old.pending ≡ [] }
        requires lent { WasLent self.old root places }
        ensures session { self.new ≡ told_of self.old root places }
        ensures was { result ≡ self.old.places }
    {
        self.backlog.plan.clear();
        self.backlog.shown = 0;
        self.root = root;
        mem::replace(&mut self.places, places)
    }

    /// How many rows no flush has planned.
    pub fn waits(&self) -> u64
        ensures { result ≡ self.now.waits }
    {
        self.backlog.waits
    }

    /// The superblock as it is once all pending pieces became visible.
    pub fn root(&self) -> Super
        ensures { result ≡ self.now.root }
    {
        self.root
    }

    /// The places of the file once what is planned is carried out.
    pub fn places_then<'a>(&'a self, planned: &'a Planned) -> &'a Places
        ensures { result.now ≡ places_of self.now planned.now }
    {
        match planned {
            Planned::Starts(starting) => &starting.places,
            Planned::Alone(_) => &self.places,
            Planned::Grows(_) => &self.places,
        }
    }
}
