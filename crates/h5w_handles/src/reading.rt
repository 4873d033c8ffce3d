//! The calls of a reader, on a handle.
ghost use Rattle.std.specs.Prelude.{◌≡◌, None};
ghost use Rattle.h5w_model.specs.Calls.{rows_seen};
ghost use Rattle.h5w_reader.specs.Cores.{reader};
ghost use Rattle.h5w_handles.specs.Codes.{misuse};
ghost use Rattle.h5w_handles.specs.Handles.{HoldsReader, OnReader, OpensReader, QuitsReader};
ghost use Rattle.h5w_handles.specs.ReaderCalls.{BeginsRead, Copied, Gave, IsKnownShape, IsWantedPlace, Refreshed, TellsRefusal};

use crate::code::{H5wCode, H5wPlace, H5wTold};
use crate::copying::Narrow;
use crate::handle::Handle;
use crate::held::Held;
use crate::reader::ReaderState;
use crate::shape::H5wShape;
use h5w_model::OutOfMemory;
use std::alloc::Global;

impl Handle {
    /// Holds a reader of which a look is wanted; or memory is wanting.
    fn hold_reader(&mut self, alloc: Global, state: ReaderState) -> H5wTold
        requires { self.old.at.held ≡ None }
        ensures { HoldsReader state result self.new.at.held }
    {
        if self.hold(alloc, Held::Reader(state)) {
            H5wCode::More.alone()
        } else {
            H5wCode::Memory.alone()
        }
    }

    /// Holds a reader from now on, which begins to open the dataset of this name. Where a dataset header changes between its looks, a call
    /// tries so often, 1 to 1,000 times.
    pub fn open_reader(&mut self, alloc: Global, name: &[u8], attempts: u32) -> H5wTold
        ensures { OpensReader name.now attempts self.old.at.held result self.new.at.held }
    {
        if !self.is_none() {
            return H5wCode::Busy.alone();
        }
        if attempts < 1 || attempts > 1_000 {
            return H5wCode::Misuse.alone();
        }
        match ReaderState::open(alloc, name, attempts) {
            Ok(state) => self.hold_reader(alloc, state),
            Err(OutOfMemory) => H5wCode::Memory.alone(),
        }
    }

    /// Where the next look of the reader's unfinished call is.
    pub fn want(&mut self, alloc: Global) -> Option<H5wPlace>
        ensures { OnReader None IsWantedPlace self.old.at.held result self.new.at.held }
    {
        let held = self.take(alloc)?;
        let place = match &*held {
            Held::Reader(reader) => reader.want(),
            Held::Writer(_) | Held::Several(_) => None,
        };
        self.put(held);
        place
    }

    /// Goes on with the bytes that the wanted look gave.
    pub fn give(&mut self, alloc: Global, bytes: &[u8]) -> H5wTold
        ensures { OnReader misuse (Gave bytes.now) self.old.at.held result self.new.at.held }
    {
        let Some(mut held) = self.take(alloc) else {
            return H5wCode::Misuse.alone();
        };
        let told = match &mut *held {
            Held::Reader(reader) => reader.give(bytes),
            Held::Writer(_) | Held::Several(_) => H5wCode::Misuse.alone(),
        };
        self.put(held);
        told
    }

    /// Begins a refresh.
    pub fn refresh(&mut self, alloc: Global) -> H5wTold
        ensures { OnReader misuse Refreshed self.old.at.held result self.new.at.held }
    {
        let Some(mut held) = self.take(alloc) else {
            return H5wCode::Misuse.alone();
        };
        let told = match &mut *held {
            Held::Reader(reader) => reader.refresh(),
            Held::Writer(_) | Held::Several(_) => H5wCode::Misuse.alone(),
        };
        self.put(held);
        told
    }

    /// Begins a read of `count` rows from row `from` on.
    pub fn read(&mut self, alloc: Global, from: u64, count: u64) -> H5wTold
        ensures { OnReader misuse (BeginsRead from count) self.old.at.held result self.new.at.held }
    {
        let Some(mut held) = self.take(alloc) else {
            return H5wCode::Misuse.alone();
        };
        let told = match &mut *held {
            Held::Reader(reader) => reader.read(from, count),
            Held::Writer(_) | Held::Several(_) => H5wCode::Misuse.alone(),
        };
        self.put(held);
        told
    }

    /// How many rows the reader saw.
    pub fn rows_seen(&mut self, alloc: Global) -> u64
        ensures { OnReader 0 (λ s n t. (n ≡ rows_seen (reader s.core).known) × (t ≡ s)) self.old.at.held result self.new.at.held }
    {
        let Some(held) = self.take(alloc) else {
            return 0;
        };
        let rows = match &*held {
            Held::Reader(reader) => reader.rows(),
            Held::Writer(_) | Held::Several(_) => 0,
        };
        self.put(held);
        rows
    }

    /// The shape of the dataset that the reader knows.
    pub fn shape(&mut self, alloc: Global) -> Option<H5wShape>
        ensures { OnReader None IsKnownShape self.old.at.held result self.new.at.held }
    {
        let held = self.take(alloc)?;
        let shape = match &*held {
            Held::Reader(reader) => reader.shape(),
            Held::Writer(_) | Held::Several(_) => None,
        };
        self.put(held);
        shape
    }

    /// Puts the line of the reader's last refusal at the front of `out`, as much of it as there is room for, and answers how many bytes it has: 0
    /// without one, and if memory is wanting.
    pub fn put_refusal(&mut self, alloc: Global, out: &mut [u8]) -> u64
        ensures { OnReader (0, out.old) (TellsRefusal out.old) self.old.at.held (result, out.new) self.new.at.held }
    {
        let Some(held) = self.take(alloc) else {
            return 0;
        };
        let count = match &*held {
            Held::Reader(reader) => reader.put_refusal(alloc, out),
            Held::Writer(_) | Held::Several(_) => 0,
        };
        self.put(held);
        count
    }

    /// Puts the values of the reader's last read from value `from` on at the front of `out`, as many as there is room for, up to the first that is no
    /// such number, and answers how many.
    pub fn values<T: Narrow>(&mut self, alloc: Global, from: u64, out: &mut [T]) -> u64
        ensures { OnReader (0, out.old) (Copied T.narrowed from out.old) self.old.at.held (result, out.new) self.new.at.held }
    {
        let Some(held) = self.take(alloc) else {
            return 0;
        };
        let count = match &*held {
            Held::Reader(reader) => reader.copy(from, out),
            Held::Writer(_) | Held::Several(_) => 0,
        };
        self.put(held);
        count
    }

    /// Ends the reader's unfinished call, if there is one.
    pub fn quit(&mut self, alloc: Global)
        ensures { QuitsReader self.old.at.held self.new.at.held }
    {
        let Some(mut held) = self.take(alloc) else {
            return;
        };
        match &mut *held {
            Held::Reader(reader) => reader.quit(),
            Held::Writer(_) | Held::Several(_) => {}
        }
        self.put(held);
    }
}
