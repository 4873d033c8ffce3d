//! A reader with the values of its last read, and its last refusal.
ghost use Rattle.std.specs.Prelude.{◌≡◌, ◌≤◌, ◌++◌, IfOk, IsTrue, drop, length, option_map};
ghost use Rattle.h5w_model.specs.Calls.{rows_seen};
ghost use Rattle.h5w_model.specs.Tables.{Reading};
ghost use Rattle.h5w_model.specs.Unfinished.{wanted};
ghost use Rattle.h5w_lookup.specs.Looks.{IsWithinLook};
ghost use Rattle.h5w_reader.specs.Cores.{reader};
ghost use Rattle.h5w_handles.specs.Copies.{numbers};
ghost use Rattle.h5w_handles.specs.ReaderCalls.{Gave, IsNewReader, BeginsRead, IsQuit, Refreshed, is_within, pair_of, refusal_after, values_after};
ghost use Rattle.h5w_handles.specs.Shapes.{shape_told};
ghost use Rattle.h5w_handles.specs.Texts.{PutsRefusal};

use crate::code::{H5wCode, H5wPlace, H5wTold};
use crate::copying::{Narrow, copy};
use crate::shape::{H5wShape, shape_told};
use crate::telling::{begin_told, read_told, step_told};
use crate::text::put_refusal;
use h5w_model::{OutOfMemory, Piece, ReadError, Values};
use h5w_reader::{ReaderCore, Step};
use std::alloc::Global;

/// A reader, the values of its last read that gave some, and why its last call was refused that was.
#[derive(Drop)]
pub struct ReaderState {
    pub core: ReaderCore,
    pub values: Option<Values>,
    pub refusal: Option<ReadError>,
}

impl ReaderState {
    /// A reader that begins to open the dataset of this name.
    pub fn open(alloc: Global, name: &[u8], attempts: u32) -> Result<ReaderState, OutOfMemory>
        ensures { IfOk result (IsNewReader name.now attempts) }
    {
        Ok(ReaderState {
            core: ReaderCore::open(alloc, name, attempts)?,
            values: None,
            refusal: None,
        })
    }

    /// Where the next look of the unfinished call is.
    pub fn want(&self) -> Option<H5wPlace>
        ensures { wanted (reader self.now.core).left ≡ option_map pair_of result }
    {
        let look = self.core.want()?;
        Some(H5wPlace {
            at: look.at,
            len: look.len as u64,
        })
    }

    /// How many rows were seen.
    pub fn rows(&self) -> u64
        ensures { result ≡ rows_seen (reader self.now.core).known }
    {
        self.core.seen()
    }

    /// Begins a refresh.
    pub fn refresh(&mut self) -> H5wTold
        ensures { Refreshed self.old result self.new }
    {
        match self.core.refresh() {
            Ok(()) => H5wCode::More.alone(),
            Err(error) => begin_told(&error),
        }
    }

    /// Begins a read of `count` rows from row `from` on.
    pub fn read(&mut self, from: u64, count: u64) -> H5wTold
        ensures { BeginsRead from count self.old result self.new }
    {
        match self.core.read(from, count) {
            Ok(values) => {
                let told = read_told(&values);
                if values.is_some() {
                    self.values = values;
                }
                told
            }
            Err(error) => begin_told(&error),
        }
    }

    /// Whether so many bytes are no more than the wanted look asks for.
    fn is_within(&self, len: usize) -> bool
        ensures value { result ≡ is_within (wanted (reader self.now.core).left) len }
        ensures within { IsTrue result → IsWithinLook (wanted (reader self.now.core).left) len }
        ensures bound { IsTrue result → len ≤ 512 }
    {
        match self.core.want() {
            Some(look) => len <= look.len,
            None => false,
        }
    }

    /// Keeps what a step gave: values, or a refusal.
    fn keep(&mut self, step: Step)
        ensures { self.new ≡ record self.old { values = values_after self.old.values step; refusal = refusal_after self.old.refusal step } }
    {
        match step {
            Step::More | Step::Rows(_) => {}
            Step::Values(values) => self.values = Some(values),
            Step::Refused(error) => self.refusal = Some(error),
        }
    }

    /// Goes on with the bytes that the wanted look gave.
    pub fn give(&mut self, bytes: &[u8]) -> H5wTold
        ensures { Gave bytes.now self.old result self.new }
    {
        if !self.is_within(bytes.len()) {
            return H5wCode::Misuse.alone();
        }
        let step = self.core.give(&Piece::of(bytes));
        let told = step_told(&step);
        self.keep(step);
        told
    }

    /// Puts the values of the last read from value `from` on at the front of `out`, as many as there is room for, up to the first that is no such
    /// number, and answers how many.
    pub fn copy<T: Narrow>(&self, from: u64, out: &mut [T]) -> u64
        ensures count { result ≡ length (numbers T.narrowed from (length out.old) self.now.values) }
        ensures left { out.new ≡ numbers T.narrowed from (length out.old) self.now.values ++ drop result out.old }
    {
        let Some(values) = &self.values else {
            return 0;
        };
        let all = values.as_slice();
        copy(&all[all.len().min(from as usize)..], out) as u64
    }

    /// The shape of the dataset that is known.
    pub fn shape(&self) -> Option<H5wShape>
        ensures { result ≡ option_map shape_told (option_map (λ (r : Reading). r.dataset) (reader self.now.core).known) }
    {
        let dataset = self.core.dataset()?;
        Some(shape_told(dataset))
    }

    /// Puts the line of the last refusal at the front of `out`, as much of it as there is room for, and answers how many bytes it has: 0 without one,
    /// and if memory is wanting.
    pub fn put_refusal(&self, alloc: Global, out: &mut [u8]) -> u64
        ensures { PutsRefusal self.now.refusal out.old (result, out.new) }
    {
        put_refusal(alloc, self.refusal, out)
    }

    /// Ends the unfinished call, if there is one.
    pub fn quit(&mut self)
        ensures { IsQuit self.old self.new }
    {
        self.core.quit();
    }
}
