//! The places of a session's file: which ranges hold blocks, which are free, and where the file ends.
//!
//! A block that is written anew goes to a place that [`Places::take`] gives: a free place of just its size, or
//! the end of the file. The place of the block before it is retired, since readers may still follow addresses to
//! it; only [`Places::commit`] makes retired places free, and [`Places::forget`] keeps them out of use for good. Free
//! places are known to the session alone, and are lost at its end.
#![tactic(auto)]

ghost use Rattle.std.specs.Prelude.{◌≡◌, ℕ, ◌+◌, ◌-◌, ◌<◌, ◌≤◌, ◌↔◌, ◌∷◌, ◌++◌, [], ◌&&◌, not, nat_lt, max, IsTrue, IfOk, IfErr, OnErr, is_err, vec_capacity};
ghost use Rattle.std.specs.List.{All};
ghost use Rattle.h5w_space.specs.Space.{Apart, Space, extent, has_size, IsLive, TakesPlace, Commits};

mod groups;

use crate::groups::Group;
use h5w_model::OutOfMemory;
use std::alloc::{AllocError, Global};
use std::marker::Model;
use thiserror::Error;

/// A range of the file: `size` bytes from byte `at` on.
#[derive(Clone, Copy)]
pub struct Extent {
    pub at: u64,
    pub size: u64,
}

impl Extent {
    /// Whether no byte lies in both.
    fn is_apart(&self, other: &Extent) -> bool
        ensures { IsTrue result ↔ Apart self.now other.now }
    {
        if self.at <= other.at {
            other.at - self.at >= self.size || other.size == 0
        } else {
            self.at - other.at >= other.size || self.size == 0
        }
    }

    /// Whether no byte lies in it and in one of these.
    fn is_apart_from(&self, places: &[Extent]) -> bool
        ensures { IsTrue result ↔ All (Apart self.now) places.now }
    {
        places.iter().all(|place| self.is_apart(place))
    }
}

/// No free place has `size` bytes, and the file, which ends at `at`, has no room for them up to its limit.
#[derive(Clone, Copy, Debug, PartialEq, Eq, Error)]
#[error("no room for {size} bytes at {at}, the limit is {limit}")]
pub struct Full {
    pub at: u64,
    pub size: u64,
    pub limit: u64,
}

/// The places of a session's file.
#[derive(Drop)]
pub struct Places {
    /// The first byte after the file, and how far it may grow.
    end: u64,
    limit: u64,
    /// The free places, by their sizes as `groups` says.
    free: Vec<Extent>,
    groups: Vec<Group>,
    /// What becomes free with the next commit, or is forgotten.
    retired: Vec<Extent>,
    /// How many more retirements have room in the three lists.
    spare: u64,
}

impl Model for Places {
    ghost use Rattle.std.specs.Prelude.{vec_len, vec_capacity, ◌++◌};
    ghost use Rattle.h5w_space.specs.Groups.{IsGrouped, IsSound, HasRoom};
    ghost use Rattle.h5w_space.specs.Space.{Space};

    ghost Value = { Space };

    ghost view = { λ p. record {
      end = p.end;
      limit = p.limit;
      free = p.free.items;
      retired = p.retired.items;
      spare = p.spare;
    } };

    ghost invariant = { λ p.
        IsGrouped p.groups.items p.free.items
        × IsSound p.end (p.free.items ++ p.retired.items)
        × HasRoom (vec_len p.groups) (vec_len p.free) (vec_len p.retired) p.spare
        (vec_capacity p.groups) (vec_capacity p.free) (vec_capacity p.retired) };
}

impl Places {
    /// A file that ends at byte `end` and may grow up to byte `limit`, with nothing free.
    pub fn new(alloc: Global, end: u64, limit: u64) -> Places
        ensures { result ≡ record { end = end; limit = limit; free = []; retired = []; spare = 0 } }
    {
        Places {
            end,
            limit,
            free: Vec::new(alloc),
            groups: Vec::new(alloc),
            retired: Vec::new(alloc),
            spare: 0,
        }
    }

    /// The first byte after the file.
    pub fn end(&self) -> u64
        ensures { result ≡ self.now.end }
    {
        self.end
    }

    /// How many bytes the file may have at most.
    pub fn limit(&self) -> u64
        ensures { result ≡ self.now.limit }
    {
        self.limit
    }

    /// Makes room for `n` more retirements.
    pub fn reserve(&mut self, n: u64) -> Result<(), OutOfMemory>
        ensures room { IfOk result (λ _. self.new ≡ record self.old { spare = max self.old.spare n }) }
        ensures kept { OnErr result (self.new ≡ self.old) }
    {
        let retirements = n as usize;
        let places = self
            .retired
            .len()
            .checked_add(retirements)
            .ok_or(OutOfMemory)?;
        self.groups.reserve(places)?;
        self.free.reserve(places)?;
        self.retired.reserve(retirements)?;
        self.spare = self.spare.max(n);
        Ok(())
    }

    /// Whether the range ends by the file's end, and has no byte in common with a free or a retired place.
    pub fn live(&self, at: u64, size: u64) -> bool
        ensures { IsTrue result ↔ IsLive self.now (extent at size) }
    {
        let place = Extent { at, size };
        at <= self.end
            && size <= self.end - at
            && place.is_apart_from(&self.free)
            && place.is_apart_from(&self.retired)
    }

    /// A place of `size` bytes: a free one of just this size, else the file's end, which moves behind it.
    ///
    /// Takes no memory, and as many steps as the free places have sizes.
    pub fn take(&mut self, size: u64) -> Result<u64, Full>
        ensures taken { IfOk result (λ at. TakesPlace self.old self.new (extent at size)) }
        // It overlaps nothing that is live or retired, and is live from now on.
        ensures off_live { IfOk result (λ at. (r : Extent) → IsLive self.old r → Apart (extent at size) r) }
        ensures off_retired { IfOk result (λ at. All (Apart (extent at size)) self.old.retired) }
        ensures live { IfOk result (λ at. IsLive self.new (extent at size)) }
        ensures stays_live { IfOk result (λ at. (r : Extent) → IsLive self.old r → IsLive self.new r) }
        // It is refused only where no place of the size is free and the end has no room for it, then always.
        ensures refused { is_err result ≡ (not (has_size size self.old.free) && nat_lt self.old.limit (self.old.end + size)) }
        ensures full { IfErr result (λ e. e ≡ record { at = self.old.end; size = size; limit = self.old.limit }) }
        ensures kept { OnErr result (self.new ≡ self.old) }
    {
        if let Some(place) = groups::take(&mut self.groups, &mut self.free, size) {
            return Ok(place.at);
        }
        let at = self.end;
        match at.checked_add(size) {
            Some(end) if end <= self.limit => {
                self.end = end;
                Ok(at)
            }
            _ => Err(Full {
                at,
                size,
                limit: self.limit,
            }),
        }
    }

    /// The range is read by nobody once the next commit is done: from then on it is free.
    ///
    /// Takes no memory, and a constant number of steps.
    pub fn retire(&mut self, at: u64, size: u64)
        requires live { IsLive self.old (extent at size) }
        requires room { 1 ≤ self.old.spare }
        ensures retired { self.new ≡ record self.old {
          retired = self.old.retired ++ extent at size ∷ [];
          spare = self.old.spare - 1;
        } }
        ensures stays_live { (r : Extent) → IsLive self.old r → Apart (extent at size) r → IsLive self.new r }
    {
        self.retired.push_reserved(Extent { at, size });
        self.spare -= 1;
    }

    /// What was retired is free. Takes no memory.
    pub fn commit(&mut self)
        ensures committed { Commits self.old self.new }
        ensures stays_live { (r : Extent) → IsLive self.old r → IsLive self.new r }
    {
        groups::put_all(&mut self.groups, &mut self.free, &self.retired);
        self.retired.clear();
    }

    /// What was retired is forgotten: it is neither free nor retired, so that no place is taken over it any more. Takes no memory.
    pub fn forget(&mut self)
        ensures forgotten { self.new ≡ record self.old { retired = [] } }
        // what was retired counts as live from now on, as does what was live
        ensures kept_out { All (IsLive self.new) self.old.retired }
        ensures stays_live { (r : Extent) → IsLive self.old r → IsLive self.new r }
    {
        self.retired.clear();
    }

    /// A copy, with as much room.
    pub fn copy(&self) -> Result<Places, OutOfMemory>
        ensures { IfOk result (λ p. p ≡ self.now) }
    {
        Ok(Places {
            end: self.end,
            limit: self.limit,
            free: copied(&self.free)?,
            groups: copied(&self.groups)?,
            retired: copied(&self.retired)?,
            spare: self.spare,
        })
    }
}

/// The same elements with as much room.
fn copied<T: Copy + Drop>(items: &Vec<T>) -> Result<Vec<T>, AllocError>
    ensures items { IfOk result (λ v. v.items ≡ items.now.items) }
    ensures room { IfOk result (λ v. vec_capacity items.now ≤ vec_capacity v) }
{
    let mut copy = Vec::with_capacity(*items.allocator(), items.capacity())?;
    copy.extend_from_slice(items)?;
    Ok(copy)
}
