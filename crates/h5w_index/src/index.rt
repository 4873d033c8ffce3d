ghost use Rattle.std.specs.Prelude.{◌≡◌, ◌≢◌, ℕ, ◌+◌, ◌<◌, ◌^◌, [], length, IsTrue, ◌↔◌, IfErr, IfOk, OnOk, OnErr};
ghost use Rattle.h5w_model.specs.Numbers.{undefined};
ghost use Rattle.h5w_model.specs.Tables.{format_limits};
ghost use Rattle.h5w_space.specs.Space.{Space};
ghost use Rattle.h5w_cache.specs.Plans.{IfFull};
ghost use Rattle.h5w_array_laws.specs.ArrayStores.{IsArray, IsCreated};
ghost use Rattle.h5w_array_laws.specs.ArrayImages.{StartsArray};
ghost use Rattle.h5w_bt_index.specs.Held as trees;
ghost use Rattle.h5w_bt_index.specs.Index.{IsIndex, KeepsShares, no_tree};
ghost use Rattle.h5w_index.specs.Held.{view_of};
ghost use Rattle.h5w_index.specs.Views.{HasSlot, IsClean, IsReached, IsSound, TakesKey, a_tree, address_in, an_array};
ghost use Rattle.h5w_ea_index.specs.Steps.{found};
ghost use Rattle.h5w_index.specs.Steps.{ArrayHeld, ArraySet, HasNoPlace, IsBegun, IsDeep, IsHeld, IsPlan, IsSet, IsUnset, ListsOnce, TookSome, WasBegun, copy_pieces, in_place_pieces, moves_of};

use crate::flush::IndexFlush;
use h5w_bt_index::{InsertError, Key, TreeIndex};
use h5w_cache::{Plan, PlanError};
use h5w_ea_index::ArrayIndex;
use h5w_model::OutOfMemory;
use h5w_space::Places;
use std::alloc::Global;

/// The addresses of a dataset's chunks by their keys, in the blocks that a session holds.
#[derive(Drop)]
pub enum Index {
    /// An extensible array: it goes by the key's number in dimension 0.
    Array(ArrayIndex),
    /// A version 2 B-tree.
    Tree(TreeIndex),
}

/// A chunk of an array has this address from now on: the blocks on the way to it are there first.
fn insert_in_array(index: &mut ArrayIndex, i: u64, address: u64) -> Result<(), OutOfMemory>
    requires below { i < format_limits.array }
    requires defined { address ≢ undefined }
    ensures set { OnOk result (ArraySet i address index.old index.new) }
    ensures held { OnErr result (ArrayHeld i index.old index.new) }
    ensures array { IsArray index.new }
{
    index.hold(i)?;
    index.set(i, address);
    Ok(())
}

impl Index {
    /// An array without chunks, whose header stands at place `header` and whose index block at place `block`.
    pub fn new_array(alloc: Global, header: u64, block: u64) -> Result<Index, OutOfMemory>
        requires header_ends { header + 72 < 2 ^ 64 }
        requires block_ends { block + 298 < 2 ^ 64 }
        ensures sound { IfOk result (λ i. IsSound (view_of i)) }
        ensures created { IfOk result (λ i. (v : _) × (view_of i ≡ an_array v) × IsCreated header block v) }
    {
        Ok(Index::Array(ArrayIndex::new(alloc, header, block)?))
    }

    /// A tree without chunks, whose header stands at place `header`. It is clean: who makes the file writes the header there.
    pub fn new_tree(alloc: Global, header: u64) -> Index
        requires defined { header ≢ undefined }
        ensures sound { IsSound (view_of result) }
        ensures tree { view_of result ≡ a_tree header no_tree }
    {
        Index::Tree(TreeIndex::new(alloc, header))
    }

    /// The address of a chunk. None exactly where it has none.
    #[tactic(auto, using(h5w_bt_index::proofs::Laws::index_shaped))]
    pub fn get(&self, key: Key) -> Option<u64>
        requires sound { IsSound (view_of self.now) }
        requires key { TakesKey (view_of self.now) key }
        ensures { result ≡ found (address_in (view_of self.now) key) }
    {
        match self {
            Index::Array(index) => index.get(key.i),
            Index::Tree(index) => index.get(key),
        }
    }

    /// Whether a tree of depth 3 has no record of the key, and no room on the way to it: then [`Index::insert`] refuses it.
    #[tactic(auto, using(h5w_bt_index::proofs::Laws::index_shaped))]
    pub fn is_deep(&self, key: Key) -> bool
        requires { IsSound (view_of self.now) }
        ensures exact { IsTrue result ↔ IsDeep (view_of self.now) key }
    {
        match self {
            Index::Array(_) => false,
            Index::Tree(index) => index.is_deep(key),
        }
    }

    /// A chunk has this address from now on, and each other one that which it had. What is written for it is there and changed then.
    ///
    /// Deep comes exactly where a tree of depth 3 has no record of the key, and no room on the way to it. After a refusal each key gives what
    /// it gave, and all ranges stay; of an array blocks on the way to the chunk may be there that were not.
    #[tactic(auto, using(h5w_bt_index::proofs::Laws::index_shaped))]
    pub fn insert(&mut self, key: Key, address: u64) -> Result<(), InsertError>
        requires sound { IsSound (view_of self.old) }
        requires key { TakesKey (view_of self.old) key }
        requires defined { address ≢ undefined }
        ensures sound { IsSound (view_of self.new) }
        ensures set { OnOk result (IsSet key address (view_of self.old) (view_of self.new)) }
        ensures held { OnErr result (IsHeld key (view_of self.old) (view_of self.new)) }
        ensures deep { IfErr result (λ e. e ≡ InsertError.Deep → IsDeep (view_of self.old) key) }
        ensures refused { IsDeep (view_of self.old) key → result ≡ Err InsertError.Deep }
    {
        match self {
            Index::Array(index) => {
                insert_in_array(index, key.i, address)?;
                Ok(())
            }
            Index::Tree(index) => index.insert(key, address),
        }
    }

    /// A chunk, for which a place is held, has no address from now on, and each other one that which it had.
    ///
    /// It takes no memory, and cannot fail.
    #[tactic(auto, using(h5w_bt_index::proofs::Laws::index_shaped))]
    pub fn unset(&mut self, key: Key)
        requires sound { IsSound (view_of self.old) }
        requires slot { HasSlot (view_of self.old) key }
        ensures sound { IsSound (view_of self.new) }
        ensures unset { IsUnset key (view_of self.old) (view_of self.new) }
    {
        match self {
            Index::Array(index) => index.unset(key.i),
            Index::Tree(index) => index.unset(key),
        }
    }

    /// Whether readers look for the address of a chunk.
    #[tactic(auto, using(h5w_bt_index::proofs::Laws::index_shaped))]
    pub fn is_reached(&self, key: Key) -> bool
        ensures exact { IsTrue result ↔ IsReached (view_of self.now) key }
    {
        match self {
            Index::Array(index) => index.is_reached(key.i),
            Index::Tree(_) => true,
        }
    }

    /// Readers look from now on for a chunk that has an address. If they did before nothing changes. Else blocks on the way to it are
    /// changed, an array's header among them.
    ///
    /// It takes no memory, and cannot fail.
    #[tactic(auto, using(h5w_bt_index::proofs::Laws::index_shaped))]
    pub fn reach(&mut self, key: Key)
        requires sound { IsSound (view_of self.old) }
        requires key { TakesKey (view_of self.old) key }
        requires defined { address_in (view_of self.old) key ≢ undefined }
        ensures sound { IsSound (view_of self.new) }
        ensures held { IsHeld key (view_of self.old) (view_of self.new) }
        ensures reached { IsReached (view_of self.new) key }
        ensures kept { IsReached (view_of self.old) key → view_of self.new ≡ view_of self.old }
    {
        match self {
            Index::Array(index) => index.reach(key.i),
            Index::Tree(_) => {}
        }
    }

    /// Whether nothing changed since it was written. Then the plan writes nothing, and leaves the index and all places as they are.
    pub fn is_clean(&self) -> bool
        ensures clean { IsTrue result ↔ IsClean (view_of self.now) }
        ensures planned { IsTrue result → (s : Space) → IsPlan (view_of self.now) s [] [] [] (view_of self.now) s }
    {
        match self {
            Index::Array(index) => index.is_clean(),
            Index::Tree(index) => index.is_clean(),
        }
    }

    /// Begins the plan of all that changed: takes all memory that [`Index::finish`] needs, and settles the places. Copies take new ones, and
    /// those that their blocks had are retired, where they are live.
    ///
    /// The index does not change. After a refusal the places are of no use: some are taken.
    #[tactic(auto, using(h5w_bt_index::proofs::Laws::index_shaped))]
    pub fn begin(&self, places: &mut Places) -> Result<IndexFlush, PlanError>
        requires { IsSound (view_of self.now) }
        ensures begun { IfOk result (λ b. IsBegun (view_of self.now) places.old b places.new) }
        // the first block in turn that has no place
        ensures full { IfErr result (λ e. IfFull e (HasNoPlace (view_of self.now) places.old)) }
        // some blocks have their places then, and none is retired
        ensures left { OnErr result (TookSome (view_of self.now) places.old places.new) }
        // no block is listed twice
        ensures once { ListsOnce (view_of self.now) }
    {
        match self {
            Index::Array(index) => Ok(IndexFlush::Array(index.begin(places)?)),
            Index::Tree(index) => Ok(IndexFlush::Tree(index.begin(places)?)),
        }
    }

    /// The writes of all that changed, of a plan that was begun of this index: copies at new places, then the blocks in place where they
    /// stand. All is clean from then on.
    ///
    /// It cannot fail.
    #[tactic(auto, using(h5w_bt_index::proofs::Laws::index_shaped))]
    pub fn finish(&mut self, begun: IndexFlush) -> Plan
        requires sound { IsSound (view_of self.old) }
        requires begun { WasBegun (view_of self.old) begun }
        ensures sound { IsSound (view_of self.new) }
        // on whichever places it was begun
        ensures planned { (s t : Space) → IsBegun (view_of self.old) s begun t
            → IsPlan (view_of self.old) s result.moves.items result.copies.items result.in_place.items (view_of self.new) t }
        // as it was begun
        ensures moves { result.moves.items ≡ moves_of begun }
        ensures copies { length result.copies.items ≡ copy_pieces begun }
        ensures in_place { length result.in_place.items ≡ in_place_pieces begun }
    {
        match self {
            Index::Array(index) => match begun {
                IndexFlush::Array(begun) => index.finish(begun),
                IndexFlush::Tree(_) => unreachable!(),
            },
            Index::Tree(index) => match begun {
                IndexFlush::Tree(begun) => index.finish(begun),
                IndexFlush::Array(_) => unreachable!(),
            },
        }
    }
}
