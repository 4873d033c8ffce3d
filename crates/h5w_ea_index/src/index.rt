ghost use Rattle.std.specs.Prelude.{◌≡◌, ◌≢◌, ◌↔◌, ℕ, ◌+◌, ◌<◌, ◌≤◌, ◌^◌, IsTrue, IfErr, IfOk, OnErr, OnOk, length, max, ◌==◌, List, []};
ghost use Rattle.h5w_space.specs.Space.{Space};
ghost use Rattle.h5w_model.specs.Numbers.{undefined};
ghost use Rattle.h5w_model.specs.Tables.{format_limits};
ghost use Rattle.h5w_cache.specs.Plans.{HasNoRoom, IfFull, TookSome};
ghost use Rattle.h5w_cache.specs.Starts.{IsBegun, WasBegun, copy_pieces, in_place_pieces};
ghost use Rattle.h5w_cache.specs.Stores.{is_changed, times};
ghost use Rattle.h5w_array_laws.specs.Parts.{header, holder, index_block, number_of};
ghost use Rattle.h5w_array_laws.specs.ArrayStores.{IsArray, IsCreated, IsNumbered, bytes_at_part, header_place, map_of, place_at_part};
ghost use Rattle.h5w_array_laws.specs.ArrayImages.{StartsArray};
ghost use Rattle.h5w_array_laws.specs.ArrayPlans.{IsArrayPlan};
ghost use Rattle.h5w_looks.specs.Still.{IsStill};
ghost use Rattle.h5w_ea_index.specs.Opened.{IfFound, IfNowhere, IsDamaged, IsOpened, Loads, NamesNone};
ghost use Rattle.h5w_ea_index.specs.Ranges.{block_ranges};
ghost use Rattle.h5w_ea_index.specs.Reach.{IsReached, KeepsReach, max_index_set};
ghost use Rattle.h5w_ea_index.specs.Steps.{IsHeld, IsSet, IsSlotOrHeader, IsUnset, OnWay, Touches, found};

use crate::address;
use crate::create::create;
use crate::error::OpenArrayError;
use crate::header::max_index_set;
use crate::open::open;
use crate::plan::finish;
use crate::ranges::ranges;
use crate::slot::{HEADER, INDEX_BLOCK, bytes};
use h5w_bytes::UNDEFINED;
use h5w_cache::{BlockFlush, Cache, Plan, PlanError};
use h5w_image::PieceRead;
use h5w_model::OutOfMemory;
use h5w_space::{Extent, Places};
use std::alloc::Global;
use std::marker::Model;

/// The extensible array of a session: the address of each chunk by its number, up to 131,060 chunks, in the blocks that the session
/// holds ("The Extensible Array Index").
#[derive(Drop)]
pub struct ArrayIndex {
    alloc: Global,
    cache: Cache,
}

impl Model for ArrayIndex {
    ghost use Rattle.h5w_cache.specs.Stores.{Store};
    ghost use Rattle.h5w_array_laws.specs.ArrayStores.{IsArray};

    ghost Value = { Store };

    ghost view = { λ a. a.cache };

    ghost invariant = { λ a. IsArray a.cache };
}

impl ArrayIndex {
    /// An array without chunks, whose header stands at place `header` and whose index block at place `block`. Both are clean: who makes
    /// the file writes [`ArrayIndex::header`] and [`ArrayIndex::index_block`] to these places.
    pub fn new(alloc: Global, header: u64, block: u64) -> Result<ArrayIndex, OutOfMemory>
        requires header_ends { header + 72 < 2 ^ 64 }
        requires block_ends { block + 298 < 2 ^ 64 }
        ensures created { IfOk result (λ a. IsCreated header block a) }
        // it is a store of an array without chunks
        ensures starts { IfOk result (λ a. StartsArray a) }
    {
        let cache = create(alloc, header, block)?;
        Ok(ArrayIndex { alloc, cache })
    }

    /// The array whose header stands at place `header` of an image. None where the header names no index block: then it has no chunk.
    ///
    /// All blocks that stand are loaded, in the order in which a check visits them. The first that is refused is answered as Damaged, but
    /// for one that leads to no chunk from number `first` on: an empty block is kept for it. The image is only looked at. Header and index
    /// block stay where they are, and their numbers and addresses go on from what stands there.
    ///
    /// Failed: the image's count of faults rose.
    pub fn open<I: PieceRead>(
        alloc: Global,
        image: &mut I,
        header: u64,
        first: u64,
    ) -> Result<Option<ArrayIndex>, OpenArrayError>
        requires { first < format_limits.array }
        // it looked at the image alone; where the image failed its count of faults rose; what is damaged is refused as said
        ensures loads { Loads (I.view image.old) (I.view image.new) (λ img a f. IsDamaged img header first a f) result }
        ensures array { IfFound result (λ a. IsArray a) }
        ensures clean { IfFound result (λ a. a.changed ≡ []) }
        ensures at { IfFound result (λ a. header_place a ≡ header) }
        // its blocks are those of the image, but for those that were passed over
        ensures opened { IfFound result (λ a. (img : List ℕ) → IsStill (I.view image.old) img → IsOpened img first a) }
        ensures nowhere { IfNowhere result ((img : List ℕ) → IsStill (I.view image.old) img → NamesNone img header) }
    {
        match open(alloc, image, header, first)? {
            Some(cache) => Ok(Some(ArrayIndex { alloc, cache })),
            None => Ok(None),
        }
    }

    /// The bytes of its header.
    pub fn header(&self) -> &[u8]
        ensures { result.now ≡ bytes_at_part self.now header }
    {
        bytes(&self.cache, HEADER)
    }

    /// The bytes of its index block.
    pub fn index_block(&self) -> &[u8]
        ensures { result.now ≡ bytes_at_part self.now index_block }
    {
        bytes(&self.cache, INDEX_BLOCK)
    }

    /// Whether the place of its index block is 0, as of an array whose index block is not made yet.
    pub fn has_no_block(&self) -> bool
        ensures { result ≡ (place_at_part self.now index_block == 0) }
    {
        self.cache.place(INDEX_BLOCK) == 0
    }

    /// The ranges of its blocks on the way to chunk numbers from `first` on, of those that have places: the header's, the index block's,
    /// and then super block by super block that of the secondary block before those of its data blocks. Of an array that was opened they
    /// are what was read of the image, in that order, without the blocks that lead to lesser numbers alone.
    pub fn ranges(&self, first: u64) -> Result<Vec<Extent>, OutOfMemory>
        ensures exact { IfOk result (λ r. r.items ≡ block_ranges first self.now) }
    {
        ranges(self.alloc, &self.cache, first)
    }

    /// The address of chunk number `i`. None exactly where it has none.
    pub fn get(&self, i: u64) -> Option<u64>
        requires { i < format_limits.array }
        ensures exact { result ≡ found (map_of self.now i) }
        ensures array { IsArray self.now }
    {
        let address = address::address(&self.cache, i);
        if address == UNDEFINED {
            return None;
        }
        Some(address)
    }

    /// The blocks on the way to the slot of chunk number `i` are there, and changed from now on. Map and ranges stay, also where
    /// memory ran out, and so does the max index set.
    pub fn hold(&mut self, i: u64) -> Result<(), OutOfMemory>
        requires { i < format_limits.array }
        ensures held { IsHeld self.old self.new }
        ensures reach { max_index_set self.new ≡ max_index_set self.old }
        // Only the blocks on this way are others, or changed from now on.
        ensures way { Touches (OnWay (holder i)) self.old self.new }
        ensures changed { OnOk result (IsTrue (is_changed self.new (number_of (holder i)))) }
        ensures array { IsArray self.new }
        ensures numbered { IsNumbered self.old → IsNumbered self.new }
    {
        address::hold(self.alloc, &mut self.cache, i)
    }

    /// Chunk number `i`, which is held, has this address from now on, and each other one that which it had. The max index set is above
    /// it.
    pub fn set(&mut self, i: u64, address: u64)
        requires below { i < format_limits.array }
        requires held { IsTrue (is_changed self.old (number_of (holder i))) }
        requires defined { address ≢ undefined }
        ensures set { IsSet i address self.old self.new }
        ensures reach { max_index_set self.new ≡ max (max_index_set self.old) (i + 1) }
        ensures way { Touches (IsSlotOrHeader i) self.old self.new }
        ensures array { IsArray self.new }
        ensures numbered { IsNumbered self.old → IsNumbered self.new }
    {
        address::set(&mut self.cache, i, address);
    }

    /// Chunk number `i`, whose slot is held, has no address from now on, and each other one that which it had.
    pub fn unset(&mut self, i: u64)
        requires below { i < format_limits.array }
        requires held { IsTrue (is_changed self.old (number_of (holder i))) }
        ensures unset { IsUnset i self.old self.new }
        // the max index set stays above each chunk with an address that it was above
        ensures reach { KeepsReach self.old self.new }
        ensures way { Touches (IsSlotOrHeader i) self.old self.new }
        ensures array { IsArray self.new }
        ensures numbered { IsNumbered self.old → IsNumbered self.new }
    {
        address::unset(&mut self.cache, i);
    }

    /// Whether the header's max index set is above chunk number `i`: HDF5's library takes each chunk from that number on for one without
    /// an address.
    pub fn is_reached(&self, i: u64) -> bool
        ensures exact { IsTrue result ↔ IsReached i self.now }
    {
        i < max_index_set(&self.cache)
    }

    /// The max index set is above chunk number `i`, which has an address, from now on. If it was so before nothing changes. Else blocks on
    /// the way to the chunk are changed, the header among them; all addresses stay.
    ///
    /// So a writer that stopped between the two leaves an array: the index block names chunks that its header does not reach.
    pub fn reach(&mut self, i: u64)
        requires below { i < format_limits.array }
        requires defined { map_of self.old i ≢ undefined }
        ensures held { IsHeld self.old self.new }
        ensures reach { max_index_set self.new ≡ max (max_index_set self.old) (i + 1) }
        ensures kept { IsReached i self.old → self.new ≡ self.old }
        ensures way { Touches (OnWay (holder i)) self.old self.new }
        ensures array { IsArray self.new }
        ensures numbered { IsNumbered self.old → IsNumbered self.new }
    {
        address::reach_chunk(&mut self.cache, i);
    }

    /// Whether no block changed since it was written. Then the plan of the changed blocks writes nothing, and leaves the array and all
    /// places as they are.
    pub fn is_clean(&self) -> bool
        ensures clean { result ≡ (length self.now.changed == 0) }
        ensures planned { IsTrue result → (s : Space) → IsArrayPlan self.now s [] [] [] self.now s }
        ensures array { IsArray self.now }
    {
        self.cache.is_clean()
    }

    /// Begins the plan of all changed blocks: takes all memory that [`ArrayIndex::finish`] needs, and settles the places. Data blocks and
    /// secondary blocks take new ones, and those that they had are retired, where they are live.
    ///
    /// The array does not change. After a refusal the places are of no use: some are taken.
    pub fn begin(&self, places: &mut Places) -> Result<BlockFlush, PlanError>
        ensures begun { IfOk result (λ b. IsBegun self.now.blocks self.now.places self.now.changed places.old b places.new) }
        // the first block in turn that has no room
        ensures full { IfErr result (λ e. IfFull e (HasNoRoom self.now.blocks self.now.places self.now.changed places.old)) }
        // some blocks have their places then, and none is retired
        ensures left { OnErr result (TookSome self.now.blocks self.now.places places.old places.new) }
        // no block is listed twice
        ensures once { (n : ℕ) → times n self.now.changed ≤ 1 }
        ensures array { IsArray self.now }
    {
        self.cache.begin(places)
    }

    /// The writes of all changed blocks, those in place last, of a plan that was begun of this array: data blocks and secondary blocks at
    /// new places, the index block and the header where they stand. All are clean from then on.
    ///
    /// It cannot fail.
    pub fn finish(&mut self, begun: BlockFlush) -> Plan
        requires { WasBegun self.old.blocks self.old.places self.old.changed begun }
        // on whichever places it was begun
        ensures planned { (s t : Space) → IsBegun self.old.blocks self.old.places self.old.changed s begun t
            → IsArrayPlan self.old s result.moves.items result.copies.items result.in_place.items self.new t }
        ensures array { IsArray self.new }
        ensures numbered { IsNumbered self.old → IsNumbered self.new }
        // as it was begun
        ensures moves { result.moves.items ≡ begun.moves }
        ensures copies { length result.copies.items ≡ copy_pieces begun }
        ensures in_place { length result.in_place.items ≡ in_place_pieces begun }
    {
        finish(&mut self.cache, begun)
    }

    /// A copy.
    pub fn copy(&self) -> Result<ArrayIndex, OutOfMemory>
        ensures { IfOk result (λ a. a ≡ self.now) }
    {
        Ok(ArrayIndex {
            alloc: self.alloc,
            cache: self.cache.copy()?,
        })
    }
}
