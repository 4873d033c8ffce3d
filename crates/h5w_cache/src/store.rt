ghost use Rattle.std.specs.Prelude.{◌≡◌, ℕ, ◌+◌, ◌-◌, ◌<◌, ◌≤◌, ◌++◌, ◌==◌, length, replicate, true, false, IfErr, IfOk, OnOk, OnErr, IfNone, IfSome, IsSome, IsTrue, slice_index_or, vec_len, vec_capacity};
ghost use Rattle.std.specs.Option.{option_copied, option_map};
ghost use Rattle.h5w_space.specs.Space.{Space};
ghost use Rattle.h5w_cache.specs.Blocks.{numbered, with_number};
ghost use Rattle.h5w_cache.specs.Plans.{HasNoRoom, IfFull, IsPlan, TookSome};
ghost use Rattle.h5w_cache.specs.Starts.{IsBegun, WasBegun, copy_pieces, in_place_pieces};
ghost use Rattle.h5w_cache.specs.StoreLaws.{KeepsStore};
ghost use Rattle.h5w_cache.specs.Stores.{FitsAddresses, block_of, changed_to, grown, is_changed, kept_under, marked, no_blocks, place_of, times};

use crate::block::{Block, copied, place_at};
use crate::plan::{BlockFlush, Plan, PlanError, begin, carry_out, parts};
use h5w_bytes::UNDEFINED;
use h5w_model::OutOfMemory;
use h5w_space::Places;
use std::alloc::{AllocError, Global};
use std::marker::Model;

/// The blocks that a session holds, under numbers that their owner chooses, with their places, and which of them
/// changed since they were written.
#[derive(Drop)]
pub struct Cache {
    blocks: Vec<Option<Block>>,
    places: Vec<u64>,
    marks: Vec<bool>,
    changed: Vec<u32>,
}

impl Model for Cache {
    ghost use Rattle.std.specs.Prelude.{vec_capacity};
    ghost use Rattle.h5w_cache.specs.Stores.{IsStore, Store};

    ghost Value = { Store };

    ghost view = { λ c. record {
      blocks = c.blocks.items;
      places = c.places.items;
      changed = c.changed.items;
    } };

    ghost invariant = { λ c. IsStore c.blocks.items c.places.items c.marks.items c.changed.items (vec_capacity c.changed) };
}

/// Makes room for so many more numbers, of `numbers` in all.
fn make_room(
    blocks: &mut Vec<Option<Block>>,
    places: &mut Vec<u64>,
    marks: &mut Vec<bool>,
    more: usize,
) -> Result<(), AllocError>
    ensures blocks { blocks.new.items ≡ blocks.old.items }
    ensures places { places.new.items ≡ places.old.items }
    ensures marks { marks.new.items ≡ marks.old.items }
    ensures room_blocks { OnOk result (vec_len blocks.old + more ≤ vec_capacity blocks.new) }
    ensures room_places { OnOk result (vec_len places.old + more ≤ vec_capacity places.new) }
    ensures room_marks { OnOk result (vec_len marks.old + more ≤ vec_capacity marks.new) }
{
    blocks.reserve(more)?;
    places.reserve(more)?;
    marks.reserve(more)
}

/// So many more numbers, without blocks.
fn grow_blocks(blocks: &mut Vec<Option<Block>>, more: usize)
    requires { vec_len blocks.old + more ≤ vec_capacity blocks.old }
    ensures { blocks.new.items ≡ blocks.old.items ++ replicate more None }
{
    for _step in 0..more {
        blocks.push_reserved(None);
    }
}

/// So many more elements.
fn grow<T: Copy + Drop>(items: &mut Vec<T>, more: usize, value: T)
    requires { vec_len items.old + more ≤ vec_capacity items.old }
    ensures { items.new.items ≡ items.old.items ++ replicate more value }
{
    let len = items.len() + more;
    items.resize(len, value).unwrap();
}

/// The number `v` stands in the eight bytes from `offset` on of the block, where there is one.
fn set_number(block: &mut Option<Block>, offset: usize, v: u64)
    requires { IfSome block.old (λ b. offset + 8 ≤ length b.bytes) }
    ensures set { block.new ≡ option_map (numbered offset v) block.old }
    ensures length { IfSome block.old (λ b. length (with_number offset v b.bytes) ≡ length b.bytes) }
{
    if let Some(block) = block {
        block.set_number(offset, v);
    }
}

/// A copy of the block, where there is one.
fn copy_block(block: &Option<Block>) -> Result<Option<Block>, OutOfMemory>
    ensures { IfOk result (λ b. b ≡ block.now) }
{
    match block {
        Some(block) => Ok(Some(block.copy()?)),
        None => Ok(None),
    }
}

/// Copies of blocks.
fn copy_blocks(blocks: &Vec<Option<Block>>) -> Result<Vec<Option<Block>>, OutOfMemory>
    ensures { IfOk result (λ v. v.items ≡ blocks.now.items) }
{
    let mut copy = Vec::with_capacity(*blocks.allocator(), blocks.len())?;
    for block in blocks {
        copy.push(copy_block(block)?)?;
    }
    Ok(copy)
}

impl Cache {
    /// A store of no blocks. Takes no memory.
    pub fn new(alloc: Global) -> Cache
        ensures { result ≡ no_blocks }
    {
        Cache {
            blocks: Vec::new(alloc),
            places: Vec::new(alloc),
            marks: Vec::new(alloc),
            changed: Vec::new(alloc),
        }
    }

    /// Makes room for blocks under the numbers below `numbers`.
    pub fn reserve(&mut self, numbers: usize) -> Result<(), OutOfMemory>
        ensures grown { OnOk result (self.new ≡ grown (numbers - length self.old.blocks) self.old) }
        ensures kept { OnErr result (self.new ≡ self.old) }
    {
        let more = numbers.saturating_sub(self.blocks.len());
        self.changed.reserve(self.blocks.len().max(numbers))?;
        make_room(&mut self.blocks, &mut self.places, &mut self.marks, more)?;
        grow_blocks(&mut self.blocks, more);
        grow(&mut self.places, more, UNDEFINED);
        grow(&mut self.marks, more, false);
        Ok(())
    }

    /// The block under a number. None exactly where none is kept under it.
    pub fn get(&self, number: u32) -> Option<&Block>
        ensures exact { option_copied result ≡ block_of self.now number }
        // what is not kept is clean
        ensures clean { IfNone result (is_changed self.now number ≡ false) }
    {
        self.blocks.get(number as usize)?.as_ref()
    }

    /// The place of the block under a number, undefined while it has none.
    pub fn place(&self, number: u32) -> u64
        ensures { result ≡ place_of self.now number }
    {
        place_at(&self.places, number)
    }

    /// Whether no block changed since it was written.
    pub fn is_clean(&self) -> bool
        ensures { result ≡ (length self.now.changed == 0) }
    {
        self.changed.is_empty()
    }

    /// Keeps a block under a number, with its place, or UNDEFINED while it has none. It is clean.
    ///
    /// Takes no memory.
    pub fn put(&mut self, number: u32, block: Block, place: u64)
        requires inside { number < length self.old.blocks }
        requires clean { is_changed self.old number ≡ false }
        requires fits { FitsAddresses place block }
        ensures { self.new ≡ kept_under number block place self.old }
    {
        self.blocks[number as usize] = Some(block);
        self.places[number as usize] = place;
    }

    /// The block under a number is changed from now on.
    ///
    /// Takes no memory.
    pub fn mark(&mut self, number: u32)
        requires { IsSome (block_of self.old number) }
        ensures { self.new ≡ marked number self.old }
    {
        if !self.marks[number as usize] {
            self.marks[number as usize] = true;
            self.changed.push_reserved(number);
        }
    }

    /// The number `v` stands in the eight bytes from `offset` on of the block under a number.
    pub fn set_number(&mut self, number: u32, offset: usize, v: u64)
        requires changed { IsTrue (is_changed self.old number) }
        requires inside { IfSome (block_of self.old number) (λ b. offset + 8 ≤ length b.bytes) }
        ensures { IfSome (block_of self.old number) (λ b. self.new ≡ changed_to number (numbered offset v b) self.old) }
    {
        set_number(&mut self.blocks[number as usize], offset, v);
    }

    /// This block stands under the number of a changed one, of the same length, which is written as it was: in place or as a copy.
    pub fn fill(&mut self, number: u32, block: Block)
        requires changed { IsTrue (is_changed self.old number) }
        requires same { IfSome (block_of self.old number) (λ b. length block.bytes ≡ length b.bytes) }
        requires in_place { IfSome (block_of self.old number) (λ b. block.in_place ≡ b.in_place) }
        ensures { self.new ≡ changed_to number block self.old }
    {
        self.blocks[number as usize] = Some(block);
    }

    /// Begins the plan of all changed blocks: takes all memory that [`Cache::finish`] needs, and settles the places. A block in place stays
    /// at the place that it has; each other one takes a place, and the place that it had is retired, where it is live.
    ///
    /// The store does not change. After a refusal the places are of no use: some are taken.
    pub fn begin(&self, places: &mut Places) -> Result<BlockFlush, PlanError>
        ensures begun { IfOk result (λ b. IsBegun self.now.blocks self.now.places self.now.changed places.old b places.new) }
        // the first block in turn that has no room
        ensures full { IfErr result (λ e. IfFull e (HasNoRoom self.now.blocks self.now.places self.now.changed places.old)) }
        // some blocks have their places then, and none is retired
        ensures left { OnErr result (TookSome self.now.blocks self.now.places places.old places.new) }
        // no block is listed twice
        ensures once { (n : ℕ) → times n self.now.changed ≤ 1 }
    {
        begin(&self.blocks, &self.places, &self.changed, places)
    }

    /// The writes of all changed blocks, by rising turn, of a plan that was begun of this store; they are clean from then on, each at the
    /// place that the plan has for it.
    ///
    /// It cannot fail.
    pub fn finish(&mut self, begun: BlockFlush) -> Plan
        requires { WasBegun self.old.blocks self.old.places self.old.changed begun }
        // on whichever places it was begun
        ensures planned { (s t : Space) → IsBegun self.old.blocks self.old.places self.old.changed s begun t
            → IsPlan self.old s result.moves.items result.copies.items result.in_place.items self.new t }
        ensures keeps { (s t : Space) → IsBegun self.old.blocks self.old.places self.old.changed s begun t
            → KeepsStore self.old s result.moves.items (result.copies.items ++ result.in_place.items) self.new t }
        // as it was begun
        ensures moves { result.moves.items ≡ begun.moves }
        ensures copies { length result.copies.items ≡ copy_pieces begun }
        ensures in_place { length result.in_place.items ≡ in_place_pieces begun }
    {
        let (mut plan, split) = parts(begun);
        carry_out(
            &mut self.blocks,
            &mut self.places,
            &mut self.marks,
            &plan.moves,
        );
        self.changed.clear();
        plan.write(&self.blocks, split);
        plan
    }

    /// The writes of all changed blocks, by rising turn; they are clean from then on. A block in place stays at the
    /// place that it has; each other one takes a place, and the place that it had is retired, where it is live.
    ///
    /// A refused plan changes nothing.
    pub fn plan(&mut self, places: &mut Places) -> Result<Plan, PlanError>
        ensures planned { IfOk result (λ p. IsPlan self.old places.old p.moves.items p.copies.items p.in_place.items self.new places.new) }
        ensures keeps { IfOk result (λ p. KeepsStore self.old places.old p.moves.items (p.copies.items ++ p.in_place.items) self.new places.new) }
        // the first block in turn that has no room
        ensures full { IfErr result (λ e. IfFull e (HasNoRoom self.old.blocks self.old.places self.old.changed places.old)) }
        ensures kept { OnErr result (self.new ≡ self.old) }
        ensures places { OnErr result (places.new ≡ places.old) }
    {
        let mut next = places.copy()?;
        let begun = self.begin(&mut next)?;
        *places = next;
        Ok(self.finish(begun))
    }

    /// A copy, with as much room.
    pub fn copy(&self) -> Result<Cache, OutOfMemory>
        ensures { IfOk result (λ c. c ≡ self.now) }
    {
        let mut changed = Vec::with_capacity(*self.changed.allocator(), self.changed.capacity())?;
        changed.extend_from_slice(&self.changed)?;
        Ok(Cache {
            blocks: copy_blocks(&self.blocks)?,
            places: copied(&self.places)?,
            marks: copied(&self.marks)?,
            changed,
        })
    }
}
