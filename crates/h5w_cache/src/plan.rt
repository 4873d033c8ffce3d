//! A plan: the writes of all changed blocks.

ghost use Rattle.std.specs.Prelude.{◌≡◌, ℕ, ◌+◌, ◌<◌, ◌≤◌, ◌++◌, [], length, take, drop, IfOk, IfErr, IsSome, OnErr, vec_len, vec_capacity};
ghost use Rattle.std.specs.List.{All, sum_by};
ghost use Rattle.h5w_cache.specs.Plans.{AreTaken, HasNoRoom, IfFull, IsFull, IsSplit, IsWritten, TookSome, block_in, bytes_in, cleaned, moved, numbers, piece_count, respelled, writes_of};
ghost use Rattle.h5w_cache.specs.Starts.{HasRooms, IsBegun, copy_pieces, in_place_pieces};
ghost use Rattle.h5w_cache.specs.Stores.{place_in};
ghost use Rattle.h5w_cache.specs.declared.moves.Move.{Move};

use crate::block::Block;
use crate::moves::{Move, copies, in_turn, move_all, retire_all};
use crate::settle::{clean, settle, spell_all};
use crate::write::{put_all, room_for};
use h5w_model::{OutOfMemory, Write};
use h5w_space::{Full, Places};
use std::alloc::AllocError;
use std::marker::Model;
use thiserror::Error;

/// The writes of all changed blocks, in their order.
#[derive(Drop)]
pub struct Plan {
    /// The blocks that are written, with their places.
    pub moves: Vec<Move>,
    /// The writes of the blocks before the first in place.
    pub copies: Vec<Write>,
    /// The writes from the first block in place on.
    pub in_place: Vec<Write>,
}

/// Why there is no plan.
#[derive(Clone, Copy, Debug, PartialEq, Eq, Error)]
pub enum PlanError {
    /// The file has no room for a block.
    #[error("{0}")]
    Full(Full),
    #[error("out of memory")]
    OutOfMemory,
}

impl From<OutOfMemory> for PlanError {
    ghost use Rattle.h5w_cache.specs.declared.plan.PlanError.TheVariants.{OutOfMemory as no_memory};
    ghost use Rattle.std.specs.Prelude.{◌≡◌};

    ghost from_gives = { λ _ r. r ≡ no_memory };

    fn from(_e: OutOfMemory) -> PlanError {
        PlanError::OutOfMemory
    }
}

impl From<AllocError> for PlanError {
    ghost use Rattle.h5w_cache.specs.declared.plan.PlanError.TheVariants.{OutOfMemory as no_memory};
    ghost use Rattle.std.specs.Prelude.{◌≡◌};

    ghost from_gives = { λ _ r. r ≡ no_memory };

    fn from(_e: AllocError) -> PlanError {
        PlanError::OutOfMemory
    }
}

/// A flush of blocks that is begun: the moves of its plan, with room for their writes. It has its places, and no block has changed yet.
#[derive(Drop)]
pub struct BlockFlush {
    plan: Plan,
    /// How many blocks stand before the first in place.
    split: usize,
    copies: usize,
    in_place: usize,
}

impl Model for BlockFlush {
    ghost use Rattle.h5w_cache.specs.Starts.{HasRooms, Start};

    ghost Value = { Start };

    ghost view = { λ b. record {
      moves = b.plan.moves.items;
      split = b.split;
    } };

    ghost invariant = { λ b. HasRooms b.plan b.split b.copies b.in_place };
}

impl BlockFlush {
    /// How many pieces the writes of the blocks before the first in place will be.
    pub fn copies(&self) -> usize
        ensures { result ≡ copy_pieces self.now }
    {
        self.copies
    }

    /// How many pieces the writes of the blocks from the first in place on will be.
    pub fn in_place(&self) -> usize
        ensures { result ≡ in_place_pieces self.now }
    {
        self.in_place
    }

    /// The blocks that will be written, with the places that they will have.
    fn moves(&self) -> &[Move]
        ensures { result.now ≡ self.now.moves }
    {
        &self.plan.moves
    }
}

/// The plan without writes, and how many blocks stand before the first in place.
pub fn parts(begun: BlockFlush) -> (Plan, usize)
    ensures moves { result.0.moves.items ≡ begun.moves }
    ensures split { result.1 ≡ begun.split }
    ensures rooms { HasRooms result.0 result.1 (copy_pieces begun) (in_place_pieces begun) }
{
    let BlockFlush { plan, split, .. } = begun;
    (plan, split)
}

/// The moves of blocks in this order, whose places are taken; there is room to retire those that they leave.
fn moves_of(
    blocks: &[Option<Block>],
    stood: &[u64],
    order: &Vec<u32>,
    places: &mut Places,
) -> Result<Vec<Move>, PlanError>
    requires kept { All (λ n. IsSome (block_in blocks.now n)) order.now.items }
    ensures numbers { IfOk result (λ v. numbers v.items ≡ order.now.items) }
    ensures moves { IfOk result (λ v. AreTaken blocks.now stood.now places.old v.items places.new) }
    ensures full { IfErr result (λ e. IfFull e (IsFull blocks.now stood.now order.now.items places.old)) }
    ensures left { OnErr result (TookSome blocks.now stood.now places.old places.new) }
{
    let mut moves = Vec::with_capacity(*order.allocator(), order.len())?;
    move_all(blocks, stood, order, &mut moves, places).map_err(PlanError::Full)?;
    places.reserve(moves.len() as u64)?;
    Ok(moves)
}

/// How many pieces the blocks before the first in place have, and from it on, each with room for their writes.
fn rooms(
    moves: &Vec<Move>,
    split: usize,
) -> Result<((usize, Vec<Write>), (usize, Vec<Write>)), OutOfMemory>
    requires { split ≤ vec_len moves.now }
    ensures copies { IfOk result (λ r. (r.0.0 ≡ sum_by piece_count (take split moves.now.items)) × (r.0.1.items ≡ []) × (r.0.0 ≤ vec_capacity r.0.1)) }
    ensures in_place { IfOk result (λ r. (r.1.0 ≡ sum_by piece_count (drop split moves.now.items)) × (r.1.1.items ≡ []) × (r.1.0 ≤ vec_capacity r.1.1)) }
{
    let alloc = *moves.allocator();
    let (before, from) = moves.split_at(split);
    let copies = room_for(alloc, before)?;
    let in_place = room_for(alloc, from)?;
    Ok((copies, in_place))
}

/// The plan of these moves, begun.
fn with_rooms(moves: Vec<Move>) -> Result<BlockFlush, OutOfMemory>
    ensures moves { IfOk result (λ b. b.moves ≡ moves.items) }
    ensures split { IfOk result (λ b. IsSplit moves.items b.split) }
{
    let split = copies(&moves);
    let ((copies, copy_writes), (in_place, in_place_writes)) = rooms(&moves, split)?;
    let plan = Plan {
        moves,
        copies: copy_writes,
        in_place: in_place_writes,
    };
    Ok(BlockFlush {
        plan,
        split,
        copies,
        in_place,
    })
}

/// All that a plan of the changed blocks needs, on these places.
pub fn begin(
    blocks: &[Option<Block>],
    stood: &[u64],
    changed: &Vec<u32>,
    places: &mut Places,
) -> Result<BlockFlush, PlanError>
    requires kept { All (λ n. IsSome (block_in blocks.now n)) changed.now.items }
    ensures begun { IfOk result (λ b. IsBegun blocks.now stood.now changed.now.items places.old b places.new) }
    ensures full { IfErr result (λ e. IfFull e (HasNoRoom blocks.now stood.now changed.now.items places.old)) }
    ensures left { OnErr result (TookSome blocks.now stood.now places.old places.new) }
{
    let order = in_turn(blocks, changed)?;
    let moves = moves_of(blocks, stood, &order, places)?;
    let begun = with_rooms(moves)?;
    retire_all(begun.moves(), places);
    Ok(begun)
}

/// Blocks at their new places name each other's places, and are clean.
pub fn carry_out(
    blocks: &mut Vec<Option<Block>>,
    places: &mut Vec<u64>,
    marks: &mut Vec<bool>,
    moves: &[Move],
)
    requires inside { All (λ (m : Move). m.number < length blocks.old.items) moves.now }
    requires each_place { length places.old.items ≡ length blocks.old.items }
    requires each_mark { length marks.old.items ≡ length blocks.old.items }
    ensures places { places.new.items ≡ moved moves.now places.old.items }
    ensures marks { marks.new.items ≡ cleaned moves.now marks.old.items }
    ensures blocks { blocks.new.items ≡ respelled (place_in (moved moves.now places.old.items)) moves.now blocks.old.items }
    ensures lengths { (n : ℕ) → length (bytes_in blocks.new.items n) ≡ length (bytes_in blocks.old.items n) }
{
    settle(places, moves);
    clean(marks, moves);
    spell_all(blocks, places, moves);
}

impl Plan {
    /// Adds the writes of its blocks, the first `split` of which are copies.
    pub fn write(&mut self, blocks: &[Option<Block>], split: usize)
        requires split { split ≤ vec_len self.old.moves }
        requires written { All (IsWritten blocks.now) self.old.moves.items }
        requires room_copies { vec_len self.old.copies + sum_by piece_count (take split self.old.moves.items) ≤ vec_capacity self.old.copies }
        requires room_in_place { vec_len self.old.in_place + sum_by piece_count (drop split self.old.moves.items) ≤ vec_capacity self.old.in_place }
        ensures moves { self.new.moves ≡ self.old.moves }
        ensures copies { self.new.copies.items ≡ self.old.copies.items ++ writes_of blocks.now (take split self.old.moves.items) }
        ensures in_place { self.new.in_place.items ≡ self.old.in_place.items ++ writes_of blocks.now (drop split self.old.moves.items) }
        ensures len_copies { vec_len self.new.copies ≡ vec_len self.old.copies + sum_by piece_count (take split self.old.moves.items) }
        ensures len_in_place { vec_len self.new.in_place ≡ vec_len self.old.in_place + sum_by piece_count (drop split self.old.moves.items) }
    {
        let (before, from) = self.moves.split_at(split);
        put_all(blocks, before, &mut self.copies);
        put_all(blocks, from, &mut self.in_place);
    }
}
