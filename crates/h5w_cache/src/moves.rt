//! The places that changed blocks get, and those that they leave.

ghost use Rattle.std.specs.Prelude.{◌≡◌, ℕ, ◌+◌, ◌-◌, ◌<◌, ◌≤◌, ◌^◌, ◌++◌, ◌&&◌, ◌==◌, not, false, length, take, drop, map, IfOk, IfErr, OnOk, OnErr, [], IsSome, IsSomeAnd, slice_index_or, vec_len, vec_capacity};
ghost use Rattle.std.specs.List.{All};
ghost use Rattle.std.specs.List.Sorted.{IsNonDecreasingBy, IsPermutation};
ghost use Rattle.h5w_model.specs.Numbers.{undefined};
ghost use Rattle.h5w_space.specs.Space.{IsLive, extent};
ghost use Rattle.h5w_cache.specs.Stores.{place_in};
ghost use Rattle.h5w_cache.specs.Plans.{AreMoves, AreRetired, IsFull, IsMove, IsRefused, IsSplit, Placed, Retires, Took, TookSome, block_in, numbers, stays, turn_in};

use crate::block::{Block, copied, place_at};
use h5w_bytes::UNDEFINED;
use h5w_model::OutOfMemory;
use h5w_space::{Full, Places};

/// A block that is written, with the place that it had and the place that it has now.
#[derive(Clone, Copy)]
pub struct Move {
    pub number: u32,
    /// UNDEFINED where it had none.
    pub old: u64,
    pub new: u64,
    /// How many bytes it has.
    pub len: u64,
    pub in_place: bool,
}

/// The turn of the block under a number.
fn turn_of(blocks: &[Option<Block>], number: u32) -> u64
    ensures { result ≡ turn_in blocks.now number }
{
    match blocks.get(number as usize) {
        Some(Some(block)) => block.turn(),
        _ => 0,
    }
}

/// The numbers of changed blocks by rising turn.
pub fn in_turn(blocks: &[Option<Block>], changed: &Vec<u32>) -> Result<Vec<u32>, OutOfMemory>
    ensures order { IfOk result (λ v. IsPermutation changed.now.items v.items) }
    ensures turns { IfOk result (λ v. IsNonDecreasingBy (turn_in blocks.now) v.items) }
{
    let mut order = copied(changed)?;
    order.sort_by_key(|number| turn_of(blocks, *number))?;
    Ok(order)
}

/// A new place of `len` bytes.
pub fn take_place(len: u64, places: &mut Places) -> Result<u64, Full>
    ensures ok { IfOk result (λ new. Took places.old places.new (extent new len)) }
    ensures refused { IfErr result (λ e. IsRefused places.old len e) }
    ensures ends { IfOk result (λ new. new + len < 2 ^ 64) }
    ensures kept { OnErr result (places.new ≡ places.old) }
{
    let new = places.take(len)?;
    let end = places.end();
    prove!(new + len <= end);
    Ok(new)
}

/// The place of a block of `len` bytes: a block that stays keeps its place, another one takes a place.
fn place_for(stays: bool, old: u64, len: u64, places: &mut Places) -> Result<u64, Full>
    ensures ok { IfOk result (λ new. Placed stays old len places.old places.new new) }
    ensures refused { IfErr result (λ e. (stays ≡ false) × IsRefused places.old len e) }
    ensures ends { IfOk result (λ new. stays ≡ false → new + len < 2 ^ 64) }
    ensures kept { OnErr result (places.new ≡ places.old) }
{
    if stays {
        Ok(old)
    } else {
        take_place(len, places)
    }
}

/// The move of the block under a number.
fn move_of(
    blocks: &[Option<Block>],
    stood: &[u64],
    number: u32,
    places: &mut Places,
) -> Result<Move, Full>
    requires { IsSome (block_in blocks.now number) }
    ensures number { IfOk result (λ m. m.number ≡ number) }
    ensures ok { IfOk result (λ m. IsMove blocks.now stood.now places.old m places.new) }
    ensures refused { IfErr result (λ e. IsSomeAnd (block_in blocks.now number) (λ b.
        (stays b.in_place (place_in stood.now number) ≡ false) × IsRefused places.old (length b.bytes) e)) }
    ensures kept { OnErr result (places.new ≡ places.old) }
{
    let old = place_at(stood, number);
    let block = blocks[number as usize].as_ref().unwrap();
    let (len, in_place) = (block.bytes().len() as u64, block.in_place());
    let new = place_for(in_place && old != UNDEFINED, old, len, places)?;
    Ok(Move {
        number,
        old,
        new,
        len,
        in_place,
    })
}

/// The moves of blocks in this order, whose places are taken.
pub fn move_all(
    blocks: &[Option<Block>],
    stood: &[u64],
    order: &[u32],
    moves: &mut Vec<Move>,
    places: &mut Places,
) -> Result<(), Full>
    requires kept { All (λ n. IsSome (block_in blocks.now n)) order.now }
    requires empty { moves.old.items ≡ [] }
    requires room { length order.now ≤ vec_capacity moves.old }
    ensures numbers { OnOk result (numbers moves.new.items ≡ order.now) }
    ensures moves { OnOk result (AreMoves blocks.now stood.now places.old moves.new.items places.new) }
    ensures full { IfErr result (λ e. IsFull blocks.now stood.now order.now places.old e) }
    ensures left { OnErr result (TookSome blocks.now stood.now places.old places.new) }
{
    for number in order {
        let block_move = move_of(blocks, stood, *number, places)?;
        moves.push_reserved(block_move);
    }
    Ok(())
}

/// Retires the place that a block left, where it is live.
fn retire(block_move: &Move, places: &mut Places)
    requires { 1 ≤ places.old.spare }
    ensures { Retires places.old block_move.now places.new }
{
    let Move { old, new, len, .. } = *block_move;
    if old != UNDEFINED && old != new && places.live(old, len) {
        places.retire(old, len);
    }
}

/// Retires the places that blocks left, where they are live.
pub fn retire_all(moves: &[Move], places: &mut Places)
    requires { length moves.now ≤ places.old.spare }
    ensures { AreRetired places.old moves.now places.new }
{
    for block_move in moves {
        retire(block_move, places);
    }
}

/// How many blocks stand before the first in place.
pub fn copies(moves: &[Move]) -> usize
    ensures { IsSplit moves.now result }
{
    for (i, block_move) in moves.iter().enumerate() {
        if block_move.in_place {
            return i;
        }
    }
    moves.len()
}
