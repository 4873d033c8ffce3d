//! Blocks at their new places.

ghost use Rattle.std.specs.Prelude.{◌≡◌, ℕ, ◌<◌, length, slice_index_or};
ghost use Rattle.std.specs.Option.{option_map};
ghost use Rattle.std.specs.List.{All};
ghost use Rattle.h5w_model.specs.Numbers.{undefined};
ghost use Rattle.h5w_cache.specs.Blocks.{spelled};
ghost use Rattle.h5w_cache.specs.Plans.{bytes_in, bytes_of, cleaned, moved, respelled};
ghost use Rattle.h5w_cache.specs.declared.moves.Move.{Move};

use crate::block::Block;
use crate::moves::Move;

/// Each block stands at its new place.
pub fn settle(places: &mut [u64], moves: &[Move])
    requires { All (λ (m : Move). m.number < length places.old) moves.now }
    ensures { places.new ≡ moved moves.now places.old }
{
    for block_move in moves {
        places[block_move.number as usize] = block_move.new;
    }
}

/// Each block is clean.
pub fn clean(marks: &mut [bool], moves: &[Move])
    requires { All (λ (m : Move). m.number < length marks.old) moves.now }
    ensures { marks.new ≡ cleaned moves.now marks.old }
{
    for block_move in moves {
        marks[block_move.number as usize] = false;
    }
}

/// A block names the places of those that it links to.
fn spell(block: &mut Option<Block>, places: &[u64])
    ensures spelled { block.new ≡ option_map (spelled (λ n. slice_index_or places.now n undefined)) block.old }
    ensures length { length (bytes_of block.new) ≡ length (bytes_of block.old) }
{
    if let Some(block) = block {
        block.spell(places);
    }
}

/// Each block names the places of those that it links to.
pub fn spell_all(blocks: &mut [Option<Block>], places: &[u64], moves: &[Move])
    requires { All (λ (m : Move). m.number < length blocks.old) moves.now }
    ensures spelled { blocks.new ≡ respelled (λ n. slice_index_or places.now n undefined) moves.now blocks.old }
    ensures lengths { (n : ℕ) → length (bytes_in blocks.new n) ≡ length (bytes_in blocks.old n) }
{
    for block_move in moves {
        spell(&mut blocks[block_move.number as usize], places);
    }
}
