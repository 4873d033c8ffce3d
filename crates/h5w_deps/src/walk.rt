//! The walk from a block up to all that wait for it.
ghost use Rattle.std.specs.Prelude.{◌≡◌, ◌↔◌, ◌<◌, ◌^◌, IsTrue, IfOk, OnOk};
ghost use Rattle.h5w_deps.specs.Edges.{Reaches};
ghost use Rattle.h5w_deps.specs.Walk.{Follows, noted};

use crate::Edge;
use std::alloc::AllocError;

/// Puts the block behind the list, if it is not there.
fn note(blocks: &mut Vec<u32>, block: u32) -> Result<(), AllocError>
    ensures { OnOk result (blocks.new.items ≡ noted blocks.old.items block) }
{
    if !blocks.contains(&block) {
        blocks.push(block)?;
    }
    Ok(())
}

/// Notes each parent of the block.
fn follow(edges: &[Edge], block: u32, reached: &mut Vec<u32>) -> Result<(), AllocError>
    ensures { OnOk result (Follows edges.now block reached.old.items reached.new.items) }
{
    for edge in edges {
        if edge.child == block {
            note(reached, edge.parent)?;
        }
    }
    Ok(())
}

/// Whether one comes from block `from` up to block `to`. Each block is visited once.
pub fn reaches(edges: &Vec<Edge>, from: u32, to: u32) -> Result<bool, AllocError>
    ensures { IfOk result (λ found. IsTrue found ↔ Reaches edges.now.items from to) }
{
    let mut reached = Vec::new(*edges.allocator());
    reached.push(from)?;
    let mut next = 0;
    while next < reached.len() {
        let block = reached[next];
        if block == to {
            return Ok(true);
        }
        follow(edges, block, &mut reached)?;
        next += 1;
    }
    Ok(false)
}
