//! A record more at the root of a tree, and a new root above one that is divided.

ghost use Rattle.std.specs.Prelude.{◌≡◌, ◌≤◌, suc, true, false, length, IfOk, IfSome, is_some, OnErr, MatchOption};
ghost use Rattle.h5w_model.specs.Trees.{capacity_of};
ghost use Rattle.h5w_bt_nodes.specs.Nodes.{records_of};
ghost use Rattle.h5w_bt_nodes.specs.Puts.{is_over, put, raised};
ghost use Rattle.h5w_bt_nodes.specs.Shapes.{IsShape};
ghost use Rattle.h5w_bt_nodes.specs.Typed.{IsRoomyInner, inner_of};

use crate::inner::{Inner, count, is_full, is_over};
use crate::subtree::Subtree;
use h5w_bt::Record;
use h5w_bytes::UNDEFINED;
use h5w_model::OutOfMemory;
use std::alloc::Global;
use std::mem;

/// The right part of a root that will be divided, and the new root above both.
#[derive(Drop)]
struct Spare<C> {
    right: C,
    above: Inner<C>,
}

/// Nodes for a root that is full.
fn spare_for<C: Subtree>(root: &C, alloc: Global) -> Result<Option<Spare<C>>, OutOfMemory>
    requires shallow { C.depth ≤ 3 }
    ensures full { IfOk result (λ o. capacity_of C.depth ≤ length (records_of C.depth (C.tree root.now)) → is_some o ≡ true) }
    ensures right { IfOk result (λ o. IfSome o (λ s. C.roomy s.right)) }
    ensures above { IfOk result (λ o. IfSome o (λ s. IsRoomyInner s.above)) }
{
    if !is_full(root) {
        return Ok(None);
    }
    let right = C::with_room(alloc)?;
    let above = Inner::with_room(alloc)?;
    Ok(Some(Spare { right, above }))
}

/// A new root above the two parts of one that has a record too many.
fn raise<C: Subtree>(root: &mut C, spare: Spare<C>, alloc: Global) -> Inner<C>
    requires shallow { C.depth ≤ 2 }
    requires shape { IsShape C.depth (suc (capacity_of C.depth)) (C.tree root.old) }
    requires over { is_over C.depth (C.tree root.old) ≡ true }
    requires right { C.roomy spare.right }
    requires above { IsRoomyInner spare.above }
    ensures { inner_of C.depth C.tree result ≡ raised C.depth (C.tree root.old) }
{
    let Spare { right, above } = spare;
    let (middle, right) = root.divide(right);
    let left = mem::replace(root, C::blank(alloc));
    let Inner {
        mut records,
        mut children,
        ..
    } = above;
    records.push_reserved(middle);
    children.push_reserved(left);
    children.push_reserved(right);
    let total = count(records.len(), &children);
    Inner {
        records,
        children,
        total,
        place: UNDEFINED,
        clean: false,
    }
}

/// Puts a record into a root. Where that has a record too many then, the answer is the new root above its two parts.
pub fn put_at_root<C: Subtree>(
    root: &mut C,
    item: Record,
    alloc: Global,
) -> Result<Option<Inner<C>>, OutOfMemory>
    requires shallow { C.depth ≤ 2 }
    requires shape { IsShape C.depth (capacity_of C.depth) (C.tree root.old) }
    ensures ok { IfOk result (λ o. MatchOption o
        ((is_over C.depth (put C.depth item (C.tree root.old)) ≡ false) × (C.tree root.new ≡ put C.depth item (C.tree root.old)))
        (λ r. (is_over C.depth (put C.depth item (C.tree root.old)) ≡ true) × (inner_of C.depth C.tree r ≡ raised C.depth (put C.depth item (C.tree root.old))))) }
    ensures err { OnErr result (C.tree root.new ≡ C.tree root.old) }
{
    let spare = spare_for(root, alloc)?;
    root.put(item)?;
    if !is_over(root) {
        return Ok(None);
    }
    match spare {
        Some(spare) => Ok(Some(raise(root, spare, alloc))),
        None => Ok(None),
    }
}
