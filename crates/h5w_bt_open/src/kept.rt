//! A tree of a file that a session can keep.

ghost use Rattle.std.specs.Prelude.{◌≡◌, ℕ, ◌+◌, ◌<◌, ◌≤◌, ◌^◌, ◌++◌, ◌↔◌, List, length, None, Some, IfOk, IsTrue, OnOk, true};
ghost use Rattle.h5w_model.specs.Trees.{capacity_of};
ghost use Rattle.h5w_looks.specs.Still.{IsStill};
ghost use Rattle.h5w_bt_index.specs.Held.{header_place, view_of};
ghost use Rattle.h5w_bt_index.specs.Index.{IsIndex, IsShaped, index_of, records};
ghost use Rattle.h5w_bt_index.specs.Marks.{clean_of};
ghost use Rattle.h5w_bt_index.specs.Sound.{IsRising, IsSound};
ghost use Rattle.h5w_bt_open.specs.Calls.{Loads};
ghost use Rattle.h5w_bt_open.specs.Spans.{Leads};
ghost use Rattle.h5w_bt_open.specs.Opened.{IsRefused, from_key, looked_in};
ghost use Rattle.h5w_bt_open.specs.Kept.{IfTree, KeptOrOther};
ghost use Rattle.h5w_bt_open.specs.Needed.{ranges_from};

use crate::error::OpenTreeError;
use crate::tree::{keys_from, open};
use crate::walk::Walk;
use h5w_bt::{Key, Record, is_below};
use h5w_bt_index::{Root, TreeIndex};
use h5w_image::PieceRead;
use h5w_model::OutOfMemory;
use h5w_space::Extent;
use std::alloc::Global;

/// Adds all records of a tree.
fn add_records(root: &Root, out: &mut Vec<Record>) -> Result<(), OutOfMemory>
    ensures { OnOk result (out.new.items ≡ out.old.items ++ records (index_of root.now)) }
{
    match root {
        Root::Zero(root) => root.add_records(out),
        Root::One(root) => root.add_records(out),
        Root::Two(root) => root.add_records(out),
        Root::Three(root) => root.add_records(out),
    }
}

/// Adds the ranges of the nodes of a tree on the way to a key from one on.
fn add_ranges(root: &Root, first: Key, out: &mut Vec<Extent>) -> Result<(), OutOfMemory>
    requires { IsShaped (index_of root.now) }
    ensures { OnOk result (out.new.items ≡ out.old.items ++ ranges_from first (index_of root.now)) }
{
    let keys = keys_from(first);
    match root {
        Root::Zero(root) => root.add_ranges(keys, out),
        Root::One(root) => root.add_ranges(keys, out),
        Root::Two(root) => root.add_ranges(keys, out),
        Root::Three(root) => root.add_ranges(keys, out),
    }
}

/// All records of a tree, in their order.
pub fn records(alloc: Global, tree: &TreeIndex) -> Result<Vec<Record>, OutOfMemory>
    ensures { IfOk result (λ r. r.items ≡ records (view_of tree.now)) }
{
    let mut all = Vec::new(alloc);
    add_records(tree.root(), &mut all)?;
    Ok(all)
}

/// The ranges in its file of a tree's nodes on the way to a key from `first` on, each of so many bytes as its records and pointers take,
/// and before those of the nodes under it: the root's first. A node that was never written has none.
pub fn ranges(alloc: Global, tree: &TreeIndex, first: Key) -> Result<Vec<Extent>, OutOfMemory>
    requires { IsShaped (view_of tree.now) }
    ensures { IfOk result (λ r. r.items ≡ ranges_from first (view_of tree.now)) }
{
    let mut all = Vec::new(alloc);
    add_ranges(tree.root(), first, &mut all)?;
    Ok(all)
}

/// Whether each inner node says how many records are under it.
fn has_true_totals(root: &Root) -> bool
    requires { IsShaped (index_of root.now) }
    ensures { IsTrue result ↔ IsSound (index_of root.now).depth (capacity_of (index_of root.now).depth) (index_of root.now).root }
{
    match root {
        Root::Zero(root) => root.has_true_totals(),
        Root::One(root) => root.has_true_totals(),
        Root::Two(root) => root.has_true_totals(),
        Root::Three(root) => root.has_true_totals(),
    }
}

/// Whether keys strictly rise.
fn is_rising(records: &[Record]) -> bool
    ensures { IsTrue result ↔ IsRising records.now }
{
    for at in 1..records.len() {
        if !is_below(&records[at - 1].key, &records[at].key) {
            return false;
        }
    }
    true
}

/// What was found behind a header.
#[derive(Drop)]
pub enum Kept {
    /// A tree that a session can keep: its keys strictly rise, and each node says how many records are under it.
    Tree(TreeIndex),
    /// A tree of which some node does not say how many records are under it.
    WrongTotals,
    /// A tree of which all do, but the keys do not rise.
    Unordered,
}

/// What keeps a session from a tree.
#[derive(Clone, Copy)]
enum Flaw {
    /// Some node does not say how many records are under it.
    Totals,
    /// All nodes do, but the keys do not rise.
    Order,
}

/// What keeps a session from a tree, if anything does.
fn first_flaw(alloc: Global, tree: &TreeIndex) -> Result<Option<Flaw>, OutOfMemory>
    requires { IsShaped (view_of tree.now) }
    ensures none { IfOk result (λ o. o ≡ None → IsIndex (view_of tree.now)) }
    ensures totals { IfOk result (λ o. o ≡ Some Flaw.Totals → IsSound (view_of tree.now).depth (capacity_of (view_of tree.now).depth) (view_of tree.now).root → ⊥) }
    ensures sound { IfOk result (λ o. o ≡ Some Flaw.Order → IsSound (view_of tree.now).depth (capacity_of (view_of tree.now).depth) (view_of tree.now).root) }
    ensures order { IfOk result (λ o. o ≡ Some Flaw.Order → IsRising (records (view_of tree.now)) → ⊥) }
{
    if !has_true_totals(tree.root()) {
        return Ok(Some(Flaw::Totals));
    }
    let all = records(alloc, tree)?;
    if is_rising(&all) {
        Ok(None)
    } else {
        Ok(Some(Flaw::Order))
    }
}

/// Lets a tree go. It has many parts, and each place that lets it go is dear to prove.
fn release(_tree: TreeIndex) {}

/// The tree whose header stands at `header`, where a session can keep it.
///
/// It is read for keys from `first` on: each node by its own length, and what is refused is passed over where no such key leads to it. A
/// tree of which a node was passed over is never one that a session can keep. A header that names no root is that of a tree without
/// records. How many records a header says is not looked at, nor how full the nodes are, or which keys they have.
///
/// Damaged: of all keys from `first` on, the least one whose lookup is refused is refused so.
pub fn open_kept<I: PieceRead>(
    alloc: Global,
    image: &mut I,
    header: u64,
    first: Key,
) -> Result<Kept, OpenTreeError>
    ensures loads { Loads (I.view image.old) (I.view image.new) (λ img a f. IsRefused (looked_in img header) (Leads (from_key first)) a f) result }
    ensures kept { IfOk result (λ k. IfTree k (λ t. IsIndex (view_of t))) }
    ensures shape { IfOk result (λ k. IfTree k (λ t. IsShaped (view_of t))) }
    ensures clean { IfOk result (λ k. IfTree k (λ t. clean_of (view_of t).depth (view_of t).root ≡ true)) }
    ensures place { IfOk result (λ k. IfTree k (λ t. header_place t ≡ header)) }
    ensures fits { IfOk result (λ k. header + 38 < 2 ^ 64) }
    ensures exact { IfOk result (λ k. (img : List ℕ) → IsStill (I.view image.old) img → KeptOrOther img header first k) }
{
    let tree = match open(alloc, image, header, first) {
        Ok(tree) => tree,
        Err(error) => return Err(error),
    };
    match first_flaw(alloc, &tree) {
        Ok(None) => Ok(Kept::Tree(tree)),
        Ok(Some(Flaw::Totals)) => {
            release(tree);
            Ok(Kept::WrongTotals)
        }
        Ok(Some(Flaw::Order)) => {
            release(tree);
            Ok(Kept::Unordered)
        }
        Err(_) => {
            release(tree);
            Err(OpenTreeError::OutOfMemory)
        }
    }
}
