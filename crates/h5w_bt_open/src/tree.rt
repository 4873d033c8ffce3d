//! A tree that stands on an image.

ghost use Rattle.std.specs.Prelude.{◌≡◌, ◌≢◌, ℕ, suc, ◌+◌, ◌<◌, ◌≤◌, ◌^◌, List, length, IfErr, IfOk, IfSome, Ok, Err, true};
ghost use Rattle.h5w_model.specs.Numbers.{range, undefined};
ghost use Rattle.h5w_model.specs.Trees.{bthd_at, bthd_len, capacity_of};
ghost use Rattle.h5w_looks.specs.Still.{IsStill};
ghost use Rattle.h5w_bt.specs.Fields.{bthd_of};
ghost use Rattle.h5w_bt.specs.Parts.{IsHeader, child_of};
ghost use Rattle.h5w_bt_nodes.specs.Typed.{inner_of, leaf_of};
ghost use Rattle.h5w_bt_index.specs.Held.{header_place, view_of};
ghost use Rattle.h5w_bt_index.specs.Index.{IsShaped, index_of};
ghost use Rattle.h5w_bt_index.specs.Marks.{clean_of};
ghost use Rattle.h5w_bt_open.specs.Calls.{IfDamaged, Loads};
ghost use Rattle.h5w_bt_open.specs.Spans.{IsProper, Leads};
ghost use Rattle.h5w_bt_open.specs.Opened.{IsHeld, IsOpened, IsRefused, IsStanding, from_key, looked_in, looked_up, root_pointer, told_under, with_total};

use crate::error::OpenTreeError;
use crate::load::{bytes_at, check_end};
use crate::node::Load;
use crate::span::Span;
use h5w_bt::{Bthd, Child, Key};
use h5w_bt_index::{Root, TreeIndex};
use h5w_bt_nodes::{Inner, Leaf};
use h5w_bytes::UNDEFINED;
use h5w_image::PieceRead;
use std::alloc::Global;

/// The header of these bytes at `at`.
fn header_in(bytes: &[u8], at: u64) -> Result<Bthd, OpenTreeError>
    requires { at + length bytes.now ≤ 2 ^ 64 }
    ensures read { IfOk result (λ h. bthd_at bytes.now at ≡ Ok (bthd_of h)) }
    ensures refused { IfErr result (λ e. IfDamaged e (λ a f. (a ≡ at) × (bthd_at bytes.now at ≡ Err f))) }
    ensures quiet { IfErr result (λ e. e ≢ OpenTreeError.Failed) }
{
    match Bthd::decode(bytes, at) {
        Ok(header) => Ok(header),
        Err(fault) => Err(OpenTreeError::Damaged { at, fault }),
    }
}

/// The header that stands at `at`.
fn header_at<I: PieceRead>(alloc: Global, image: &mut I, at: u64) -> Result<Bthd, OpenTreeError>
    ensures loads { Loads (I.view image.old) (I.view image.new) (λ img a f. (a ≡ at) × (bthd_at (range img at bthd_len) at ≡ Err f)) result }
    ensures fits { IfOk result (λ h. at + 38 < 2 ^ 64) }
    ensures form { IfOk result (λ h. IsHeader (bthd_of h)) }
    ensures stands { IfOk result (λ h. (img : List ℕ) → IsStill (I.view image.old) img → bthd_at (range img at bthd_len) at ≡ Ok (bthd_of h)) }
{
    let bytes = bytes_at(alloc, image, at, 38)?;
    let header = header_in(&bytes, at)?;
    check_end(at, Bthd::LEN)?;
    Ok(header)
}

/// The keys from one on.
pub fn keys_from(first: Key) -> Option<Span>
    ensures exact { result ≡ from_key first }
    ensures proper { IfSome result IsProper }
{
    Some(Span {
        from: first,
        to: None,
    })
}

/// The leaf behind the pointer to a root, to which some keys lead.
fn load_leaf<I: PieceRead>(
    alloc: Global,
    image: &mut I,
    child: Child,
    span: Option<Span>,
) -> Result<Leaf, OpenTreeError>
    requires few { child.records ≤ capacity_of 0 }
    requires led { IfSome span IsProper }
    ensures loads { Loads (I.view image.old) (I.view image.new) (λ img at f. IsRefused (looked_up img 0 (child_of child)) (Leads span) at f) result }
    ensures held { IfOk result (λ t. IsHeld 0 (with_total (child_of child) (told_under 0 (leaf_of t))) (leaf_of t)) }
    ensures opened { IfOk result (λ t. (img : List ℕ) → IsStill (I.view image.old) img → IsOpened img 0 (with_total (child_of child) (told_under 0 (leaf_of t))) span (leaf_of t)) }
{
    Leaf::load(alloc, image, child, span)
}

/// The inner node behind the pointer to a root, to which some keys lead, with all that is under it. It says as many records under it as its
/// children do.
fn load_inner<I: PieceRead, C: Load>(
    alloc: Global,
    image: &mut I,
    child: Child,
    span: Option<Span>,
) -> Result<Inner<C>, OpenTreeError>
    requires shallow { suc C.depth ≤ 3 }
    requires few { child.records ≤ capacity_of (suc C.depth) }
    requires led { IfSome span IsProper }
    ensures loads { Loads (I.view image.old) (I.view image.new) (λ img at f. IsRefused (looked_up img (suc C.depth) (child_of child)) (Leads span) at f) result }
    ensures held { IfOk result (λ t. IsHeld (suc C.depth) (with_total (child_of child) (told_under (suc C.depth) (inner_of C.depth C.tree t))) (inner_of C.depth C.tree t)) }
    ensures opened { IfOk result (λ t. (img : List ℕ) → IsStill (I.view image.old) img → IsOpened img (suc C.depth) (with_total (child_of child) (told_under (suc C.depth) (inner_of C.depth C.tree t))) span (inner_of C.depth C.tree t)) }
{
    let root: Inner<C> = match Inner::load(alloc, image, child, span) {
        Ok(root) => root,
        Err(error) => return Err(error),
    };
    Ok(root.counted())
}

/// The root that a header names, with all that is under it.
fn root_at<I: PieceRead>(
    alloc: Global,
    image: &mut I,
    header: Bthd,
    span: Option<Span>,
) -> Result<Root, OpenTreeError>
    requires form { IsHeader (bthd_of header) }
    requires led { IfSome span IsProper }
    ensures loads { Loads (I.view image.old) (I.view image.new) (λ img a f. IsRefused (looked_up img header.depth (root_pointer (bthd_of header) header.total)) (Leads span) a f) result }
    ensures depth { IfOk result (λ r. (index_of r).depth ≡ header.depth) }
    ensures shape { IfOk result (λ r. IsShaped (index_of r)) }
    ensures clean { IfOk result (λ r. clean_of (index_of r).depth (index_of r).root ≡ true) }
    ensures opened { IfOk result (λ r. (img : List ℕ) → IsStill (I.view image.old) img → IsOpened img (index_of r).depth (root_pointer (bthd_of header) (told_under (index_of r).depth (index_of r).root)) span (index_of r).root) }
{
    let child = Child {
        address: header.root,
        records: header.records,
        total: header.total,
    };
    match header.depth {
        0 => match load_leaf(alloc, image, child, span) {
            Ok(root) => Ok(Root::Zero(root)),
            Err(error) => Err(error),
        },
        1 => match load_inner(alloc, image, child, span) {
            Ok(root) => Ok(Root::One(root)),
            Err(error) => Err(error),
        },
        2 => match load_inner(alloc, image, child, span) {
            Ok(root) => Ok(Root::Two(root)),
            Err(error) => Err(error),
        },
        _ => match load_inner(alloc, image, child, span) {
            Ok(root) => Ok(Root::Three(root)),
            Err(error) => Err(error),
        },
    }
}

/// The tree whose header stands at `header`, for keys from `first` on: each node is read, by its own length, and what is refused is passed
/// over where no such key leads to it. A header that names no root is that of a tree without records.
///
/// Damaged: of all keys from `first` on, the least one whose lookup is refused is refused so.
pub fn open<I: PieceRead>(
    alloc: Global,
    image: &mut I,
    header: u64,
    first: Key,
) -> Result<TreeIndex, OpenTreeError>
    ensures loads { Loads (I.view image.old) (I.view image.new) (λ img a f. IsRefused (looked_in img header) (Leads (from_key first)) a f) result }
    ensures shape { IfOk result (λ t. IsShaped (view_of t)) }
    ensures clean { IfOk result (λ t. clean_of (view_of t).depth (view_of t).root ≡ true) }
    ensures place { IfOk result (λ t. header_place t ≡ header) }
    ensures fits { IfOk result (λ t. header + 38 < 2 ^ 64) }
    ensures opened { IfOk result (λ t. (img : List ℕ) → IsStill (I.view image.old) img → IsStanding img header first (view_of t)) }
{
    let keys = keys_from(first);
    let found = header_at(alloc, image, header)?;
    if found.root == UNDEFINED {
        return Ok(TreeIndex::new(alloc, header));
    }
    match root_at(alloc, image, found, keys) {
        Ok(root) => Ok(TreeIndex::standing(alloc, header, root)),
        Err(error) => Err(error),
    }
}
