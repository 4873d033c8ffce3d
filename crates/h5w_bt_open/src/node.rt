//! The nodes of a tree, each loaded with all that is under it.

ghost use Rattle.std.specs.Prelude.{◌≡◌, ◌≢◌, ℕ, suc, ◌+◌, ◌≤◌, ◌^◌, ◌++◌, ◌∷◌, [], List, OnOk, IfErr, IfOk, IfSome, true, false, length, map, drop, is_some};
ghost use Rattle.std.specs.List.{All};
ghost use Rattle.h5w_model.specs.Trees.{btlf_at, btin_at, capacity_of};
ghost use Rattle.h5w_looks.specs.Still.{IsStill};
ghost use Rattle.h5w_bt.specs.Fields.{btin_of};
ghost use Rattle.h5w_bt.specs.Parts.{child_of, record_of};
ghost use Rattle.h5w_bt_nodes.specs.Shapes.{IsShape};
ghost use Rattle.h5w_bt_nodes.specs.Typed.{inner_of, leaf_of};
ghost use Rattle.h5w_bt_open.specs.Calls.{IfDamaged, Loads};
ghost use Rattle.h5w_bt_open.specs.Spans.{IsProper, Leads, high_of, low_of};
ghost use Rattle.h5w_bt_open.specs.Opened.{AreWhole, EachOpened, IsChild, IsHeld, IsLeafIn, IsOpened, IsRead, IsRefused, counted_node, looked_below, looked_up, nowhere_below, passed_of};

use crate::error::OpenTreeError;
use crate::load::{bytes_at, leaf_in, no_chunks, node_in};
use crate::span::{Span, high_of, low_behind, low_of, span_at};
use h5w_bt::{Btin, Child, Record, node_len};
use h5w_bt_nodes::{Inner, Leaf, Subtree, count};
use h5w_bytes::UNDEFINED;
use h5w_image::PieceRead;
use h5w_model::OutOfMemory;
use std::alloc::Global;

/// A tree of one depth that can be read from an image.
pub trait Load: Subtree {
    /// What stands for a node that was passed over, where the pointer to that one says: two records of one key are under it.
    fn passed(alloc: Global, child: Child) -> Result<Self, OutOfMemory>
        ensures { IfOk result (λ t. Self.tree t ≡ passed_of Self.depth (child_of child)) };

    /// The node to which a pointer leads, with all that is under it; these keys lead to it. What is refused, and to which none of them
    /// leads, is passed over.
    fn load<I: PieceRead>(
        alloc: Global,
        image: &mut I,
        child: Child,
        span: Option<Span>,
    ) -> Result<Self, OpenTreeError>
        requires shallow { Self.depth ≤ 3 }
        requires few { child.records ≤ capacity_of Self.depth }
        requires led { IfSome span IsProper }
        ensures loads { Loads (I.view image.old) (I.view image.new) (λ img at f. IsRefused (looked_up img Self.depth (child_of child)) (Leads span) at f) result }
        ensures held { IfOk result (λ t. IsHeld Self.depth (child_of child) (Self.tree t)) }
        ensures opened { IfOk result (λ t. (img : List ℕ) → IsStill (I.view image.old) img → IsOpened img Self.depth (child_of child) span (Self.tree t)) };

    /// The same tree, whose root says as many records under it as its children do.
    fn counted(self) -> Self
        requires shallow { Self.depth ≤ 3 }
        requires shape { IsShape Self.depth (capacity_of Self.depth) (Self.tree self) }
        ensures { Self.tree result ≡ counted_node Self.depth (Self.tree self) };
}

/// The leaf of these bytes, to which a pointer leads; what stands for it where it is refused, and not needed.
fn leaf_or_passed(
    alloc: Global,
    bytes: &[u8],
    child: Child,
    needed: bool,
) -> Result<Leaf, OpenTreeError>
    requires below { child.address + length bytes.now ≤ 2 ^ 64 }
    requires few { child.records ≤ 84 }
    ensures found { IfOk result (λ t. IsLeafIn (btlf_at bytes.now child.address child.records) (child_of child) needed (leaf_of t)) }
    ensures quiet { IfErr result (λ e. e ≢ OpenTreeError.Failed) }
    ensures damaged { IfErr result (λ e. IfDamaged e (λ a f. (a ≡ child.address) × ((btlf_at bytes.now child.address child.records ≡ Err f) × (needed ≡ true)))) }
{
    match leaf_in(alloc, bytes, child.address, child.records, needed)? {
        Some(leaf) => Ok(Leaf {
            records: leaf.records.into_vec(),
            place: child.address,
            clean: true,
        }),
        None => Ok(Leaf::passed(alloc, child)?),
    }
}

impl Load for Leaf {
    fn passed(alloc: Global, child: Child) -> Result<Leaf, OutOfMemory> {
        let records = no_chunks(alloc)?;
        Ok(Leaf {
            records,
            place: child.address,
            clean: true,
        })
    }

    fn load<I: PieceRead>(
        alloc: Global,
        image: &mut I,
        child: Child,
        span: Option<Span>,
    ) -> Result<Leaf, OpenTreeError> {
        let len = 10 + 24 * child.records;
        let bytes = bytes_at(alloc, image, child.address, len)?;
        let leaf = leaf_or_passed(alloc, &bytes, child, span.is_some())?;
        Ok(leaf)
    }

    fn counted(self) -> Leaf {
        self
    }
}

/// What stands for the one child of a node that was passed over.
fn passed_below<C: Load>(alloc: Global) -> Result<Vec<C>, OutOfMemory>
    ensures { IfOk result (λ v. map C.tree v.items ≡ passed_of C.depth nowhere_below ∷ []) }
{
    let nowhere = Child {
        address: UNDEFINED,
        records: 0,
        total: 0,
    };
    let child = C::passed(alloc, nowhere)?;
    let mut children = Vec::new(alloc);
    children.push(child)?;
    Ok(children)
}

/// Puts a node behind others.
fn put_behind<C: Drop>(nodes: &mut Vec<C>, node: C) -> Result<(), OutOfMemory>
    ensures { OnOk result (nodes.new.items ≡ nodes.old.items ++ node ∷ []) }
{
    nodes.push(node)?;
    Ok(())
}

/// The children of a node with these records, by the pointers to them; these keys lead to the node.
fn load_below<I: PieceRead, C: Load>(
    alloc: Global,
    image: &mut I,
    records: &[Record],
    children: &[Child],
    span: Option<Span>,
) -> Result<Vec<C>, OpenTreeError>
    requires shallow { suc C.depth ≤ 3 }
    requires led { IfSome span IsProper }
    requires count { length children.now ≡ length records.now + 1 }
    requires pointers { All (IsChild C.depth) (map child_of children.now) }
    ensures loads { Loads (I.view image.old) (I.view image.new) (λ img at f. IsRefused (looked_below img C.depth (map record_of records.now) (map child_of children.now)) (Leads span) at f) result }
    ensures whole { IfOk result (λ v. AreWhole C.depth (map C.tree v.items)) }
    ensures count { IfOk result (λ v. length v.items ≡ length children.now) }
    ensures opened { IfOk result (λ v. (img : List ℕ) → IsStill (I.view image.old) img → EachOpened (IsOpened img C.depth) (low_of span) (high_of span) records.now (map child_of children.now) (map C.tree v.items)) }
{
    let mut low = low_of(span);
    let high = high_of(span);
    let mut nodes = Vec::new(alloc);
    for at in 0..children.len() {
        let here = span_at(low, high, records, at);
        let node = C::load(alloc, image, children[at], here)?;
        put_behind(&mut nodes, node)?;
        low = low_behind(low, records, at);
    }
    Ok(nodes)
}

/// The inner node of these records and pointers, to which a pointer leads; these keys lead to it.
fn load_node<I: PieceRead, C: Load>(
    alloc: Global,
    image: &mut I,
    child: Child,
    node: Btin,
    span: Option<Span>,
) -> Result<Inner<C>, OpenTreeError>
    requires shallow { suc C.depth ≤ 3 }
    requires led { IfSome span IsProper }
    requires few { child.records ≤ capacity_of (suc C.depth) }
    requires read { IsRead C.depth child.records (btin_of node) }
    ensures loads { Loads (I.view image.old) (I.view image.new) (λ img at f. IsRefused (looked_below img C.depth node.records node.children) (Leads span) at f) result }
    ensures held { IfOk result (λ t. IsHeld (suc C.depth) (child_of child) (inner_of C.depth C.tree t)) }
    ensures records { IfOk result (λ t. map record_of t.records.items ≡ node.records) }
    ensures place { IfOk result (λ t. t.place ≡ child.address) }
    ensures opened { IfOk result (λ t. (img : List ℕ) → IsStill (I.view image.old) img → EachOpened (IsOpened img C.depth) (low_of span) (high_of span) t.records.items node.children (map C.tree t.children.items)) }
{
    let Btin { records, children } = node;
    let records = records.into_vec();
    let pointers = children.into_vec();
    let children = load_below(alloc, image, &records, &pointers, span)?;
    Ok(Inner {
        records,
        children,
        total: child.total,
        place: child.address,
        clean: true,
    })
}

impl<C: Load> Load for Inner<C> {
    fn passed(alloc: Global, child: Child) -> Result<Inner<C>, OutOfMemory> {
        let children = passed_below(alloc)?;
        Ok(Inner {
            records: Vec::new(alloc),
            children,
            total: child.total,
            place: child.address,
            clean: true,
        })
    }

    fn load<I: PieceRead>(
        alloc: Global,
        image: &mut I,
        child: Child,
        span: Option<Span>,
    ) -> Result<Inner<C>, OpenTreeError> {
        let depth = C::depth() + 1;
        let len = node_len(depth, child.records);
        let bytes = bytes_at(alloc, image, child.address, len)?;
        let node = node_in(
            alloc,
            &bytes,
            child.address,
            child.records,
            depth,
            span.is_some(),
        )?;
        match node {
            Some(node) => load_node(alloc, image, child, node, span),
            None => Ok(Inner::passed(alloc, child)?),
        }
    }

    fn counted(mut self) -> Inner<C> {
        self.total = count(self.records.len(), &self.children);
        self
    }
}
