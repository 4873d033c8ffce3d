//! What is gathered from all nodes of a tree, and tested at each.

ghost use Rattle.std.specs.Prelude.{◌≡◌, ◌≤◌, ◌++◌, ◌↔◌, IsTrue, OnOk, map};
ghost use Rattle.std.specs.List.{All};
ghost use Rattle.h5w_model.specs.Trees.{capacity_of};
ghost use Rattle.h5w_bt_nodes.specs.Nodes.{all_records, joined};
ghost use Rattle.h5w_bt_nodes.specs.Shapes.{IsShape, IsShapedChild};
ghost use Rattle.h5w_bt_index.specs.Sound.{IsSound};
ghost use Rattle.h5w_bt_open.specs.Needed.{needed_ranges, of_each};
ghost use Rattle.h5w_space.specs.Ranges.{range_at};
ghost use Rattle.h5w_bt_open.specs.Spans.{high_of, low_of};

use crate::span::{Span, high_of, low_behind, low_of, span_at};
use h5w_bt::{Record, node_len};
use h5w_bt_nodes::{Inner, Leaf, Subtree, count};
use h5w_bytes::UNDEFINED;
use h5w_model::OutOfMemory;
use h5w_space::Extent;

/// A tree of one depth whose nodes can be visited one after another.
pub trait Walk: Subtree {
    /// Adds all its records, in their order.
    fn add_records(&self, out: &mut Vec<Record>) -> Result<(), OutOfMemory>
        ensures { OnOk result (out.new.items ≡ out.old.items ++ all_records Self.depth (Self.tree self.now)) };

    /// Adds the ranges of its nodes to which one of these keys leads, each by its own length: its own, then those of its children.
    fn add_ranges(&self, span: Option<Span>, out: &mut Vec<Extent>) -> Result<(), OutOfMemory>
        requires shallow { Self.depth ≤ 3 }
        requires shape { IsShape Self.depth (capacity_of Self.depth) (Self.tree self.now) }
        ensures { OnOk result (out.new.items ≡ out.old.items ++ needed_ranges Self.depth span (Self.tree self.now)) };

    /// Whether each inner node says how many records are under it.
    fn has_true_totals(&self) -> bool
        requires shallow { Self.depth ≤ 3 }
        requires shape { IsShape Self.depth (capacity_of Self.depth) (Self.tree self.now) }
        ensures { IsTrue result ↔ IsSound Self.depth (capacity_of Self.depth) (Self.tree self.now) };
}

/// Adds the range of a node of so many bytes at a place, where it has one.
fn add_range(place: u64, size: u64, out: &mut Vec<Extent>) -> Result<(), OutOfMemory>
    ensures { OnOk result (out.new.items ≡ out.old.items ++ range_at place size) }
{
    if place != UNDEFINED {
        out.push(Extent { at: place, size })?;
    }
    Ok(())
}

/// Adds these records with those under the children around them.
fn add_joined<C: Walk>(
    records: &[Record],
    children: &[C],
    out: &mut Vec<Record>,
) -> Result<(), OutOfMemory>
    ensures { OnOk result (out.new.items ≡ out.old.items ++ joined records.now (map (all_records C.depth) (map C.tree children.now))) }
{
    for at in 0..children.len() {
        children[at].add_records(out)?;
        if at >= records.len() {
            return Ok(());
        }
        out.push(records[at])?;
    }
    Ok(())
}

/// Adds the ranges of the nodes under these children, which are around these records; these keys lead to the node above.
fn add_ranges_below<C: Walk>(
    records: &[Record],
    children: &[C],
    span: Option<Span>,
    out: &mut Vec<Extent>,
) -> Result<(), OutOfMemory>
    requires shallow { C.depth ≤ 3 }
    requires shapes { All (IsShapedChild C.depth) (map C.tree children.now) }
    ensures { OnOk result (out.new.items ≡ out.old.items ++ of_each (needed_ranges C.depth) (low_of span) (high_of span) records.now (map C.tree children.now)) }
{
    let mut low = low_of(span);
    let high = high_of(span);
    for at in 0..children.len() {
        let here = span_at(low, high, records, at);
        children[at].add_ranges(here, out)?;
        low = low_behind(low, records, at);
    }
    Ok(())
}

/// Whether each inner node among these children and under them says how many records are under it.
fn have_true_totals<C: Walk>(children: &[C]) -> bool
    requires shallow { C.depth ≤ 3 }
    requires shapes { All (IsShapedChild C.depth) (map C.tree children.now) }
    ensures { IsTrue result ↔ All (IsSound C.depth (capacity_of C.depth)) (map C.tree children.now) }
{
    for child in children {
        if !child.has_true_totals() {
            return false;
        }
    }
    true
}

impl Walk for Leaf {
    fn add_records(&self, out: &mut Vec<Record>) -> Result<(), OutOfMemory> {
        out.extend_from_slice(&self.records)?;
        Ok(())
    }

    fn add_ranges(&self, span: Option<Span>, out: &mut Vec<Extent>) -> Result<(), OutOfMemory> {
        if span.is_none() {
            return Ok(());
        }
        add_range(self.place, 10 + 24 * self.records.len() as u64, out)
    }

    fn has_true_totals(&self) -> bool {
        true
    }
}

impl<C: Walk> Walk for Inner<C> {
    fn add_records(&self, out: &mut Vec<Record>) -> Result<(), OutOfMemory> {
        add_joined(&self.records, &self.children, out)
    }

    fn add_ranges(&self, span: Option<Span>, out: &mut Vec<Extent>) -> Result<(), OutOfMemory> {
        if span.is_none() {
            return Ok(());
        }
        let len = node_len(C::depth() + 1, self.records.len() as u64);
        add_range(self.place, len, out)?;
        add_ranges_below(&self.records, &self.children, span, out)
    }

    fn has_true_totals(&self) -> bool {
        self.total == count(self.records.len(), &self.children) && have_true_totals(&self.children)
    }
}
