//! The child pointers of an inner node.
ghost use Rattle.std.specs.Prelude.{◌≡◌, ◌+◌, ◌-◌, ◌*◌, ◌<◌, ◌≤◌, ◌^◌, ◌++◌, length, map, take, drop, IfOk};
ghost use Rattle.std.specs.List.{All, flat_map};
ghost use Rattle.h5w_model.specs.Checked.{checked};
ghost use Rattle.h5w_model.specs.Trees.{children_in, child_bytes, child_tests, pointer_size};
ghost use Rattle.h5w_bt.specs.Parts.{child_of, child_in, IsPointer};

use crate::geometry::{capacity, pointer_size};
use h5w_bytes::{number, put};
use h5w_model::BlockFault;
use std::alloc::{AllocError, Global};
use std::marker::Model;

/// A pointer to a child node ("Version 2 B-trees").
#[derive(Clone, Copy, Debug, PartialEq, Eq)]
pub struct Child {
    /// The child's address.
    pub address: u64,
    /// How many records the child has.
    pub records: u64,
    /// How many records are under the child, its own included: those that it has where it is a leaf.
    pub total: u64,
}

impl Child {
    /// The child pointer at place `at` of a node of this depth.
    fn read(b: &[u8], depth: u64, at: usize) -> Child
        requires low { 1 ≤ depth }
        requires high { depth ≤ 3 }
        requires inside { at + pointer_size depth ≤ length b.now }
        ensures { child_of result ≡ child_in b.now depth at }
    {
        let records = number(b, at + 8, 1);
        let total = if depth <= 1 {
            records
        } else {
            number(b, at + 9, depth as usize)
        };
        Child {
            address: number(b, at, 8),
            records,
            total,
        }
    }

    /// Writes the pointer to place `at` of a node of this depth, and leaves every other byte.
    fn write(&self, out: &mut [u8], depth: u64, at: usize)
        requires low { 1 ≤ depth }
        requires high { depth ≤ 3 }
        requires form { IsPointer depth (child_of self.now) }
        requires inside { at + pointer_size depth ≤ length out.old }
        ensures written { out.new ≡ (take at out.old ++ child_bytes depth (child_of self.now)) ++ drop (at + pointer_size depth) out.old }
        ensures fits { self.now.address < 2 ^ 64 }
    {
        put(out, at, 8, self.address);
        put(out, at + 8, 1, self.records);
        if depth > 1 {
            put(out, at + 9, depth as usize, self.total);
        }
    }
}

/// The child pointers of an inner node, one more than its records.
#[derive(Debug, Drop)]
pub struct Children {
    children: Vec<Child>,
}

impl Model for Children {
    ghost use Rattle.std.specs.Prelude.{List, map};
    ghost use Rattle.h5w_model.specs.Trees.{ChildFields};
    ghost use Rattle.h5w_bt.specs.Parts.{child_of};

    ghost Value = { List ChildFields };

    ghost view = { λ c. map child_of c.children.items };
}

impl Children {
    /// These pointers, without a copy.
    pub fn from_vec(children: Vec<Child>) -> Children
        ensures { result ≡ map child_of children.items }
    {
        Children { children }
    }

    /// The pointers as a vector, without a copy.
    pub fn into_vec(self) -> Vec<Child>
        ensures { map child_of result.items ≡ self }
    {
        self.children
    }

    pub fn as_slice(&self) -> &[Child]
        ensures { map child_of result.now ≡ self.now }
    {
        self.children.as_slice()
    }

    /// The `n` pointers from place `from` on of a node of this depth.
    pub fn read(
        alloc: Global,
        b: &[u8],
        depth: u64,
        n: usize,
        from: usize,
    ) -> Result<Children, AllocError>
        requires low { 1 ≤ depth }
        requires high { depth ≤ 3 }
        requires inside { from + n * pointer_size depth ≤ length b.now }
        ensures { IfOk result (λ c. c ≡ children_in b.now depth n from) }
    {
        let children = read_children(alloc, b, depth, n, from)?;
        Ok(Children { children })
    }

    /// Writes the pointers from place `from` of a node of this depth on, and leaves every other byte.
    pub fn write(&self, out: &mut [u8], depth: u64, from: usize)
        requires low { 1 ≤ depth }
        requires high { depth ≤ 3 }
        requires form { All (IsPointer depth) self.now }
        requires inside { from + length self.now * pointer_size depth ≤ length out.old }
        ensures written { out.new
            ≡ (take from out.old ++ flat_map (child_bytes depth) self.now) ++ drop (from + length self.now * pointer_size depth) out.old }
        ensures fits { All (λ c. c.address < 2 ^ 64) self.now }
    {
        write_children(&self.children, out, depth, from);
    }
}

/// The `n` child pointers from place `from` on of a node of this depth.
fn read_children(
    alloc: Global,
    b: &[u8],
    depth: u64,
    n: usize,
    from: usize,
) -> Result<Vec<Child>, AllocError>
    requires low { 1 ≤ depth }
    requires high { depth ≤ 3 }
    requires inside { from + n * pointer_size depth ≤ length b.now }
    ensures { IfOk result (λ c. map child_of c.items ≡ children_in b.now depth n from) }
{
    let width = pointer_size(depth);
    let mut children = Vec::with_capacity(alloc, n)?;
    for i in 0..n {
        children.push(Child::read(b, depth, from + i * width))?;
    }
    Ok(children)
}

/// Writes child pointers from place `from` of a node of this depth on, and leaves every other byte.
fn write_children(children: &[Child], out: &mut [u8], depth: u64, from: usize)
    requires low { 1 ≤ depth }
    requires high { depth ≤ 3 }
    requires form { All (IsPointer depth) (map child_of children.now) }
    requires inside { from + length children.now * pointer_size depth ≤ length out.old }
    ensures written { out.new
        ≡ (take from out.old ++ flat_map (child_bytes depth) (map child_of children.now)) ++ drop (from + length children.now * pointer_size depth) out.old }
    ensures fits { All (λ c. c.address < 2 ^ 64) children.now }
{
    let width = pointer_size(depth);
    for (i, child) in children.iter().enumerate() {
        child.write(out, depth, from + i * width);
    }
}

/// Whether each of the `n` children, whose pointers stand from place `from` of a node of this depth on, has no more records than
/// there is room for.
pub fn check_counts(b: &[u8], at: u64, depth: u64, n: usize, from: usize) -> Result<(), BlockFault>
    requires low { 1 ≤ depth }
    requires high { depth ≤ 3 }
    requires inside { from + n * pointer_size depth ≤ length b.now }
    requires below { at + length b.now ≤ 2 ^ 64 }
    ensures exact { result ≡ checked (child_tests b.now at depth n from) tt }
{
    let width = pointer_size(depth);
    for i in 0..n {
        let place = from + i * width + 8;
        let found = number(b, place, 1);
        if found > capacity(depth - 1) {
            return Err(BlockFault::Field {
                at: at + place as u64,
                found,
            });
        }
    }
    Ok(())
}
