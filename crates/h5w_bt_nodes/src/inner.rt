ghost use Rattle.std.specs.Prelude.{◌≡◌, ℕ, ◌+◌, ◌<◌, ◌≤◌, ◌^◌, ◌++◌, suc, true, None, flat_map, length, map, slice_get, slice_set, IfOk, IfSome, OnOk, OnErr, IsSome, is_some, nat_le, vec_len, vec_capacity};
ghost use Rattle.std.specs.List.{All, insert, sum_by};
ghost use Rattle.h5w_model.specs.Trees.{capacity_of};
ghost use Rattle.h5w_bt_nodes.specs.Nodes.{Tree, address_in, found, rank, records_of, total_of};
ghost use Rattle.h5w_bt_nodes.specs.Puts.{changed_node, is_over, left_of, middle_of, put, right_of, settled};
ghost use Rattle.h5w_bt_nodes.specs.Shapes.{IsShape, IsShapedChild};
ghost use Rattle.h5w_bt_nodes.specs.Blocks.{AllRead, EachBy, changes, each_by, joined_blocks, news, placed, pointer_of, stood, writes_of, written};
ghost use Rattle.h5w_bt.specs.Parts.{child_of};

use crate::bytes::put_inner;
use crate::lists::{insert_reserved, move_tail};
use crate::search::{put_record, replace_record, search};
use crate::subtree::Subtree;
use h5w_bt::{Child, Key, Record, capacity};
use h5w_bytes::UNDEFINED;
use h5w_cache::{Move, copied};
use h5w_model::{OutOfMemory, Write};
use std::alloc::Global;

/// A node between the root and the leaves: records, and one child more.
#[derive(Drop)]
pub struct Inner<C> {
    pub records: Vec<Record>,
    pub children: Vec<C>,
    /// How many records are under it, its own included.
    pub total: u64,
    /// Where it stands in the file, UNDEFINED while it was never written.
    pub place: u64,
    /// Whether what stands there says what it says.
    pub clean: bool,
}

/// How many records are under a node with so many of its own and these children.
pub fn count<C: Subtree>(records: usize, children: &[C]) -> u64
    requires { records + sum_by (total_of C.depth) (map C.tree children.now) < 2 ^ 64 }
    ensures { result ≡ records + sum_by (total_of C.depth) (map C.tree children.now) }
{
    let mut total = records as u64;
    for child in children {
        total += child.total();
    }
    total
}

/// Whether a tree has as many records in its root as there is room for.
pub fn is_full<C: Subtree>(tree: &C) -> bool
    requires { C.depth ≤ 3 }
    ensures { result ≡ nat_le (capacity_of C.depth) (length (records_of C.depth (C.tree tree.now))) }
{
    tree.len() as u64 >= capacity(C::depth())
}

/// Whether a tree has more records in its root than there is room for.
pub fn is_over<C: Subtree>(tree: &C) -> bool
    requires { C.depth ≤ 3 }
    ensures { result ≡ is_over C.depth (C.tree tree.now) }
{
    tree.len() as u64 > capacity(C::depth())
}

/// Adds the places that changed nodes under these children leave.
fn stood_below<C: Subtree>(children: &Vec<C>, out: &mut Vec<u64>) -> Result<(), OutOfMemory>
    ensures { OnOk result (out.new.items ≡ out.old.items ++ flat_map (stood C.depth) (map C.tree children.now.items)) }
{
    for child in children {
        child.stood(out)?;
    }
    Ok(())
}

/// Adds the writes of changed nodes under these children at the new places of these moves. Answers how many nodes those are, and the
/// pointers to the children then.
#[inline(never)]
fn write_below<C: Subtree>(
    children: &Vec<C>,
    moves: &[Move],
    out: &mut Vec<Write>,
) -> Result<(usize, Vec<Child>), OutOfMemory>
    requires shallow { C.depth ≤ 3 }
    requires shape { All (IsShapedChild C.depth) (map C.tree children.now.items) }
    requires enough { length (flat_map (stood C.depth) (map C.tree children.now.items)) ≤ length moves.now }
    requires ends { All (λ (p : ℕ). p + 2048 < 2 ^ 64) (news moves.now) }
    ensures count { IfOk result (λ r. r.0 ≡ length (flat_map (stood C.depth) (map C.tree children.now.items))) }
    ensures pointers { IfOk result (λ r. map child_of r.1.items ≡ map (pointer_of C.depth) (each_by (placed C.depth) (changes C.depth) (news moves.now) (map C.tree children.now.items))) }
    ensures written { OnOk result (out.new.items ≡ out.old.items ++ writes_of (joined_blocks (each_by (written C.depth) (changes C.depth) (news moves.now) (map C.tree children.now.items)))) }
    ensures reads { OnOk result (EachBy (AllRead C.depth) (changes C.depth) (news moves.now) (map C.tree children.now.items)) }
{
    let mut pointers = Vec::with_capacity(*children.allocator(), children.len())?;
    let mut below = 0usize;
    for child in children {
        let (count, pointer) = child.write(&moves[below..], out)?;
        pointers.push(pointer)?;
        below += count;
    }
    Ok((below, pointers))
}

/// Changed nodes under these children stand at the new places of these moves from now on, and are clean. Answers how many they are.
fn settle_below<C: Subtree>(children: &mut Vec<C>, moves: &[Move]) -> usize
    requires { length (flat_map (stood C.depth) (map C.tree children.old.items)) ≤ length moves.now }
    ensures count { result ≡ length (flat_map (stood C.depth) (map C.tree children.old.items)) }
    ensures placed { map C.tree children.new.items ≡ each_by (placed C.depth) (changes C.depth) (news moves.now) (map C.tree children.old.items) }
{
    let mut below = 0usize;
    for at in 0..children.len() {
        below += children[at].settle(&moves[below..]);
    }
    below
}

/// Copies of children.
fn copy_below<C: Subtree>(children: &Vec<C>) -> Result<Vec<C>, OutOfMemory>
    ensures { IfOk result (λ v. map C.tree v.items ≡ map C.tree children.now.items) }
{
    let mut copy = Vec::with_capacity(*children.allocator(), children.len())?;
    for child in children {
        copy.push(child.copy()?)?;
    }
    Ok(copy)
}

impl<C: Subtree> Inner<C> {
    ghost use Rattle.h5w_bt_nodes.specs.Typed.{inner_of};

    /// Counts what is under it, and marks it as changed.
    fn recount(&mut self)
        requires { length self.old.records.items + sum_by (total_of C.depth) (map C.tree self.old.children.items) < 2 ^ 64 }
        ensures { inner_of C.depth C.tree self.new ≡ changed_node C.depth self.old.records.items (map C.tree self.old.children.items) self.old.place }
    {
        self.total = count(self.records.len(), &self.children);
        self.clean = false; // the file says what it was before
    }

    /// What its parent says of it, where it stands at a place.
    fn pointer(&self, place: u64) -> Child
        ensures { child_of result ≡ record { address = place; records = length self.now.records.items; total = self.now.total } }
    {
        Child {
            address: place,
            records: self.records.len() as u64,
            total: self.total,
        }
    }

    /// A node for the right part of the child at a place, where the child is full.
    fn spare(&self, at: usize) -> Result<Option<C>, OutOfMemory>
        requires shallow { C.depth ≤ 3 }
        requires inside { at < length self.now.children.items }
        ensures full { IfOk result (λ o. (c : Tree C.depth) → slice_get (map C.tree self.now.children.items) at ≡ Some c
            → capacity_of C.depth ≤ length (records_of C.depth c) → is_some o ≡ true) }
        ensures roomy { IfOk result (λ o. IfSome o C.roomy) }
    {
        if is_full(&self.children[at]) {
            let right = C::with_room(*self.records.allocator())?;
            Ok(Some(right))
        } else {
            Ok(None)
        }
    }

    /// Divides the child at a place, which has a record too many.
    fn divide_child(&mut self, at: usize, right: C)
        requires shallow { C.depth ≤ 3 }
        requires inside { at < length self.old.children.items }
        requires place { at ≤ length self.old.records.items }
        requires shape { (c : Tree C.depth) → slice_get (map C.tree self.old.children.items) at ≡ Some c → IsShape C.depth (suc (capacity_of C.depth)) c }
        requires over { (c : Tree C.depth) → slice_get (map C.tree self.old.children.items) at ≡ Some c → is_over C.depth c ≡ true }
        requires roomy { C.roomy right }
        requires room { vec_len self.old.records < vec_capacity self.old.records }
        requires room_below { vec_len self.old.children < vec_capacity self.old.children }
        ensures records { (c : Tree C.depth) → slice_get (map C.tree self.old.children.items) at ≡ Some c
            → self.new.records.items ≡ insert self.old.records.items at (middle_of C.depth c) }
        ensures children { (c : Tree C.depth) → slice_get (map C.tree self.old.children.items) at ≡ Some c
            → map C.tree self.new.children.items ≡ insert (slice_set (map C.tree self.old.children.items) at (left_of C.depth c)) (suc at) (right_of C.depth c) }
        ensures place { self.new.place ≡ self.old.place }
    {
        let (middle, right) = self.children[at].divide(right);
        insert_reserved(&mut self.records, at, middle);
        insert_reserved(&mut self.children, at + 1, right);
    }

    /// Divides the child at a place, where it has a record too many.
    fn divide_if_over(&mut self, at: usize, spare: Option<C>)
        requires shallow { C.depth ≤ 3 }
        requires inside { at < length self.old.children.items }
        requires place { at ≤ length self.old.records.items }
        requires shape { (c : Tree C.depth) → slice_get (map C.tree self.old.children.items) at ≡ Some c → IsShape C.depth (suc (capacity_of C.depth)) c }
        requires spare { (c : Tree C.depth) → slice_get (map C.tree self.old.children.items) at ≡ Some c → is_over C.depth c ≡ true → is_some spare ≡ true }
        requires roomy { IfSome spare C.roomy }
        requires room { vec_len self.old.records < vec_capacity self.old.records }
        requires room_below { vec_len self.old.children < vec_capacity self.old.children }
        ensures { changed_node C.depth self.new.records.items (map C.tree self.new.children.items) self.new.place
            ≡ settled C.depth at (changed_node C.depth self.old.records.items (map C.tree self.old.children.items) self.old.place) }
    {
        if !is_over(&self.children[at]) {
            return;
        }
        match spare {
            Some(right) => self.divide_child(at, right),
            None => {}
        }
    }

    /// Puts a record that the node itself does not have into the child at its place.
    fn put_below(&mut self, at: usize, item: Record) -> Result<(), OutOfMemory>
        requires shallow { suc C.depth ≤ 3 }
        requires shape { IsShape (suc C.depth) (capacity_of (suc C.depth)) (inner_of C.depth C.tree self.old) }
        requires place { at ≡ rank item.key self.old.records.items }
        requires new { address_in item.key self.old.records.items ≡ None }
        ensures ok { OnOk result (inner_of C.depth C.tree self.new ≡ put (suc C.depth) item (inner_of C.depth C.tree self.old)) }
        ensures err { OnErr result (inner_of C.depth C.tree self.new ≡ inner_of C.depth C.tree self.old) }
    {
        let spare = self.spare(at)?;
        self.records.reserve(1)?;
        self.children.reserve(1)?;
        match self.children[at].put(item) {
            Ok(()) => {}
            Err(refused) => return Err(refused),
        }
        self.divide_if_over(at, spare);
        self.recount();
        Ok(())
    }
}

impl<C: Subtree> Inner<C> {
    ghost use Rattle.h5w_bt_nodes.specs.Typed.{inner_of};

    /// Puts a record that the node itself does not have in the place of the one with its key, in the child at a place.
    fn replace_below(&mut self, at: usize, item: Record)
        requires shallow { suc C.depth ≤ 3 }
        requires shape { IsShape (suc C.depth) (capacity_of (suc C.depth)) (inner_of C.depth C.tree self.old) }
        requires place { at ≡ rank item.key self.old.records.items }
        requires new { address_in item.key self.old.records.items ≡ None }
        requires there { is_some (found (suc C.depth) item.key (inner_of C.depth C.tree self.old)) ≡ true }
        ensures { inner_of C.depth C.tree self.new ≡ put (suc C.depth) item (inner_of C.depth C.tree self.old) }
    {
        self.children[at].replace(item);
        self.recount();
    }
}

impl<C: Subtree> Subtree for Inner<C> {
    ghost use Rattle.std.specs.Prelude.{suc};
    ghost use Rattle.h5w_bt_nodes.specs.Typed.{inner_of, IsRoomyInner};

    ghost depth = { suc C.depth };

    ghost tree = { inner_of C.depth C.tree };

    ghost roomy = { IsRoomyInner };

    fn depth() -> u64 {
        C::depth() + 1
    }

    fn blank(alloc: Global) -> Inner<C> {
        Inner {
            records: Vec::new(alloc),
            children: Vec::new(alloc),
            total: 0,
            place: UNDEFINED,
            clean: false,
        }
    }

    fn with_room(alloc: Global) -> Result<Inner<C>, OutOfMemory> {
        let records = Vec::with_capacity(alloc, 85)?;
        let children = Vec::with_capacity(alloc, 86)?;
        Ok(Inner {
            records,
            children,
            total: 0,
            place: UNDEFINED,
            clean: false,
        })
    }

    fn len(&self) -> usize {
        self.records.len()
    }

    fn total(&self) -> u64 {
        self.total
    }

    fn find(&self, key: Key) -> Option<u64> {
        let (at, there) = search(&self.records, key);
        if there.is_some() {
            there
        } else {
            self.children[at].find(key)
        }
    }

    fn is_full_path(&self, key: Key) -> bool {
        let (at, _) = search(&self.records, key);
        if self.records.len() as u64 == capacity(C::depth() + 1) {
            self.children[at].is_full_path(key)
        } else {
            false
        }
    }

    fn put(&mut self, item: Record) -> Result<(), OutOfMemory> {
        let (at, there) = search(&self.records, item.key);
        if there.is_none() {
            return self.put_below(at, item);
        }
        put_record(&mut self.records, item)?;
        self.clean = false;
        Ok(())
    }

    fn replace(&mut self, item: Record) {
        let (at, there) = search(&self.records, item.key);
        if there.is_none() {
            self.replace_below(at, item);
            return;
        }
        replace_record(&mut self.records, item);
        self.clean = false;
    }

    fn divide(&mut self, right: Inner<C>) -> (Record, Inner<C>) {
        let Inner {
            mut records,
            mut children,
            ..
        } = right;
        let at = capacity(C::depth() + 1) as usize / 2;
        move_tail(&mut self.children, at + 1, &mut children);
        move_tail(&mut self.records, at + 1, &mut records);
        let middle = self.records.take_last();
        self.recount();
        let total = count(records.len(), &children);
        let right = Inner {
            records,
            children,
            total,
            place: UNDEFINED,
            clean: false,
        };
        (middle, right)
    }

    fn stood(&self, out: &mut Vec<u64>) -> Result<(), OutOfMemory> {
        if self.clean {
            return Ok(());
        }
        stood_below(&self.children, out)?;
        out.push(self.place)?;
        Ok(())
    }

    fn write(&self, moves: &[Move], out: &mut Vec<Write>) -> Result<(usize, Child), OutOfMemory> {
        if self.clean {
            return Ok((0, self.pointer(self.place)));
        }
        let (below, children) = write_below(&self.children, moves, out)?;
        let place = moves[below].new;
        put_inner(&self.records, children, C::depth() + 1, place, out)?;
        Ok((below + 1, self.pointer(place)))
    }

    fn settle(&mut self, moves: &[Move]) -> usize {
        if self.clean {
            return 0;
        }
        let below = settle_below(&mut self.children, moves);
        self.place = moves[below].new;
        self.clean = true;
        below + 1
    }

    fn copy(&self) -> Result<Inner<C>, OutOfMemory> {
        Ok(Inner {
            records: copied(&self.records)?,
            children: copy_below(&self.children)?,
            total: self.total,
            place: self.place,
            clean: self.clean,
        })
    }
}
