//! The root of a tree of depth 0 to 3.

ghost use Rattle.std.specs.Prelude.{◌≡◌, ℕ, ◌+◌, ◌<◌, ◌≤◌, ◌^◌, ◌++◌, true, length, IfOk, is_some, IsTrue, ◌↔◌, OnOk, OnErr};
ghost use Rattle.std.specs.List.{All};
ghost use Rattle.h5w_bt_index.specs.Index.{IsShaped, index_of, inserted};
ghost use Rattle.h5w_bt_nodes.specs.Nodes.{found, records_of, total_of};
ghost use Rattle.h5w_bt_nodes.specs.Puts.{is_full_path, is_over, put};
ghost use Rattle.h5w_bt_nodes.specs.Blocks.{AllRead, changes, news, place_of, placed, pointer_of, stood, writes_of, written};
ghost use Rattle.h5w_bt_index.specs.Plans.{planned};
ghost use Rattle.h5w_bt_index.specs.Marks.{clean_of};
ghost use Rattle.h5w_bt.specs.Parts.{child_of};

use h5w_bt::{Child, Key, Record};
use h5w_bt_nodes::{Inner, Leaf, Subtree, put_at_root};
use h5w_cache::Move;
use h5w_model::{OutOfMemory, Write};
use std::alloc::Global;

/// The root, by the tree's depth.
#[derive(Drop)]
pub enum Root {
    Zero(Leaf),
    One(Inner<Leaf>),
    Two(Inner<Inner<Leaf>>),
    Three(Inner<Inner<Inner<Leaf>>>),
}

impl Root {
    /// How deep the tree is.
    pub fn depth(&self) -> u64
        ensures { result ≡ (index_of self.now).depth }
    {
        match self {
            Root::Zero(_) => 0,
            Root::One(_) => 1,
            Root::Two(_) => 2,
            Root::Three(_) => 3,
        }
    }

    /// How many records the root has.
    pub fn len(&self) -> usize
        ensures { result ≡ length (records_of (index_of self.now).depth (index_of self.now).root) }
    {
        match self {
            Root::Zero(root) => root.len(),
            Root::One(root) => root.len(),
            Root::Two(root) => root.len(),
            Root::Three(root) => root.len(),
        }
    }

    /// How many records the tree has.
    pub fn total(&self) -> u64
        ensures { result ≡ total_of (index_of self.now).depth (index_of self.now).root }
    {
        match self {
            Root::Zero(root) => root.total(),
            Root::One(root) => root.total(),
            Root::Two(root) => root.total(),
            Root::Three(root) => root.total(),
        }
    }

    /// The address of the record with this key.
    pub fn find(&self, key: Key) -> Option<u64>
        requires { IsShaped (index_of self.now) }
        ensures { result ≡ found (index_of self.now).depth key (index_of self.now).root }
    {
        match self {
            Root::Zero(root) => root.find(key),
            Root::One(root) => root.find(key),
            Root::Two(root) => root.find(key),
            Root::Three(root) => root.find(key),
        }
    }

    /// Whether the tree has depth 3 and each node on the way to this key is full.
    pub fn is_deepest(&self, key: Key) -> bool
        requires { IsShaped (index_of self.now) }
        ensures { IsTrue result ↔ (((index_of self.now).depth ≡ 3) × (is_full_path (index_of self.now).depth key (index_of self.now).root ≡ true)) }
    {
        match self {
            Root::Three(root) => root.is_full_path(key),
            _ => false,
        }
    }

    /// Puts a record to its place, or in the place of the one with its key.
    pub fn put(&mut self, item: Record, alloc: Global) -> Result<(), OutOfMemory>
        requires shape { IsShaped (index_of self.old) }
        requires shallow { is_over (index_of self.old).depth (put (index_of self.old).depth item (index_of self.old).root) ≡ true → (index_of self.old).depth ≤ 2 }
        ensures ok { OnOk result (index_of self.new ≡ inserted item (index_of self.old)) }
        ensures err { OnErr result (index_of self.new ≡ index_of self.old) }
    {
        match self {
            Root::Zero(root) => {
                if let Some(above) = put_at_root(root, item, alloc)? {
                    *self = Root::One(above);
                }
                Ok(())
            }
            Root::One(root) => {
                if let Some(above) = put_at_root(root, item, alloc)? {
                    *self = Root::Two(above);
                }
                Ok(())
            }
            Root::Two(root) => {
                if let Some(above) = put_at_root(root, item, alloc)? {
                    *self = Root::Three(above);
                }
                Ok(())
            }
            Root::Three(root) => root.put(item),
        }
    }

    /// Puts a record in the place of the one with its key, which is there. Takes no memory.
    pub fn replace(&mut self, item: Record)
        requires shape { IsShaped (index_of self.old) }
        requires there { is_some (found (index_of self.old).depth item.key (index_of self.old).root) ≡ true }
        ensures { index_of self.new ≡ inserted item (index_of self.old) }
    {
        match self {
            Root::Zero(root) => root.replace(item),
            Root::One(root) => root.replace(item),
            Root::Two(root) => root.replace(item),
            Root::Three(root) => root.replace(item),
        }
    }

    /// Where the root stands, UNDEFINED while it was never written.
    pub fn place(&self) -> u64
        ensures { result ≡ place_of (index_of self.now).depth (index_of self.now).root }
    {
        match self {
            Root::Zero(root) => root.place,
            Root::One(root) => root.place,
            Root::Two(root) => root.place,
            Root::Three(root) => root.place,
        }
    }

    /// Whether the root did not change, and so no node.
    pub fn is_clean(&self) -> bool
        ensures { result ≡ clean_of (index_of self.now).depth (index_of self.now).root }
    {
        match self {
            Root::Zero(root) => root.clean,
            Root::One(root) => root.clean,
            Root::Two(root) => root.clean,
            Root::Three(root) => root.clean,
        }
    }

    /// Adds the places that changed nodes leave, children first.
    pub fn stood(&self, out: &mut Vec<u64>) -> Result<(), OutOfMemory>
        ensures { OnOk result (out.new.items ≡ out.old.items ++ stood (index_of self.now).depth (index_of self.now).root) }
    {
        match self {
            Root::Zero(root) => root.stood(out),
            Root::One(root) => root.stood(out),
            Root::Two(root) => root.stood(out),
            Root::Three(root) => root.stood(out),
        }
    }

    /// Adds the writes of changed nodes at the new places of these moves, children first. Answers how many nodes that are, and the
    /// pointer to the root then.
    pub fn write(&self, moves: &[Move], out: &mut Vec<Write>) -> Result<(usize, Child), OutOfMemory>
        requires shape { IsShaped (index_of self.now) }
        requires enough { changes (index_of self.now).depth (index_of self.now).root ≤ length moves.now }
        requires ends { All (λ (p : ℕ). p + 2048 < 2 ^ 64) (news moves.now) }
        ensures pointer { IfOk result (λ r. child_of r.1 ≡ pointer_of (index_of self.now).depth (placed (index_of self.now).depth (news moves.now) (index_of self.now).root)) }
        ensures written { OnOk result (out.new.items ≡ out.old.items ++ writes_of (written (index_of self.now).depth (news moves.now) (index_of self.now).root)) }
        ensures reads { OnOk result (AllRead (index_of self.now).depth (news moves.now) (index_of self.now).root) }
    {
        match self {
            Root::Zero(root) => root.write(moves, out),
            Root::One(root) => root.write(moves, out),
            Root::Two(root) => root.write(moves, out),
            Root::Three(root) => root.write(moves, out),
        }
    }

    /// The changed nodes stand at the new places of these moves from now on, and are clean.
    pub fn settle(&mut self, moves: &[Move])
        requires { changes (index_of self.old).depth (index_of self.old).root ≤ length moves.now }
        ensures { index_of self.new ≡ planned (news moves.now) (index_of self.old) }
    {
        match self {
            Root::Zero(root) => {
                root.settle(moves);
            }
            Root::One(root) => {
                root.settle(moves);
            }
            Root::Two(root) => {
                root.settle(moves);
            }
            Root::Three(root) => {
                root.settle(moves);
            }
        }
    }

    /// A copy.
    pub fn copy(&self) -> Result<Root, OutOfMemory>
        ensures { IfOk result (λ r. index_of r ≡ index_of self.now) }
    {
        match self {
            Root::Zero(root) => Ok(Root::Zero(root.copy()?)),
            Root::One(root) => Ok(Root::One(root.copy()?)),
            Root::Two(root) => Ok(Root::Two(root.copy()?)),
            Root::Three(root) => Ok(Root::Three(root.copy()?)),
        }
    }
}
