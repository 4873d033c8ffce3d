//! What leaves and inner nodes have in common.

ghost use Rattle.std.specs.Prelude.{◌≡◌, ℕ, suc, ◌+◌, ◌<◌, ◌≤◌, ◌^◌, ◌++◌, true, is_some, length, IfOk, OnOk, OnErr};
ghost use Rattle.std.specs.List.{All};
ghost use Rattle.h5w_model.specs.Trees.{capacity_of};
ghost use Rattle.h5w_bt_nodes.specs.Nodes.{found, records_of, total_of};
ghost use Rattle.h5w_bt_nodes.specs.Puts.{is_full_path, is_over, left_of, middle_of, put, right_of};
ghost use Rattle.h5w_bt_nodes.specs.Shapes.{IsShape};
ghost use Rattle.h5w_bt_nodes.specs.Blocks.{AllRead, changes, news, placed, pointer_of, stood, writes_of, written};
ghost use Rattle.h5w_bt.specs.Parts.{child_of};

use h5w_bt::{Child, Key, Record};
use h5w_cache::Move;
use h5w_model::{OutOfMemory, Write};
use std::alloc::Global;

/// A tree of one depth: a leaf, or a node whose children are trees of the depth below.
pub trait Subtree: Drop {
    ghost use Rattle.std.specs.Prelude.{ℕ};
    ghost use Rattle.h5w_bt_nodes.specs.Nodes.{Tree};

    ghost depth: { ℕ };

    ghost tree: { Self → Tree depth };

    // without records, and with room for those that a division moves
    ghost roomy: { Self → Type 0 };

    /// How deep it is.
    fn depth() -> u64
        requires { depth ≤ 3 }
        ensures { result ≡ depth };

    /// A node without records, which takes no memory.
    fn blank(alloc: Global) -> Self;

    /// A node without records, with room for the half of a node.
    fn with_room(alloc: Global) -> Result<Self, OutOfMemory>
        ensures { IfOk result roomy };

    /// How many records the node itself has.
    fn len(&self) -> usize
        ensures { result ≡ length (records_of depth (tree self.now)) };

    /// How many records are under it, its own included.
    fn total(&self) -> u64
        ensures { result ≡ total_of depth (tree self.now) };

    /// The address of the record with this key.
    fn find(&self, key: Key) -> Option<u64>
        requires { IsShape depth (capacity_of depth) (tree self.now) }
        ensures { result ≡ found depth key (tree self.now) };

    /// Whether each node on the way to this key is full.
    fn is_full_path(&self, key: Key) -> bool
        requires shallow { depth ≤ 3 }
        requires shape { IsShape depth (capacity_of depth) (tree self.now) }
        ensures { result ≡ is_full_path depth key (tree self.now) };

    /// Puts a record to its place, or in the place of the one with its key. Afterwards the node itself may have a record too many.
    fn put(&mut self, item: Record) -> Result<(), OutOfMemory>
        requires shallow { depth ≤ 3 }
        requires shape { IsShape depth (capacity_of depth) (tree self.old) }
        ensures ok { OnOk result (tree self.new ≡ put depth item (tree self.old)) }
        ensures err { OnErr result (tree self.new ≡ tree self.old) };

    /// Puts a record in the place of the one with its key, which is there. Takes no memory.
    fn replace(&mut self, item: Record)
        requires shallow { depth ≤ 3 }
        requires shape { IsShape depth (capacity_of depth) (tree self.old) }
        requires there { is_some (found depth item.key (tree self.old)) ≡ true }
        ensures { tree self.new ≡ put depth item (tree self.old) };

    /// Divides a node that has a record too many: answers the record in the middle, and those right of it in the other node.
    fn divide(&mut self, right: Self) -> (Record, Self)
        requires shallow { depth ≤ 3 }
        requires shape { IsShape depth (suc (capacity_of depth)) (tree self.old) }
        requires over { is_over depth (tree self.old) ≡ true }
        requires room { roomy right }
        ensures left { tree self.new ≡ left_of depth (tree self.old) }
        ensures middle { result.0 ≡ middle_of depth (tree self.old) }
        ensures right { tree result.1 ≡ right_of depth (tree self.old) };

    /// Adds the places that its changed nodes leave, children first.
    fn stood(&self, out: &mut Vec<u64>) -> Result<(), OutOfMemory>
        ensures { OnOk result (out.new.items ≡ out.old.items ++ stood depth (tree self.now)) };

    /// Adds the writes of its changed nodes at the new places of these moves, children first. Answers how many nodes that are, and the
    /// pointer to it then.
    fn write(&self, moves: &[Move], out: &mut Vec<Write>) -> Result<(usize, Child), OutOfMemory>
        requires shallow { depth ≤ 3 }
        requires shape { IsShape depth (capacity_of depth) (tree self.now) }
        requires enough { changes depth (tree self.now) ≤ length moves.now }
        requires ends { All (λ (p : ℕ). p + 2048 < 2 ^ 64) (news moves.now) }
        ensures count { IfOk result (λ r. r.0 ≡ changes depth (tree self.now)) }
        ensures pointer { IfOk result (λ r. child_of r.1 ≡ pointer_of depth (placed depth (news moves.now) (tree self.now))) }
        ensures written { OnOk result (out.new.items ≡ out.old.items ++ writes_of (written depth (news moves.now) (tree self.now))) }
        ensures reads { OnOk result (AllRead depth (news moves.now) (tree self.now)) };

    /// Its changed nodes stand at the new places of these moves from now on, and are clean. Answers how many they are.
    fn settle(&mut self, moves: &[Move]) -> usize
        requires { changes depth (tree self.old) ≤ length moves.now }
        ensures count { result ≡ changes depth (tree self.old) }
        ensures placed { tree self.new ≡ placed depth (news moves.now) (tree self.old) };

    /// A copy.
    fn copy(&self) -> Result<Self, OutOfMemory>
        ensures { IfOk result (λ t. tree t ≡ tree self.now) };
}
