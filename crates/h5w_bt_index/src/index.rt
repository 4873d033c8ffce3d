ghost use Rattle.std.specs.Prelude.{◌≡◌, ◌≤◌, [], length, true, None, IsTrue, ◌↔◌, IfErr, IfOk, OnOk, OnErr, if◌then◌else◌};
ghost use Rattle.std.specs.Option.{is_some, unwrap_or};
ghost use Rattle.h5w_model.specs.Numbers.{undefined};
ghost use Rattle.h5w_model.specs.Tables.{key_equal};
ghost use Rattle.h5w_bt_index.specs.Index.{IsBlocked, IsClean, IsDeep, IsHalfFull, IsIndex, KeepsShares, IsReplaced, IsShaped, IsThere, address_of, defined, found_address, found_by, index_of, inserted, no_tree, records};
ghost use Rattle.h5w_cache.specs.Plans.{IfFull};
ghost use Rattle.h5w_bt.specs.Fields.{bthd_of};
ghost use Rattle.h5w_bt.specs.Parts.{IsHeader};
ghost use Rattle.h5w_bt_index.specs.Held.{header_place, view_of};
ghost use Rattle.h5w_bt_nodes.specs.Blocks.{changes};
ghost use Rattle.h5w_bt_index.specs.Plans.{HasNoPlace, IsBegun, IsTreePlan, TookSome, WasBegun, header_of};
ghost use Rattle.h5w_bt_index.specs.Marks.{Part, clean_of};
ghost use Rattle.h5w_space.specs.Space.{Space};
ghost use Rattle.h5w_bt_nodes.specs.Nodes.{records_of, total_of};
ghost use Rattle.h5w_bt_nodes.specs.Puts.{put_record};

use crate::error::InsertError;
use crate::plan::{NodeFlush, begin, finish};
use crate::root::Root;
use h5w_bt::{Bthd, Key, Record};
use h5w_bt_nodes::Leaf;
use h5w_bytes::UNDEFINED;
use h5w_cache::{Plan, PlanError};
use h5w_model::OutOfMemory;
use h5w_space::Places;
use std::alloc::Global;

/// The address that was found; none where it is undefined.
fn given(found: Option<u64>) -> Option<u64>
    ensures { result ≡ defined (unwrap_or found undefined) }
{
    match found {
        Some(address) if address != UNDEFINED => Some(address),
        _ => None,
    }
}

/// The addresses of a dataset's chunks by their keys: a version 2 B-tree of depth 0 to 3.
///
/// Each call is safe on the tree of any file, and keeps its shape. Where keys rise and each node says how many records are under it, so they
/// do afterwards, and the tree is the map of its records.
#[derive(Drop)]
pub struct TreeIndex {
    root: Root,
    /// Where its header stands.
    header: u64,
    alloc: Global,
}

impl TreeIndex {
    /// The index of no chunk, whose header stands at place `header`. It is clean: who makes the file writes [`TreeIndex::header`] there.
    pub fn new(alloc: Global, header: u64) -> TreeIndex
        ensures tree { view_of result ≡ no_tree }
        ensures place { header_place result ≡ header }
        ensures shape { IsShaped (view_of result) }
        ensures index { IsIndex (view_of result) }
        ensures half { IsHalfFull (view_of result) }
    {
        let root = Leaf {
            records: Vec::new(alloc),
            place: UNDEFINED,
            clean: true,
        };
        TreeIndex {
            root: Root::Zero(root),
            header,
            alloc,
        }
    }

    /// The index of a tree that stands already: its root, with all that is under it, and where its header stands.
    pub fn standing(alloc: Global, header: u64, root: Root) -> TreeIndex
        requires { IsShaped (index_of root) }
        ensures tree { view_of result ≡ index_of root }
        ensures place { header_place result ≡ header }
    {
        TreeIndex {
            root,
            header,
            alloc,
        }
    }

    /// The root, with all that is under it.
    pub fn root(&self) -> &Root
        ensures { index_of result.now ≡ view_of self.now }
    {
        &self.root
    }

    /// How deep the tree is, as its header says.
    pub fn depth(&self) -> u64
        requires { IsShaped (view_of self.now) }
        ensures exact { result ≡ (view_of self.now).depth }
        ensures shallow { result ≤ 3 }
    {
        self.root.depth()
    }

    /// How many records the root has, as the header says.
    pub fn root_records(&self) -> usize
        ensures { result ≡ length (records_of (view_of self.now).depth (view_of self.now).root) }
    {
        self.root.len()
    }

    /// How many records the tree has, as the header says.
    pub fn total(&self) -> u64
        ensures said { result ≡ total_of (view_of self.now).depth (view_of self.now).root }
        ensures counted { IsIndex (view_of self.now) → result ≡ length (records (view_of self.now)) }
    {
        self.root.total()
    }

    /// What its header says.
    pub fn header(&self) -> Bthd
        requires { IsShaped (view_of self.now) }
        ensures exact { bthd_of result ≡ header_of (view_of self.now) }
        ensures form { IsHeader (bthd_of result) }
    {
        Bthd {
            depth: self.root.depth(),
            root: self.root.place(),
            records: self.root.len() as u64,
            total: self.root.total(),
        }
    }

    /// The address of the record of a key.
    fn find(&self, key: Key) -> Option<u64>
        requires { IsShaped (view_of self.now) }
        ensures { result ≡ found_by (view_of self.now) key }
    {
        self.root.find(key)
    }

    /// The address of a chunk; None where it has none.
    pub fn get(&self, key: Key) -> Option<u64>
        requires { IsShaped (view_of self.now) }
        ensures found { result ≡ defined (found_address (view_of self.now) key) }
        ensures exact { IsIndex (view_of self.now) → result ≡ defined (address_of (view_of self.now) key) }
    {
        given(self.find(key))
    }

    /// Whether no record of the key is found, and the tree has depth 3 and no room on the way to the key: a record more would make a tree
    /// of depth 4.
    pub fn is_deep(&self, key: Key) -> bool
        requires { IsShaped (view_of self.now) }
        ensures blocked { IsTrue result ↔ IsBlocked (view_of self.now) key }
        ensures deep { IsIndex (view_of self.now) → (IsTrue result ↔ IsDeep (view_of self.now) key) }
    {
        if !self.root.is_deepest(key) {
            return false;
        }
        self.find(key).is_none()
    }

    /// Gives a chunk an address. Deep comes exactly where no record of the key is found, and the tree has depth 3 and no room on the way to
    /// the key: then, and where memory ends, nothing changed.
    pub fn insert(&mut self, key: Key, address: u64) -> Result<(), InsertError>
        requires shape { IsShaped (view_of self.old) }
        requires defined { address ≡ undefined → ⊥ }
        ensures shape { IsShaped (view_of self.new) }
        ensures index { IsIndex (view_of self.old) → IsIndex (view_of self.new) }
        ensures ok { OnOk result ((view_of self.new) ≡ inserted (record { address = address; key = key }) (view_of self.old)) }
        ensures map { IsIndex (view_of self.old) → OnOk result ((k : Key) → address_of (view_of self.new) k ≡ (if key_equal key k then address else address_of (view_of self.old) k)) }
        ensures sorted { IsIndex (view_of self.old) → OnOk result (records (view_of self.new) ≡ put_record (record { address = address; key = key }) (records (view_of self.old))) }
        ensures there { IsIndex (view_of self.old) → OnOk result (IsThere (view_of self.new) key) }
        ensures shares { OnOk result (KeepsShares (view_of self.old) (view_of self.new)) }
        ensures clean { OnOk result ((p : Part) → IsClean p (view_of self.new) → IsClean p (view_of self.old)) }
        ensures blocked { IfErr result (λ e. e ≡ InsertError.Deep → IsBlocked (view_of self.old) key) }
        ensures refused { IsBlocked (view_of self.old) key → result ≡ Err InsertError.Deep }
        ensures deep { IsIndex (view_of self.old) → (IsBlocked (view_of self.old) key ↔ IsDeep (view_of self.old) key) }
        ensures kept { OnErr result ((view_of self.new) ≡ (view_of self.old)) }
        ensures place { header_place self.new ≡ header_place self.old }
    {
        if self.is_deep(key) {
            return Err(InsertError::Deep);
        }
        self.root.put(Record { address, key }, self.alloc)?;
        Ok(())
    }

    /// Puts a record in the place of the one with its key; where none is found, nothing changes. Takes no memory.
    fn replace(&mut self, item: Record)
        requires shape { IsShaped (view_of self.old) }
        requires there { IsIndex (view_of self.old) → IsThere (view_of self.old) item.key }
        ensures shape { IsShaped (view_of self.new) }
        ensures found { is_some (found_by (view_of self.old) item.key) ≡ true → view_of self.new ≡ inserted item (view_of self.old) }
        ensures absent { found_by (view_of self.old) item.key ≡ None → view_of self.new ≡ view_of self.old }
        ensures exact { IsIndex (view_of self.old) → view_of self.new ≡ inserted item (view_of self.old) }
        ensures replaced { IsIndex (view_of self.old) → IsReplaced item (view_of self.old) (view_of self.new) }
        ensures place { header_place self.new ≡ header_place self.old }
    {
        if self.find(item.key).is_none() {
            return; // keys that do not rise: no way leads to the record
        }
        self.root.replace(item);
    }

    /// A chunk, of whose key there is a record, has no address from now on, and each other one that which it had. The record stays. Where
    /// keys do not rise, and no record of the key is found, nothing changes.
    ///
    /// It takes no memory, and cannot fail.
    pub fn unset(&mut self, key: Key)
        requires shape { IsShaped (view_of self.old) }
        requires there { IsIndex (view_of self.old) → IsThere (view_of self.old) key }
        ensures shape { IsShaped (view_of self.new) }
        ensures found { is_some (found_by (view_of self.old) key) ≡ true → view_of self.new ≡ inserted (record { address = undefined; key = key }) (view_of self.old) }
        ensures absent { found_by (view_of self.old) key ≡ None → view_of self.new ≡ view_of self.old }
        ensures exact { IsIndex (view_of self.old) → view_of self.new ≡ inserted (record { address = undefined; key = key }) (view_of self.old) }
        ensures unset { IsIndex (view_of self.old) → IsReplaced (record { address = undefined; key = key }) (view_of self.old) (view_of self.new) }
        ensures place { header_place self.new ≡ header_place self.old }
    {
        self.replace(Record {
            address: UNDEFINED,
            key,
        });
    }

    /// Whether no node changed since it was written. Then the plan of the changed nodes writes nothing, and leaves the tree and all
    /// places as they are.
    pub fn is_clean(&self) -> bool
        ensures clean { result ≡ clean_of (view_of self.now).depth (view_of self.now).root }
        ensures planned { IsTrue result → (s : Space) → IsTreePlan (header_place self.now) (view_of self.now) s [] [] [] (view_of self.now) s }
    {
        self.root.is_clean()
    }

    /// Begins the plan of all changed nodes. They take new places, and those that they had are retired, where they are live.
    ///
    /// `begin` does all that can be refused, and changes nothing but the places that it is handed; `finish` cannot fail, and makes it so. For
    /// a tree that is places, memory, and the bytes of the nodes, since to spell them takes memory.
    ///
    /// After a refusal the places are of no use: some are taken.
    pub fn begin(&self, places: &mut Places) -> Result<NodeFlush, PlanError>
        requires { IsShaped (view_of self.now) }
        ensures begun { IfOk result (λ b. IsBegun (header_place self.now) (view_of self.now) places.old b places.new) }
        // the first node in turn that has no place
        ensures full { IfErr result (λ e. IfFull e (HasNoPlace (changes (view_of self.now).depth (view_of self.now).root) places.old)) }
        // some nodes have their places then, and none is retired
        ensures left { OnErr result (TookSome places.old places.new) }
    {
        begin(&self.root, self.header, self.alloc, places)
    }

    /// The writes of all changed nodes and of the header, of a plan that was begun of this tree: nodes at new places, children before their
    /// parent, the header where it stands. All is clean from then on.
    ///
    /// It cannot fail, as [`TreeIndex::begin`] did all that can.
    pub fn finish(&mut self, begun: NodeFlush) -> Plan
        requires shape { IsShaped (view_of self.old) }
        requires begun { WasBegun (header_place self.old) (view_of self.old) begun }
        // on whichever places it was begun
        ensures planned { (s t : Space) → IsBegun (header_place self.old) (view_of self.old) s begun t
            → IsTreePlan (header_place self.old) (view_of self.old) s result.moves.items result.copies.items result.in_place.items (view_of self.new) t }
        ensures shape { IsShaped (view_of self.new) }
        ensures index { IsIndex (view_of self.old) → IsIndex (view_of self.new) }
        ensures shares { KeepsShares (view_of self.old) (view_of self.new) }
        ensures place { header_place self.new ≡ header_place self.old }
        // as it was begun
        ensures moves { result.moves.items ≡ begun.moves }
        ensures copies { result.copies.items ≡ begun.copies }
        ensures in_place { result.in_place.items ≡ begun.in_place }
    {
        finish(&mut self.root, begun)
    }

    /// A copy.
    pub fn copy(&self) -> Result<TreeIndex, OutOfMemory>
        ensures tree { IfOk result (λ t. view_of t ≡ view_of self.now) }
        ensures place { IfOk result (λ t. header_place t ≡ header_place self.now) }
    {
        Ok(TreeIndex {
            root: self.root.copy()?,
            header: self.header,
            alloc: self.alloc,
        })
    }
}
