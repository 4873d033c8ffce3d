//! Looks up one chunk among the blocks in place and those that are kept: a hit, or a miss.
ghost use Rattle.std.specs.Prelude.{◌≡◌, ◌+◌, ◌≤◌, ◌<◌, ℕ, get_or, true, None, IfSome, Result};
ghost use Rattle.h5w_model.specs.Numbers.{undefined};
ghost use Rattle.h5w_model.specs.Arrays.{super_block_of};
ghost use Rattle.h5w_model.specs.Programs.{Prog};
ghost use Rattle.h5w_model.specs.Tables.{Reading, address_behind, array_slot, data_slot, key_below, secondary_slot, super_block_of_first, tree_lookup, format_limits};
ghost use Rattle.h5w_model.specs.declared.refusal.ReadError.{ReadError};
ghost use Rattle.h5w_ea.specs.Fields.{eaib_of};
ghost use Rattle.h5w_lookup.specs.Seeking.{store_rest};
ghost use Rattle.h5w_model.specs.Trees.{capacity_of};
ghost use Rattle.h5w_lookup.specs.Slots.{key_of};

use crate::block::{DATA, SECOND, node_kind};
use crate::content::{LAST, Turn};
use crate::index::Index;
use crate::lookup::address_at;
use crate::span::Span;
use crate::store::Store;
use crate::wait::{DataWait, NodeWait, SecondWait, Wait};
use h5w_bt::{Key, is_below, node_len};
use h5w_bytes::UNDEFINED;
use h5w_ea::{Eaib, Place, first_super_block, place, sizes, slots_len};

/// What looking up a chunk in these blocks comes to. Nothing is refused: what is kept was found to be sound when it was looked at.
#[derive(Clone, Copy)]
pub enum Probe {
    /// The chunk's address, undefined where it is not there, and the keys behind it whose addresses the same leaf of a tree has.
    Hit(u64, Option<Span>),
    /// A block on the way to it is not kept, and is to be looked at first.
    Miss(Wait),
}

/// The key of chunk number `i`; so many keys stand side by side.
pub fn key_of(across: u64, i: usize) -> Key
    requires { 0 < across }
    ensures { result ≡ key_of across i }
{
    let i = i as u64;
    Key {
        i: i / across,
        j: i % across,
    }
}

/// The lower one of two keys.
fn lower(a: Key, b: Key) -> Key
    ensures { (k : Key) → key_below k result ≡ true → (key_below k a ≡ true) × (key_below k b ≡ true) }
{
    if is_below(&a, &b) { a } else { b }
}

impl Probe {
    ghost use Rattle.h5w_lookup.specs.Stores.{kept};
    ghost use Rattle.h5w_lookup.specs.Probes.{probed, span_of};
    ghost use Rattle.h5w_lookup.specs.Spans.{IsLed, IsSpan};
    ghost use Rattle.h5w_lookup.specs.Indexes.{IsIndexOf, in_place_of};

    /// A slot of the data block of `n` slots at `at`.
    pub fn data(store: &mut Store, at: u64, n: u64, slot: u64) -> Probe
        requires { n ≤ 1024 }
        ensures exact { (next : ℕ → Prog (Result Reading ReadError)) → probed (kept store.new) next result ≡ store_rest (kept store.old) (data_slot at n slot) next }
        ensures alone { span_of result ≡ None }
    {
        if at == UNDEFINED {
            return Probe::Hit(UNDEFINED, None);
        }
        let len = slots_len(n);
        let address = match store.look(DATA, at, len) {
            Some(content) => content.slot(slot as usize),
            None => return Probe::Miss(Wait::Data(DataWait { at, n, slot })),
        };
        store.touch(DATA, at, len);
        Probe::Hit(address, None)
    }

    /// A slot of data block `block` of the secondary block at `at`.
    fn second(store: &mut Store, at: u64, sblock: u32, block: u64, slot: u64) -> Probe
        requires { sblock ≤ 12 }
        ensures exact { (next : ℕ → Prog (Result Reading ReadError)) → probed (kept store.new) next result ≡ store_rest (kept store.old) (secondary_slot at sblock block slot) next }
        ensures alone { span_of result ≡ None }
    {
        if at == UNDEFINED {
            return Probe::Hit(UNDEFINED, None);
        }
        let (blocks, slots) = sizes(sblock);
        let len = slots_len(blocks);
        let address = match store.look(SECOND, at, len) {
            Some(content) => content.slot(block as usize),
            None => {
                return Probe::Miss(Wait::Second(SecondWait {
                    at,
                    sblock,
                    block,
                    slot,
                }));
            }
        };
        store.touch(SECOND, at, len);
        Probe::data(store, address, slots, slot)
    }

    /// A slot of data block `block` of the six that the index block names.
    fn direct(store: &mut Store, index: &Eaib, block: u64, slot: u64) -> Probe
        ensures exact { (next : ℕ → Prog (Result Reading ReadError)) → probed (kept store.new) next result ≡ store_rest (kept store.old) (data_slot (get_or (eaib_of index.now).first block undefined) (super_block_of (super_block_of_first block)).slots slot) next }
        ensures alone { span_of result ≡ None }
    {
        let (_, slots) = sizes(first_super_block(block));
        Probe::data(store, address_at(&index.first, block as usize), slots, slot)
    }

    /// The address of chunk number `i` of an array.
    fn array(store: &mut Store, index: &Eaib, i: u64) -> Probe
        requires { i < format_limits.array }
        ensures exact { (next : ℕ → Prog (Result Reading ReadError)) → probed (kept store.new) next result ≡ store_rest (kept store.old) (array_slot (eaib_of index.now) i) next }
        ensures alone { span_of result ≡ None }
    {
        match place(i) {
            Place::Index { slot } => { Probe::Hit(address_at(&index.slots, slot as usize), None) }
            Place::Direct { block, slot } => Probe::direct(store, index, block, slot),
            Place::Second {
                sblock,
                block,
                slot,
            } => {
                let at = address_at(&index.second, (sblock - 4) as usize);
                Probe::second(store, at, sblock as u32, block, slot)
            }
        }
    }

    /// The address of a key in a tree, from the node of a depth at `at` on, which has `n` records. The way to it is that of the keys
    /// behind it and before `bound`.
    #[tactic(auto, using(crate::proofs::NodeLemmas::few_records))]
    pub fn node(store: &mut Store, depth: u64, key: Key, at: u64, n: u64, bound: Key) -> Probe
        requires shallow { depth ≤ 3 }
        requires few { n ≤ capacity_of depth }
        ensures exact { (next : ℕ → Prog (Result Reading ReadError)) → probed (kept store.new) next result ≡ store_rest (kept store.old) (tree_lookup depth key at n) next }
        ensures ahead { IfSome (span_of result) (IsLed depth key at n bound (kept store.old) (kept store.new)) }
    {
        let (kind, len) = (node_kind(depth), node_len(depth, n));
        let turn = match store.look(kind, at, len) {
            Some(content) => content.turn(depth, &key),
            None => return Probe::Miss(Wait::Node(NodeWait { depth, key, at, n })),
        };
        store.touch(kind, at, len);
        match turn {
            Turn::Found(address) => Probe::Hit(address, Span::of(depth, key, at, n, bound)),
            Turn::Under(child, below) => {
                let (place, records, bound) = (child.address, child.records, lower(below, bound));
                Probe::node(store, depth - 1, key, place, records, bound)
            }
        }
    }

    /// The address of a key, behind the blocks in place.
    fn behind(store: &mut Store, index: &Index, key: Key) -> Probe
        requires { IsIndexOf (key.i + 1) index.now }
        ensures exact { (next : ℕ → Prog (Result Reading ReadError)) → probed (kept store.new) next result ≡ store_rest (kept store.old) (address_behind (in_place_of index.now) key) next }
        ensures ahead { IfSome (span_of result) (IsSpan (kept store.new) (in_place_of index.now)) }
    {
        match index {
            Index::Nowhere => Probe::Hit(UNDEFINED, None),
            Index::Array(block) => Probe::array(store, block, key.i),
            Index::Tree(tree) => {
                Probe::node(store, tree.depth, key, tree.root, tree.records, LAST)
            }
        }
    }

    /// The address of chunk number `i`; so many keys stand side by side.
    pub fn chunk(store: &mut Store, index: &Index, across: u64, i: usize) -> Probe
        requires indexed { IsIndexOf (i + 1) index.now }
        requires some { 0 < across }
        ensures exact { (next : ℕ → Prog (Result Reading ReadError)) → probed (kept store.new) next result ≡ store_rest (kept store.old) (address_behind (in_place_of index.now) (key_of across i)) next }
        ensures ahead { IfSome (span_of result) (IsSpan (kept store.new) (in_place_of index.now)) }
    {
        Probe::behind(store, index, key_of(across, i))
    }
}
