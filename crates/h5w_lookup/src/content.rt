//! What the bytes of a block behind those in place say.
ghost use Rattle.std.specs.Prelude.{◌≡◌, ◌+◌, ◌-◌, ◌≤◌, ◌++◌, ℕ, Result, length, take, drop, false, get_or, map, OnOk};
ghost use Rattle.std.specs.List.{All};
ghost use Rattle.h5w_model.specs.Numbers.{undefined};
ghost use Rattle.h5w_model.specs.Programs.{Prog};
ghost use Rattle.h5w_model.specs.Tables.{in_leaf, in_node, key_below};
ghost use Rattle.h5w_model.specs.Trees.{ChildFields, capacity_of};
ghost use Rattle.h5w_model.specs.declared.refusal.ReadError.{ReadError};
ghost use Rattle.h5w_bt.specs.Parts.{record_of, child_of};
ghost use Rattle.h5w_lookup.specs.Turns.{turned_by, ForChild, IsSameTurn};

use crate::addresses::Addresses;
use h5w_bt::{Btin, Child, Key, Record, Records, is_below, is_same};
use h5w_bytes::UNDEFINED;
use h5w_model::OutOfMemory;

/// What a block says, and its bytes.
#[derive(Drop)]
pub enum Content {
    /// The addresses in a data block or a secondary block of an array, by its bytes.
    Slots(Addresses),
    /// The records of a leaf of a tree.
    Leaf(Records, Vec<u8>),
    /// The records of an inner node, and its children.
    Inner(Btin, Vec<u8>),
}

/// How the way to a key goes on from a node.
#[derive(Clone, Copy)]
pub enum Turn {
    /// It ends with the chunk's address, undefined where it is not there.
    Found(u64),
    /// It goes on under this child, as do the ways to the keys behind that one and before this one.
    Under(Child, Key),
}

/// A key that is not before any chunk's.
pub const LAST: Key = Key {
    i: u64::MAX,
    j: u64::MAX,
};

/// The address of a key among the records of a leaf: the first record that is not below the key decides.
fn among_records(records: &[Record], key: &Key) -> u64
    ensures { result ≡ in_leaf key.now (map record_of records.now) }
{
    for r in records {
        if !is_below(&r.key, key) {
            return if is_same(&r.key, key) {
                r.address
            } else {
                UNDEFINED
            };
        }
    }
    UNDEFINED
}

/// The place of the first record from one on that is not below a key, and the key's address among these.
pub fn among_from(records: &[Record], from: usize, key: &Key) -> (usize, u64)
    ensures same { (k : Key) → key_below k key.now ≡ false → in_leaf k (drop result.0 (map record_of records.now)) ≡ in_leaf k (drop from (map record_of records.now)) }
    ensures exact { result.1 ≡ in_leaf key.now (drop from (map record_of records.now)) }
{
    for i in from..records.len() {
        let r = &records[i];
        if !is_below(&r.key, key) {
            return if is_same(&r.key, key) {
                (i, r.address)
            } else {
                (i, UNDEFINED)
            };
        }
    }
    (records.len(), UNDEFINED)
}

/// How the way to a key goes on at the first record of an inner node that is not below the key.
fn among_children(records: &[Record], children: &[Child], key: &Key) -> Turn
    ensures exact { (go : ChildFields → Prog (Result ℕ ReadError)) → turned_by go result ≡ in_node go key.now (map record_of records.now) (map child_of children.now) }
    ensures kept { (most : ℕ) → All (λ (c : ChildFields). c.records ≤ most) (map child_of children.now) → ForChild (λ c. c.records ≤ most) result }
    ensures ahead { IsSameTurn key.now (map record_of records.now) (map child_of children.now) result }
{
    for (i, child) in children.iter().enumerate() {
        if records.len() <= i {
            return Turn::Under(*child, LAST);
        }
        let r = &records[i];
        if !is_below(&r.key, key) {
            return if is_same(&r.key, key) {
                Turn::Found(r.address)
            } else {
                Turn::Under(*child, r.key)
            };
        }
    }
    Turn::Found(UNDEFINED)
}

impl Content {
    ghost use Rattle.h5w_lookup.specs.Contents.{slots_in, records_in, inner_in};
    ghost use Rattle.h5w_lookup.specs.Turning.{turned, turning};

    /// How many slots it has.
    pub fn slots(&self) -> usize
        ensures { result ≡ length (slots_in self.now) }
    {
        match self {
            Content::Slots(addresses) => addresses.n,
            _ => 0,
        }
    }

    /// The address in a slot; undefined behind the last, or where it has no slots.
    pub fn slot(&self, i: usize) -> u64
        ensures { result ≡ get_or (slots_in self.now) i undefined }
    {
        match self {
            Content::Slots(addresses) => addresses.get(i),
            _ => UNDEFINED,
        }
    }

    /// Puts the addresses in `count` of its slots, from slot `first` on, behind others.
    pub fn put_slots(
        &self,
        first: usize,
        count: usize,
        out: &mut Vec<u64>,
    ) -> Result<(), OutOfMemory>
        requires { first + count ≤ length (slots_in self.now) }
        ensures { OnOk result (out.new.items ≡ out.old.items ++ take count (drop first (slots_in self.now))) }
    {
        match self {
            Content::Slots(addresses) => addresses.put(first, count, out),
            _ => Ok(()),
        }
    }

    /// The records of a leaf; none of another block.
    pub fn records(&self) -> &[Record]
        ensures { map record_of result.now ≡ records_in self.now }
    {
        match self {
            Content::Leaf(records, _) => records.as_slice(),
            _ => &[],
        }
    }

    /// The address of a key in a leaf; undefined in another block.
    fn leaf(&self, key: &Key) -> u64
        ensures { result ≡ in_leaf key.now (records_in self.now) }
    {
        match self {
            Content::Leaf(records, _) => among_records(records.as_slice(), key),
            _ => UNDEFINED,
        }
    }

    /// How the way to a key goes on in an inner node; it ends in another block.
    fn inner(&self, key: &Key) -> Turn
        ensures exact { (go : ChildFields → Prog (Result ℕ ReadError)) → turned_by go result ≡ in_node go key.now (inner_in self.now).records (inner_in self.now).children }
        ensures kept { (most : ℕ) → All (λ (c : ChildFields). c.records ≤ most) (inner_in self.now).children → ForChild (λ c. c.records ≤ most) result }
        ensures ahead { IsSameTurn key.now (inner_in self.now).records (inner_in self.now).children result }
    {
        match self {
            Content::Inner(node, _) => among_children(
                node.records.as_slice(),
                node.children.as_slice(),
                key,
            ),
            _ => Turn::Found(UNDEFINED),
        }
    }

    /// How the way to a key goes on in a node of this depth.
    pub fn turn(&self, depth: u64, key: &Key) -> Turn
        requires { (d : ℕ) → depth ≡ d + 1 → All (λ (c : ChildFields). c.records ≤ capacity_of d) (inner_in self.now).children }
        ensures exact { turned depth key.now result ≡ turning depth key.now self.now }
        ensures few { ForChild (λ c. (1 ≤ depth) × (c.records ≤ capacity_of (depth - 1))) result }
        ensures ahead { IsSameTurn key.now (inner_in self.now).records (inner_in self.now).children result }
    {
        if depth == 0 {
            return Turn::Found(self.leaf(key));
        }
        self.inner(key)
    }
}
