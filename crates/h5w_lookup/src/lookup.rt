//! The addresses of the chunks that a dataset's rows need.
ghost use Rattle.std.specs.Prelude.{◌≡◌, ◌+◌, ◌≤◌, ◌^◌, get_or, length, false, true, [], Ok, Some, IfOk};
ghost use Rattle.h5w_model.specs.Numbers.{undefined};
ghost use Rattle.h5w_model.specs.Calls.{known_table};
ghost use Rattle.h5w_model.specs.Tables.{needed, format_limits};
ghost use Rattle.h5w_dataset.specs.Described.{described_of};

use crate::descent::{Descent, Waiting};
use crate::gather::Gather;
use crate::index::Index;
use crate::known::{Known, Rules};
use crate::look::Look;
use crate::news::News;
use crate::outcome::{Outcome, Progress};
use crate::recall::unknown;
use crate::store::Store;
use h5w_bt::Bthd;
use h5w_bytes::UNDEFINED;
use h5w_dataset::Dataset;
use h5w_ea::{Eahd, Eaib};
use h5w_model::{OutOfMemory, Piece, ReadError};
use std::alloc::Global;

/// A dataset that needs no more chunks than an array has.
#[derive(Clone, Copy)]
pub struct Small {
    pub dataset: Dataset,
    ghost few: { needed (described_of dataset) ≤ format_limits.array },
}

/// A dataset that needs no more chunks than are read of a tree.
#[derive(Clone, Copy)]
pub struct Large {
    pub dataset: Dataset,
    ghost few: { needed (described_of dataset) ≤ 1000000 },
}

/// What is awaited.
#[derive(Drop)]
pub enum Lookup {
    /// The array's header.
    Array(Small, Gather),
    /// Its index block.
    Index(Small, Gather),
    /// The tree's header.
    Tree(Large, Gather),
    /// A block behind those.
    Block(Box<Waiting>),
}

/// What a lookup comes to.
pub type LookedUp = Outcome<News, Lookup>;

/// The address of a number; undefined behind the last.
pub fn address_at(addresses: &[u64], i: usize) -> u64
    ensures { result ≡ get_or addresses.now i undefined }
{
    match addresses.get(i) {
        Some(address) => *address,
        None => UNDEFINED,
    }
}

impl Lookup {
    ghost use Rattle.h5w_model.specs.Calls.{CallRules};
    ghost use Rattle.h5w_lookup.specs.Indexes.{IsIndexOf, in_place_of};
    ghost use Rattle.h5w_lookup.specs.Attempts.{known_of, rules_of, looked_up, table_rest, array_rest, index_rest, tree_rest, looking_up};
    ghost use Rattle.h5w_lookup.specs.Slots.{slots_rest};
    ghost use Rattle.h5w_model.specs.Programs.{next_look, fed};
    ghost use Rattle.h5w_lookup.specs.Looks.{look_of, IsWithinLook};

    /// From the blocks in place on.
    fn descend(
        alloc: Global,
        rules: &Rules,
        known: &Option<Known>,
        d: &Dataset,
        index: Index,
    ) -> Result<LookedUp, OutOfMemory>
        requires few { needed (described_of d.now) ≤ 1000000 }
        requires indexed { IsIndexOf (needed (described_of d.now)) index }
        ensures { IfOk result (λ l. looked_up (rules_of rules.now (known_of known.now)) l ≡ slots_rest rules.now.place (known_table (known_of known.now) (described_of d.now)) (described_of d.now) (in_place_of index) [] 0 []) }
    {
        let descent = Descent {
            dataset: *d,
            index,
            found: Vec::new(alloc),
            store: Store::new(alloc)?,
            front: None,
        };
        let descended = descent.go_on(alloc, rules, known)?;
        Ok(descended.map_looks(Lookup::Block))
    }

    /// From the dataset's index on. Nothing is looked at where each needed chunk's address is known, nor without an index.
    pub(crate) fn begin(
        alloc: Global,
        rules: &Rules,
        known: &Option<Known>,
        d: &Dataset,
    ) -> Result<LookedUp, OutOfMemory>
        requires few { needed (described_of d.now) ≤ 1000000 }
        requires array { d.now.shape.growing ≡ false → needed (described_of d.now) ≤ format_limits.array }
        ensures { IfOk result (λ l. looked_up (rules_of rules.now (known_of known.now)) l ≡ table_rest rules.now.place (known_table (known_of known.now) (described_of d.now)) (described_of d.now)) }
    {
        let needed = d.needed() as usize;
        if needed <= unknown(known, d, 0) {
            return Ok(Outcome::Done(News {
                place: rules.place,
                dataset: *d,
                found: Vec::new(alloc),
                view: None,
                front: None,
            }));
        }
        let address = d.layout.address;
        if address == UNDEFINED {
            return Lookup::descend(alloc, rules, known, d, Index::Nowhere);
        }
        if d.shape.growing {
            let tree = Gather::new(address, Vec::new(alloc), address, Bthd::LEN as u64);
            return Ok(Outcome::Looks(Lookup::Tree(Large { dataset: *d }, tree)));
        }
        let header = Gather::new(address, Vec::new(alloc), address, Eahd::LEN as u64);
        Ok(Outcome::Looks(Lookup::Array(Small { dataset: *d }, header)))
    }

    /// Goes on from the bytes of the array's header at `at`.
    fn after_header(
        alloc: Global,
        rules: &Rules,
        known: &Option<Known>,
        d: &Dataset,
        at: u64,
        bytes: &[u8],
    ) -> Result<LookedUp, OutOfMemory>
        requires few { needed (described_of d.now) ≤ format_limits.array }
        requires inside { at + length bytes.now ≤ 2 ^ 64 }
        ensures { IfOk result (λ l. looked_up (rules_of rules.now (known_of known.now)) l ≡ array_rest rules.now.place (known_table (known_of known.now) (described_of d.now)) (described_of d.now) at bytes.now) }
    {
        let header = match Eahd::decode(bytes, at) {
            Ok(header) => header,
            Err(fault) => return Ok(Outcome::Refused(ReadError::Damaged { at, fault })),
        };
        let block = header.block;
        if block == UNDEFINED {
            return Lookup::descend(alloc, rules, known, d, Index::Nowhere);
        }
        let index = Gather::new(block, Vec::new(alloc), block, Eaib::LEN as u64);
        Ok(Outcome::Looks(Lookup::Index(Small { dataset: *d }, index)))
    }

    /// Goes on from the bytes of the index block at `at`.
    fn after_index(
        alloc: Global,
        rules: &Rules,
        known: &Option<Known>,
        d: &Dataset,
        at: u64,
        bytes: &[u8],
    ) -> Result<LookedUp, OutOfMemory>
        requires few { needed (described_of d.now) ≤ format_limits.array }
        requires inside { at + length bytes.now ≤ 2 ^ 64 }
        ensures { IfOk result (λ l. looked_up (rules_of rules.now (known_of known.now)) l ≡ index_rest rules.now.place (known_table (known_of known.now) (described_of d.now)) (described_of d.now) at bytes.now) }
    {
        match Eaib::decode(bytes, at) {
            Ok(index) => Lookup::descend(alloc, rules, known, d, Index::Array(index)),
            Err(fault) => Ok(Outcome::Refused(ReadError::Damaged { at, fault })),
        }
    }

    /// Goes on from the bytes of the tree's header at `at`.
    fn after_tree(
        alloc: Global,
        rules: &Rules,
        known: &Option<Known>,
        d: &Dataset,
        at: u64,
        bytes: &[u8],
    ) -> Result<LookedUp, OutOfMemory>
        requires few { needed (described_of d.now) ≤ 1000000 }
        requires inside { at + length bytes.now ≤ 2 ^ 64 }
        ensures { IfOk result (λ l. looked_up (rules_of rules.now (known_of known.now)) l ≡ tree_rest rules.now.place (known_table (known_of known.now) (described_of d.now)) (described_of d.now) at bytes.now) }
    {
        let tree = match Bthd::decode(bytes, at) {
            Ok(tree) => tree,
            Err(fault) => return Ok(Outcome::Refused(ReadError::Damaged { at, fault })),
        };
        if tree.root == UNDEFINED {
            return Lookup::descend(alloc, rules, known, d, Index::Nowhere);
        }
        Lookup::descend(alloc, rules, known, d, Index::Tree(tree))
    }

    /// The next look.
    pub fn want(&self) -> Look
        ensures next { (g : CallRules) → next_look (looking_up g self.now) ≡ Some (look_of result) }
        ensures low { 1 ≤ result.len }
        ensures high { result.len ≤ 512 }
        ensures inside { result.at + result.len ≤ 2 ^ 64 }
    {
        match self {
            Lookup::Array(_, gather) | Lookup::Index(_, gather) => gather.want(),
            Lookup::Tree(_, gather) => gather.want(),
            Lookup::Block(waiting) => waiting.want(),
        }
    }

    /// Takes up a full piece where the block that is looked at goes on behind it; false where the piece may be its last, or where
    /// the block is one of those in place.
    pub fn absorb(&mut self, piece: &Piece) -> Result<bool, OutOfMemory>
        ensures more { result ≡ Ok true → (g : CallRules) → looking_up g self.new ≡ fed piece.now (looking_up g self.old) }
        ensures same { result ≡ Ok false → (g : CallRules) → looking_up g self.new ≡ looking_up g self.old }
    {
        match self {
            Lookup::Block(waiting) => waiting.gather.absorb(piece),
            _ => Ok(false),
        }
    }

    /// Goes on with the piece that the look gave.
    pub fn feed(
        self,
        alloc: Global,
        rules: &Rules,
        known: &Option<Known>,
        piece: &Piece,
    ) -> Result<LookedUp, OutOfMemory>
        requires { IsWithinLook (next_look (looking_up (rules_of rules.now (known_of known.now)) self)) (length piece.now) }
        ensures { IfOk result (λ l. looked_up (rules_of rules.now (known_of known.now)) l ≡ fed piece.now (looking_up (rules_of rules.now (known_of known.now)) self)) }
    {
        match self {
            Lookup::Array(small, gather) => {
                let at = gather.start();
                match gather.feed(piece)? {
                    Progress::Looks(gather) => Ok(Outcome::Looks(Lookup::Array(small, gather))),
                    Progress::Done(bytes) => {
                        Lookup::after_header(alloc, rules, known, &small.dataset, at, &bytes)
                    }
                }
            }
            Lookup::Index(small, gather) => {
                let at = gather.start();
                match gather.feed(piece)? {
                    Progress::Looks(gather) => Ok(Outcome::Looks(Lookup::Index(small, gather))),
                    Progress::Done(bytes) => {
                        Lookup::after_index(alloc, rules, known, &small.dataset, at, &bytes)
                    }
                }
            }
            Lookup::Tree(large, gather) => {
                let at = gather.start();
                match gather.feed(piece)? {
                    Progress::Looks(gather) => Ok(Outcome::Looks(Lookup::Tree(large, gather))),
                    Progress::Done(bytes) => {
                        Lookup::after_tree(alloc, rules, known, &large.dataset, at, &bytes)
                    }
                }
            }
            Lookup::Block(waiting) => {
                let waiting = Box::into_inner(waiting);
                let descended = waiting.feed(alloc, rules, known, piece)?;
                Ok(descended.map_looks(Lookup::Block))
            }
        }
    }
}
