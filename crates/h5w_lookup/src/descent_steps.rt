//! The steps of a descent: up to a block that is not kept, and on with the bytes of that block.
ghost use Rattle.std.specs.Prelude.{◌≡◌, ◌≢◌, ◌+◌, ◌≤◌, ◌<◌, ◌^◌, length, ℕ, Some, IfOk};
ghost use Rattle.h5w_model.specs.Programs.{next_look, fed};
ghost use Rattle.h5w_model.specs.Calls.{CallRules};
ghost use Rattle.h5w_model.specs.Tables.{needed};
ghost use Rattle.h5w_lookup.specs.Attempts.{known_of, rules_of};
ghost use Rattle.h5w_dataset.specs.Described.{described_of};
ghost use Rattle.h5w_lookup.specs.Looks.{look_of, IsWithinLook};
ghost use Rattle.h5w_lookup.specs.Seeking.{next_rest, wait_at, wait_given, wait_rest};
ghost use Rattle.h5w_lookup.specs.Probes.{probed};
ghost use Rattle.h5w_lookup.specs.Stores.{kept};
ghost use Rattle.h5w_lookup.specs.Descents.{descent_rest, after_next, waiting, descended};

use crate::block::Block;
use crate::content::{LAST, Turn};
use crate::descent::{Descended, Descent, Waiting};
use crate::follow::follow;
use crate::gather::Gather;
use crate::known::{Known, Rules};
use crate::look::Look;
use crate::news::News;
use crate::outcome::{Outcome, Progress};
use crate::probe::Probe;
use crate::recall::{front, unknown};
use crate::wait::{DataWait, NodeWait, SecondWait, Wait};
use h5w_ea::{Eadb, Easb, sizes, slots_len};
use h5w_model::{BlockFault, OutOfMemory, Piece, ReadError};
use std::alloc::Global;

/// How many bytes a sum has, at the end of a block.
const SUM: usize = 4;

/// The refusal of a block, unless memory ran out.
fn refused(at: u64, fault: BlockFault) -> Result<Descended, OutOfMemory>
    ensures refused { IfOk result (λ d. d ≡ Outcome.Refused (ReadError.Damaged at fault)) }
    ensures other { IfOk result (λ d. fault ≢ BlockFault.OutOfMemory) }
{
    match fault {
        BlockFault::OutOfMemory => Err(OutOfMemory),
        fault => Ok(Outcome::Refused(ReadError::Damaged { at, fault })),
    }
}

impl Descent {
    /// Waits for a block on the way to its next chunk. There is room for all of it.
    fn wait(self, alloc: Global, wait: Wait) -> Result<Box<Waiting>, OutOfMemory>
        ensures { IfOk result (λ w. (g : CallRules) → waiting g w.value ≡ wait_rest (kept self.store) wait (after_next g self)) }
    {
        let (at, len) = (wait.at(), wait.len());
        let room = Vec::with_capacity(alloc, len as usize)?;
        let gather = Gather::new(at, room, at, len);
        let waiting = Waiting {
            descent: self,
            wait,
            gather,
        };
        Ok(Box::new(alloc, waiting)?)
    }

    /// Goes on to the next chunk whose way leads over a block that is not kept, or to the end.
    pub fn go_on(
        self,
        alloc: Global,
        rules: &Rules,
        known: &Option<Known>,
    ) -> Result<Descended, OutOfMemory>
        ensures { IfOk result (λ d. descended (rules_of rules.now (known_of known.now)) d ≡ descent_rest (rules_of rules.now (known_of known.now)) self) }
    {
        let Descent {
            dataset,
            index,
            mut found,
            mut store,
            front,
        } = self;
        let needed = dataset.needed() as usize;
        let across = dataset.keys_across();
        let mut i = unknown(known, &dataset, found.len());
        while i < needed {
            let (address, span) = match Probe::chunk(&mut store, &index, across, i) {
                Probe::Hit(address, span) => (address, span),
                Probe::Miss(wait) => {
                    let descent = Descent {
                        dataset,
                        index,
                        found,
                        store,
                        front,
                    };
                    return Ok(Outcome::Looks(descent.wait(alloc, wait)?));
                }
            };
            found.push(address)?;
            follow(&mut store, &index, known, &dataset, span, &mut found)?;
            i = unknown(known, &dataset, found.len());
        }
        Ok(Outcome::Done(News {
            place: rules.place,
            dataset,
            found,
            view: None,
            front,
        }))
    }

    /// Goes on with the address of its next chunk.
    fn found(
        mut self,
        alloc: Global,
        rules: &Rules,
        known: &Option<Known>,
        address: u64,
    ) -> Result<Descended, OutOfMemory>
        ensures { IfOk result (λ d. descended (rules_of rules.now (known_of known.now)) d ≡ next_rest (kept self.store) (after_next (rules_of rules.now (known_of known.now)) self) address) }
    {
        self.found.push(address)?;
        self.go_on(alloc, rules, known)
    }

    /// Goes on with what looking up its next chunk came to.
    fn resume(
        self,
        alloc: Global,
        rules: &Rules,
        known: &Option<Known>,
        way: Probe,
    ) -> Result<Descended, OutOfMemory>
        ensures { IfOk result (λ d. descended (rules_of rules.now (known_of known.now)) d ≡ probed (kept self.store) (after_next (rules_of rules.now (known_of known.now)) self) way) }
    {
        match way {
            Probe::Hit(address, _) => self.found(alloc, rules, known, address),
            Probe::Miss(wait) => Ok(Outcome::Looks(self.wait(alloc, wait)?)),
        }
    }

    /// Up to which place the front of a data block is kept: behind the slots of the needed chunks, where it has slots behind those.
    fn upto(&self, known: &Option<Known>, w: &DataWait) -> usize {
        let next = unknown(known, &self.dataset, self.found.len());
        let more = (self.dataset.needed() as usize).saturating_sub(next) as u64;
        let last = w.slot.saturating_add(more);
        if last < w.n {
            slots_len(last) as usize - SUM
        } else {
            0
        }
    }

    /// Goes on with the bytes of a data block.
    fn enter_data(
        mut self,
        alloc: Global,
        rules: &Rules,
        known: &Option<Known>,
        w: DataWait,
        bytes: Vec<u8>,
    ) -> Result<Descended, OutOfMemory>
        requires { w.at + length bytes.items ≤ 2 ^ 64 }
        ensures { IfOk result (λ d. descended (rules_of rules.now (known_of known.now)) d ≡ wait_given (kept self.store) (Wait.Data w) (after_next (rules_of rules.now (known_of known.now)) self) bytes.items) }
    {
        let upto = self.upto(known, &w);
        let checked = Eadb::check(alloc, bytes.as_slice(), w.at, w.n, front(known), upto);
        let front = match checked {
            Ok(front) => front,
            Err(fault) => return refused(w.at, fault),
        };
        let block = Block::data(w.at, w.n, bytes);
        let address = block.content.slot(w.slot as usize);
        self.store.put(block)?;
        self.front = front.or(self.front.take());
        self.found(alloc, rules, known, address)
    }

    /// Goes on with the bytes of a secondary block.
    fn enter_second(
        mut self,
        alloc: Global,
        rules: &Rules,
        known: &Option<Known>,
        w: SecondWait,
        bytes: Vec<u8>,
    ) -> Result<Descended, OutOfMemory>
        requires { w.at + length bytes.items ≤ 2 ^ 64 }
        ensures { IfOk result (λ d. descended (rules_of rules.now (known_of known.now)) d ≡ wait_given (kept self.store) (Wait.Second w) (after_next (rules_of rules.now (known_of known.now)) self) bytes.items) }
    {
        let (blocks, slots) = sizes(w.sblock);
        if let Err(fault) = Easb::check(bytes.as_slice(), w.at, blocks) {
            return refused(w.at, fault);
        }
        let block = Block::second(w.at, blocks, bytes);
        let address = block.content.slot(w.block as usize);
        self.store.put(block)?;
        let way = Probe::data(&mut self.store, address, slots, w.slot);
        self.resume(alloc, rules, known, way)
    }

    /// Goes on with the bytes of a node of a tree.
    fn enter_node(
        mut self,
        alloc: Global,
        rules: &Rules,
        known: &Option<Known>,
        w: NodeWait,
        bytes: Vec<u8>,
    ) -> Result<Descended, OutOfMemory>
        requires { w.at + length bytes.items ≤ 2 ^ 64 }
        ensures { IfOk result (λ d. descended (rules_of rules.now (known_of known.now)) d ≡ wait_given (kept self.store) (Wait.Node w) (after_next (rules_of rules.now (known_of known.now)) self) bytes.items) }
    {
        let block = match Block::node(alloc, w.at, w.depth, w.n, bytes) {
            Ok(block) => block,
            Err(fault) => return refused(w.at, fault),
        };
        let turn = block.content.turn(w.depth, &w.key);
        self.store.put(block)?;
        match turn {
            Turn::Found(address) => self.found(alloc, rules, known, address),
            Turn::Under(child, _) => {
                let (at, n) = (child.address, child.records);
                let way = Probe::node(&mut self.store, w.depth - 1, w.key, at, n, LAST);
                self.resume(alloc, rules, known, way)
            }
        }
    }

    /// Goes on with the bytes of the block that it waited for.
    fn enter(
        self,
        alloc: Global,
        rules: &Rules,
        known: &Option<Known>,
        wait: Wait,
        bytes: Vec<u8>,
    ) -> Result<Descended, OutOfMemory>
        requires { wait_at wait + length bytes.items ≤ 2 ^ 64 }
        ensures { IfOk result (λ d. descended (rules_of rules.now (known_of known.now)) d ≡ wait_given (kept self.store) wait (after_next (rules_of rules.now (known_of known.now)) self) bytes.items) }
    {
        match wait {
            Wait::Data(w) => self.enter_data(alloc, rules, known, w, bytes),
            Wait::Second(w) => self.enter_second(alloc, rules, known, w, bytes),
            Wait::Node(w) => self.enter_node(alloc, rules, known, w, bytes),
        }
    }
}

impl Waiting {
    /// The next look.
    #[tactic(auto, using(crate::proofs::DescentLemmas::waiting_wants))]
    pub fn want(&self) -> Look
        ensures next { (g : CallRules) → next_look (waiting g self.now) ≡ Some (look_of result) }
        ensures low { 1 ≤ result.len }
        ensures high { result.len ≤ 512 }
        ensures inside { result.at + result.len ≤ 2 ^ 64 }
    {
        self.gather.want()
    }

    /// Goes on with the piece that the look gave.
    pub fn feed(
        self,
        alloc: Global,
        rules: &Rules,
        known: &Option<Known>,
        piece: &Piece,
    ) -> Result<Descended, OutOfMemory>
        requires { IsWithinLook (next_look (waiting (rules_of rules.now (known_of known.now)) self)) (length piece.now) }
        ensures { IfOk result (λ d. descended (rules_of rules.now (known_of known.now)) d ≡ fed piece.now (waiting (rules_of rules.now (known_of known.now)) self)) }
    {
        let Waiting {
            descent,
            wait,
            gather,
        } = self;
        match gather.feed(piece)? {
            Progress::Looks(gather) => {
                let waiting = Waiting {
                    descent,
                    wait,
                    gather,
                };
                Ok(Outcome::Looks(Box::new(alloc, waiting)?))
            }
            Progress::Done(bytes) => descent.enter(alloc, rules, known, wait, bytes),
        }
    }
}
