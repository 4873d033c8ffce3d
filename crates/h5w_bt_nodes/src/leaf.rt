ghost use Rattle.std.specs.Prelude.{◌≡◌, ◌+◌, ◌≤◌, length};
ghost use Rattle.h5w_bt.specs.Parts.{child_of};

use crate::bytes::put_leaf;
use crate::lists::move_tail;
use crate::search::{put_record, replace_record, search};
use crate::subtree::Subtree;
use h5w_bt::{Child, Key, Record, capacity};
use h5w_bytes::UNDEFINED;
use h5w_cache::{Move, copied};
use h5w_model::{OutOfMemory, Write};
use std::alloc::Global;

/// A leaf: records alone.
#[derive(Drop)]
pub struct Leaf {
    pub records: Vec<Record>,
    /// Where it stands in the file, UNDEFINED while it was never written.
    pub place: u64,
    /// Whether what stands there says what it says.
    pub clean: bool,
}

impl Leaf {
    /// What its parent says of it, where it stands at a place.
    fn pointer(&self, place: u64) -> Child
        ensures { child_of result ≡ record { address = place; records = length self.now.records.items; total = length self.now.records.items } }
    {
        let records = self.records.len() as u64;
        Child {
            address: place,
            records,
            total: records,
        }
    }
}

impl Subtree for Leaf {
    ghost use Rattle.h5w_bt_nodes.specs.Typed.{leaf_of, IsRoomyLeaf};

    ghost depth = { 0 };

    ghost tree = { leaf_of };

    ghost roomy = { IsRoomyLeaf };

    fn depth() -> u64 {
        0
    }

    fn blank(alloc: Global) -> Leaf {
        Leaf {
            records: Vec::new(alloc),
            place: UNDEFINED,
            clean: false,
        }
    }

    fn with_room(alloc: Global) -> Result<Leaf, OutOfMemory> {
        Ok(Leaf {
            records: Vec::with_capacity(alloc, 85)?,
            place: UNDEFINED,
            clean: false,
        })
    }

    fn len(&self) -> usize {
        self.records.len()
    }

    fn total(&self) -> u64 {
        self.records.len() as u64
    }

    fn find(&self, key: Key) -> Option<u64> {
        search(&self.records, key).1
    }

    fn is_full_path(&self, _key: Key) -> bool {
        self.records.len() as u64 == capacity(0)
    }

    fn put(&mut self, item: Record) -> Result<(), OutOfMemory> {
        put_record(&mut self.records, item)?;
        self.clean = false;
        Ok(())
    }

    fn replace(&mut self, item: Record) {
        replace_record(&mut self.records, item);
        self.clean = false; // the file has the record that was there
    }

    fn divide(&mut self, right: Leaf) -> (Record, Leaf) {
        let Leaf { mut records, .. } = right;
        let at = capacity(0) as usize / 2;
        move_tail(&mut self.records, at + 1, &mut records);
        let middle = self.records.take_last();
        self.clean = false;
        let right = Leaf {
            records,
            place: UNDEFINED,
            clean: false,
        };
        (middle, right)
    }

    fn stood(&self, out: &mut Vec<u64>) -> Result<(), OutOfMemory> {
        if !self.clean {
            out.push(self.place)?;
        }
        Ok(())
    }

    fn write(&self, moves: &[Move], out: &mut Vec<Write>) -> Result<(usize, Child), OutOfMemory> {
        if self.clean {
            return Ok((0, self.pointer(self.place)));
        }
        let place = moves[0].new;
        put_leaf(&self.records, place, out)?;
        Ok((1, self.pointer(place)))
    }

    fn settle(&mut self, moves: &[Move]) -> usize {
        if self.clean {
            return 0;
        }
        self.place = moves[0].new;
        self.clean = true;
        1
    }

    fn copy(&self) -> Result<Leaf, OutOfMemory> {
        Ok(Leaf {
            records: copied(&self.records)?,
            place: self.place,
            clean: self.clean,
        })
    }
}
