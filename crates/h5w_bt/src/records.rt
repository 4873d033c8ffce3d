//! The records of a node: each a chunk's address and its place in the grid of chunks.
ghost use Rattle.std.specs.Prelude.{◌≡◌, ◌+◌, ◌*◌, ◌≤◌, ◌++◌, length, map, take, drop, IfOk};
ghost use Rattle.std.specs.List.{All, flat_map};
ghost use Rattle.h5w_model.specs.Trees.{records_in, record_bytes};
ghost use Rattle.h5w_bt.specs.Parts.{record_of, record_in, IsRecord};

use crate::fields::FIRST;
use h5w_bytes::{number, put};
use h5w_model::Key;
use std::alloc::{AllocError, Global};
use std::marker::Model;

/// How many bytes a record has.
pub const RECORD: usize = 24;

/// A record of a tree ("Version 2 B-trees", records of type 10).
#[derive(Clone, Copy, Debug, PartialEq, Eq)]
pub struct Record {
    /// The chunk's address.
    pub address: u64,
    pub key: Key,
}

impl Record {
    /// The record at place `at` of a node.
    fn read(b: &[u8], at: usize) -> Record
        requires { at + 24 ≤ length b.now }
        ensures { record_of result ≡ record_in b.now at }
    {
        Record {
            address: number(b, at, 8),
            key: Key {
                i: number(b, at + 8, 8),
                j: number(b, at + 16, 8),
            },
        }
    }

    /// Writes the record to place `at` of a node, and leaves every other byte.
    fn write(&self, out: &mut [u8], at: usize)
        requires { at + 24 ≤ length out.old }
        ensures written { out.new ≡ (take at out.old ++ record_bytes (record_of self.now)) ++ drop (at + 24) out.old }
        ensures fits { IsRecord (record_of self.now) }
    {
        let Key { i, j } = self.key;
        put(out, at, 8, self.address);
        put(out, at + 8, 8, i);
        put(out, at + 16, 8, j);
    }
}

/// The records of a node, in the order of their keys.
#[derive(Debug, Drop)]
pub struct Records {
    records: Vec<Record>,
}

impl Model for Records {
    ghost use Rattle.std.specs.Prelude.{List, map};
    ghost use Rattle.h5w_model.specs.Trees.{RecordFields};
    ghost use Rattle.h5w_bt.specs.Parts.{record_of};

    ghost Value = { List RecordFields };

    ghost view = { λ r. map record_of r.records.items };
}

impl Records {
    /// These records, without a copy.
    pub fn from_vec(records: Vec<Record>) -> Records
        ensures { result ≡ map record_of records.items }
    {
        Records { records }
    }

    /// The records as a vector, without a copy.
    pub fn into_vec(self) -> Vec<Record>
        ensures { map record_of result.items ≡ self }
    {
        self.records
    }

    pub fn as_slice(&self) -> &[Record]
        ensures { map record_of result.now ≡ self.now }
    {
        self.records.as_slice()
    }

    /// The `n` records of the node at the front of `b`.
    pub fn read(alloc: Global, b: &[u8], n: usize) -> Result<Records, AllocError>
        requires { 6 + 24 * n ≤ length b.now }
        ensures { IfOk result (λ r. r ≡ records_in b.now n 6) }
    {
        let records = read_records(alloc, b, n)?;
        Ok(Records { records })
    }

    /// Writes the records to the node at the front of `out`, and leaves every other byte.
    pub fn write(&self, out: &mut [u8])
        requires { 6 + 24 * length self.now ≤ length out.old }
        ensures written { out.new ≡ (take 6 out.old ++ flat_map record_bytes self.now) ++ drop (6 + 24 * length self.now) out.old }
        ensures fits { All IsRecord self.now }
    {
        write_records(&self.records, out);
    }
}

/// The `n` records of the node at the front of `b`.
fn read_records(alloc: Global, b: &[u8], n: usize) -> Result<Vec<Record>, AllocError>
    requires { 6 + 24 * n ≤ length b.now }
    ensures { IfOk result (λ r. map record_of r.items ≡ records_in b.now n 6) }
{
    let mut records = Vec::with_capacity(alloc, n)?;
    for i in 0..n {
        records.push(Record::read(b, FIRST + RECORD * i))?;
    }
    Ok(records)
}

/// Writes the records to the node at the front of `out`, and leaves every other byte.
fn write_records(records: &[Record], out: &mut [u8])
    requires { 6 + 24 * length records.now ≤ length out.old }
    ensures written { out.new ≡ (take 6 out.old ++ flat_map record_bytes (map record_of records.now)) ++ drop (6 + 24 * length records.now) out.old }
    ensures fits { All (λ r. IsRecord (record_of r)) records.now }
{
    for (i, record) in records.iter().enumerate() {
        record.write(out, FIRST + RECORD * i);
    }
}
