//! The ranges that a file uses, and those of them that pass its end.
ghost use Rattle.std.specs.Prelude.{◌≡◌, ◌+◌, ◌++◌, ◌∷◌, [], map, nat_lt, true, false, Ok};
ghost use Rattle.h5w_model.specs.Findings.{Used, chunk_ranges, header_ranges};
ghost use Rattle.h5w_check.specs.Ran.{Told, answering};
ghost use Rattle.h5w_headers.specs.Headers.{ranges_of};
ghost use Rattle.h5w_check.specs.Ranges.{after, put_after};

use crate::error::CheckError;
use h5w_bytes::UNDEFINED;
use h5w_space::Extent;
use std::alloc::Global;
use std::marker::Model;

/// A chunk passes the end-of-file address.
const CHUNK_PAST_END: u8 = 17;

/// A block passes the end-of-file address.
pub const BLOCK_PAST_END: u8 = 18;

/// A range that a file uses, for a chunk or for a block.
#[derive(Clone, Copy)]
pub struct Range {
    pub place: u64,
    pub len: u64,
    pub chunk: bool,
}

/// The ranges that a file uses, in the order of visit.
#[derive(Drop)]
pub struct Ranges {
    list: Vec<Range>,
}

impl Model for Ranges {
    ghost use Rattle.std.specs.Prelude.{List, map};
    ghost use Rattle.h5w_model.specs.Findings.{Used};
    ghost use Rattle.h5w_check.specs.Ranges.{used_of};

    ghost Value = { List Used };

    ghost view = { λ r. map used_of r.list.items };
}

/// How a file's blocks and chunks have to lie: below the end-of-file address, with so many bytes a chunk.
#[derive(Clone, Copy)]
pub struct Bounds {
    pub end: u64,
    /// How many bytes a chunk has.
    pub chunk: u64,
}

/// Whether `len` bytes from `place` on pass the end.
pub fn is_past(end: u64, place: u64, len: u64) -> bool
    ensures { result ≡ nat_lt end (place + len) }
{
    place > end || len > end - place
}

impl Ranges {
    ghost use Rattle.h5w_check.specs.Ranges.{used_of};

    /// No range.
    pub fn new(alloc: Global) -> Ranges
        ensures { result ≡ [] }
    {
        Ranges {
            list: Vec::new(alloc),
        }
    }

    /// The ranges as a vector, without a copy.
    pub fn into_vec(self) -> Vec<Range>
        ensures { map used_of result.items ≡ self }
    {
        self.list
    }

    /// Adds a range at the end.
    fn push(&mut self, place: u64, len: u64, chunk: bool) -> Result<(), CheckError>
        ensures { Told (Ok (self.old ++ record { place = place; len = len; chunk = chunk } ∷ [])) (answering self.new result) }
    {
        match self.list.push(Range { place, len, chunk }) {
            Ok(()) => Ok(()),
            Err(_) => Err(CheckError::OutOfMemory),
        }
    }

    /// Adds a block, whose place and length are not tested.
    pub fn put_block(&mut self, place: u64, len: u64) -> Result<(), CheckError>
        ensures { Told (Ok (self.old ++ record { place = place; len = len; chunk = false } ∷ [])) (answering self.new result) }
    {
        self.push(place, len, false)
    }

    /// Adds the chunk at this address, if it has one.
    pub fn put_chunk(&mut self, bounds: &Bounds, address: u64) -> Result<(), CheckError>
        ensures { Told (put_after bounds.now.end bounds.now.chunk address self.old) (answering self.new result) }
    {
        if address == UNDEFINED {
            return Ok(());
        }
        if is_past(bounds.end, address, bounds.chunk) {
            return Err(CheckError::Finding {
                kind: CHUNK_PAST_END,
                at: address,
            });
        }
        self.push(address, bounds.chunk, true)
    }

    /// Adds the chunks at these addresses.
    pub fn put_chunks(&mut self, bounds: &Bounds, addresses: &[u64]) -> Result<(), CheckError>
        ensures { Told (after self.old (chunk_ranges bounds.now.end bounds.now.chunk addresses.now)) (answering self.new result) }
    {
        for address in addresses {
            self.put_chunk(bounds, *address)?;
        }
        Ok(())
    }

    /// Adds the ranges of a header.
    pub fn put_header(&mut self, end: u64, extents: &[Extent]) -> Result<(), CheckError>
        ensures { Told (after self.old (header_ranges end (ranges_of extents.now))) (answering self.new result) }
    {
        for extent in extents {
            if is_past(end, extent.at, extent.size) {
                return Err(CheckError::Finding {
                    kind: BLOCK_PAST_END,
                    at: extent.at,
                });
            }
            self.push(extent.at, extent.size, false)?;
        }
        Ok(())
    }
}
