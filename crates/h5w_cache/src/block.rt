ghost use Rattle.std.specs.Prelude.{◌≡◌, ℕ, ◌+◌, ◌-◌, ◌<◌, ◌≤◌, ◌^◌, IfOk, length, slice_index_or};
ghost use Rattle.h5w_model.specs.Numbers.{undefined};
ghost use Rattle.h5w_cache.specs.Blocks.{AreInside, linked, numbered, patched, sealed_front, spelled, stays_by, with_number};

use h5w_bytes::{UNDEFINED, put};
use h5w_model::OutOfMemory;
use h5w_sum::seal;
use std::alloc::Global;
use std::marker::Model;

/// The address of another block stands in eight bytes of a block.
#[derive(Clone, Copy)]
pub struct Link {
    /// Where the address begins, counted from the block's first byte.
    pub offset: usize,
    /// The number under which the other block is kept, if it is.
    pub child: u32,
}

/// Where a block is written once it changed.
#[derive(Clone, Copy)]
pub enum Placement {
    /// At the place that it has.
    InPlace,
    /// At a new place each time.
    Copied,
}

impl Placement {
    /// Whether the block stays at the place that it has.
    fn stays(self) -> bool
        ensures { result ≡ stays_by self }
    {
        match self {
            Placement::InPlace => true,
            Placement::Copied => false,
        }
    }
}

/// A block as it is written.
#[derive(Drop)]
pub struct Block {
    bytes: Vec<u8>,
    links: Vec<Link>,
    turn: u64,
    in_place: bool,
    sealed: usize,
}

impl Model for Block {
    ghost use Rattle.std.specs.Prelude.{◌≤◌, length, vec_len};
    ghost use Rattle.h5w_cache.specs.Blocks.{AreInside, BlockView};

    ghost Value = { BlockView };

    ghost view = { λ b. record {
      bytes = b.bytes.items;
      links = b.links.items;
      turn = b.turn;
      in_place = b.in_place;
      sealed = b.sealed;
    } };

    ghost invariant = { λ b. AreInside b.links.items (length b.bytes.items) × (4 ≤ b.sealed) × (b.sealed ≤ length b.bytes.items) };
}

/// The place under a number, undefined where it has none.
pub fn place_at(places: &[u64], number: u32) -> u64
    ensures { result ≡ slice_index_or places.now number undefined }
{
    match places.get(number as usize) {
        Some(place) => *place,
        None => UNDEFINED,
    }
}

/// Writes the place of the block that is linked, where it has one.
fn patch_link(bytes: &mut [u8], places: &[u64], link: Link)
    requires { link.offset + 8 ≤ length bytes.old }
    ensures { bytes.new ≡ linked (λ n. slice_index_or places.now n undefined) link bytes.old }
{
    let place = place_at(places, link.child);
    if place != UNDEFINED {
        put(bytes, link.offset, 8, place);
    }
}

/// Writes the place of each block that is linked, where it has one.
fn patch(bytes: &mut [u8], places: &[u64], links: &[Link])
    requires { AreInside links.now (length bytes.old) }
    ensures { bytes.new ≡ patched (λ n. slice_index_or places.now n undefined) links.now bytes.old }
{
    for link in links {
        patch_link(bytes, places, *link);
    }
}

/// Writes the place of each block that is linked, where it has one, and the sum of the front.
fn spell(bytes: &mut [u8], places: &[u64], links: &[Link], sealed: usize)
    requires inside { AreInside links.now (length bytes.old) }
    requires low { 4 ≤ sealed }
    requires high { sealed ≤ length bytes.old }
    ensures { bytes.new ≡ sealed_front sealed (patched (λ n. slice_index_or places.now n undefined) links.now bytes.old) }
{
    patch(bytes, places, links);
    seal(&mut bytes[..sealed]);
}

impl Block {
    /// A block of these bytes, of which the first `sealed` end in their sum once it is written. It is written in
    /// its turn, in place or as a copy, with the places of the blocks that it links to.
    pub fn new(
        bytes: Vec<u8>,
        links: Vec<Link>,
        turn: u64,
        placement: Placement,
        sealed: usize,
    ) -> Block
        requires inside { AreInside links.items (length bytes.items) }
        requires low { 4 ≤ sealed }
        requires high { sealed ≤ length bytes.items }
        ensures { result ≡ record { bytes = bytes.items; links = links.items; turn = turn; in_place = stays_by placement; sealed = sealed } }
    {
        Block {
            bytes,
            links,
            turn,
            in_place: placement.stays(),
            sealed,
        }
    }

    /// Its bytes.
    pub fn bytes(&self) -> &[u8]
        ensures value { result.now ≡ self.now.bytes }
        ensures long { 4 ≤ length self.now.bytes }
    {
        &self.bytes
    }

    /// Its turn: blocks are written by rising turn.
    pub fn turn(&self) -> u64
        ensures { result ≡ self.now.turn }
    {
        self.turn
    }

    /// Whether it stays at the place that it has.
    pub fn in_place(&self) -> bool
        ensures { result ≡ self.now.in_place }
    {
        self.in_place
    }

    /// The number `v` stands in the eight bytes from `offset` on.
    pub fn set_number(&mut self, offset: usize, v: u64)
        requires { offset + 8 ≤ length self.old.bytes }
        ensures set { self.new ≡ numbered offset v self.old }
        ensures length { length (with_number offset v self.old.bytes) ≡ length self.old.bytes }
    {
        put(&mut self.bytes, offset, 8, v);
    }

    /// Writes the places of the blocks that it links to, and its sum.
    pub fn spell(&mut self, places: &[u64])
        ensures spelled { self.new ≡ spelled (λ n. slice_index_or places.now n undefined) self.old }
        ensures length { length self.new.bytes ≡ length self.old.bytes }
    {
        spell(&mut self.bytes, places, &self.links, self.sealed);
    }

    /// A copy.
    pub fn copy(&self) -> Result<Block, OutOfMemory>
        ensures { IfOk result (λ b. b ≡ self.now) }
    {
        Ok(Block {
            bytes: copied(&self.bytes)?,
            links: copied(&self.links)?,
            turn: self.turn,
            in_place: self.in_place,
            sealed: self.sealed,
        })
    }
}

/// The same elements.
pub fn copied<T: Copy + Drop>(items: &Vec<T>) -> Result<Vec<T>, OutOfMemory>
    ensures { IfOk result (λ v. v.items ≡ items.now.items) }
{
    let mut copy = Vec::with_capacity(*items.allocator(), items.len())?;
    copy.extend_from_slice(items)?;
    Ok(copy)
}
