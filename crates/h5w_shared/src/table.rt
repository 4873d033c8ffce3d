//! The table under the shared image: word 0 is the ticket that is drawn next, word 1 the ticket that is served, and slot 0
//! has the store.
ghost use Rattle.h5w_shared.specs.Turns.{drawn, ended, informed, looked, newcomer, opening, spent, Ruled, told};

use atomic_table::{Join, Play, Seat, Shared, Split, Table, TableRule};
use h5w_image::MemImage;
use h5w_model::Write;
use std::alloc::Global;
use std::collections::LinkedList;
use std::snapshot::Snapshot;

/// Where a seat is between two turns: it wants none, has drawn a ticket, or is served.
pub enum Stage {
    Idle,
    Waiting(u64),
    Serving(u64),
}

/// What a seat knows. No value of it is made.
pub struct Knowledge {
    /// The bytes that the image began with.
    pub start: LinkedList<u8>,
    /// The pieces that it has seen, the oldest first.
    pub seen: LinkedList<Write>,
    /// What it was told of by a note that is not looked at yet.
    pub told: LinkedList<Write>,
    pub stage: Stage,
    /// It is the writer's.
    pub writes: bool,
    /// It was met, and says nothing any more.
    pub spent: bool,
    /// It was shown the ticket word at 2^63.
    pub worn: bool,
    /// The room that is reserved, as it was seen last.
    pub pieces: u64,
    pub end: u64,
}

/// The rule of the table. Its key is the store that it was made with.
pub struct Turns;

impl TableRule<Option<MemImage>, Knowledge, Snapshot<MemImage>> for Turns {
    ghost holds = { λ key s. Ruled key.value.start s };

    ghost first = { λ key. opening key.value };
}

pub type Board = Table<Option<MemImage>, Knowledge, Snapshot<MemImage>, Turns, Global>;

pub type Shelf = Shared<Option<MemImage>, Knowledge, Snapshot<MemImage>, Turns>;

pub type Token = Seat<Option<MemImage>, Knowledge>;

/// Draws the next ticket, or is shown another.
pub struct Draw;

impl Play<Option<MemImage>, Knowledge> for Draw {
    ghost then = { drawn };
}

/// Looks whether its ticket is served, and takes the store out if so.
pub struct Look;

impl Play<Option<MemImage>, Knowledge> for Look {
    ghost then = { looked };
}

/// Looks at the ticket that is served to learn that what it was told of begins what it has seen.
pub struct Tell;

impl Play<Option<MemImage>, Knowledge> for Tell {
    ghost then = { told };
}

/// Puts the store back, and serves the next ticket.
pub struct End;

impl Play<Option<MemImage>, Knowledge> for End {
    ghost then = { ended };
}

/// A reader's seat, or a note, that knows as much.
pub struct Twin;

impl Split<Knowledge> for Twin {
    ghost left = { λ v. v };

    ghost right = { newcomer };
}

/// What a note knows, taken in.
pub struct Both;

impl Join<Knowledge> for Both {
    ghost both = { informed };

    ghost spent = { spent };
}
