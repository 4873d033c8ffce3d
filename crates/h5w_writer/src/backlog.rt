//! What waits for a flush, and what was planned.
ghost use Rattle.std.specs.Prelude.{◌≡◌, ◌≤◌, ◌+◌, length, vec_capacity};
ghost use Rattle.h5w_writer.specs.Backlogs.{AreIn, IsEmptied, IsPlanned, IsRefilled};

use h5w_chunks::ChunkPlace;
use h5w_model::Write;
use h5w_pieces::Cells;
use std::mem;

/// The rows that no flush has planned, and the pieces that wait to become visible.
#[derive(Drop)]
pub struct Backlog {
    /// How many rows no flush has planned, and the cells of those of them that were not written early.
    pub waits: u64,
    pub waiting: Cells,
    /// How many of these rows were written early, and the places of the chunks that they go into, by key.
    pub early: u64,
    pub chunks: Vec<ChunkPlace>,
    /// The pieces of the last plan, and how many of them became visible.
    pub plan: Vec<Write>,
    pub shown: usize,
    /// The list of a plan before it, whose room is used again.
    pub spare: Vec<Write>,
    /// What is pending is a flush.
    pub flushing: bool,
}

/// Rows that wait, out of their backlog: what that says of them.
#[derive(Drop)]
pub struct Rows {
    pub waits: u64,
    pub waiting: Cells,
    pub early: u64,
    pub chunks: Vec<ChunkPlace>,
}

impl Backlog {
    /// Plans these pieces, a flush of all rows that wait: they are pending then, and no row waits. Answers how many they are.
    pub fn commit_plan(&mut self, pieces: Vec<Write>) -> u64
        ensures planned { IsPlanned pieces.items self.new }
        ensures room { vec_capacity self.new.plan ≡ vec_capacity pieces }
        ensures count { result ≡ length pieces.items }
    {
        self.spare = mem::replace(&mut self.plan, pieces);
        self.shown = 0;
        self.waiting.clear();
        self.waits = 0;
        self.chunks.clear();
        self.early = 0;
        self.flushing = true;
        self.plan.len() as u64
    }

    /// Takes the rows out: none waits then.
    pub fn take_rows(&mut self) -> Rows
        ensures rows { AreIn self.old result }
        ensures left { IsEmptied self.old self.new }
    {
        let alloc = *self.chunks.allocator();
        let rows = Rows {
            waits: self.waits,
            waiting: mem::replace(&mut self.waiting, Cells::new(alloc)),
            early: self.early,
            chunks: mem::replace(&mut self.chunks, Vec::new(alloc)),
        };
        self.waits = 0;
        self.early = 0;
        rows
    }

    /// Puts rows back in place of those that wait.
    pub fn put_back(&mut self, rows: Rows)
        ensures { IsRefilled self.old rows self.new }
    {
        self.waits = rows.waits;
        self.waiting = rows.waiting;
        self.early = rows.early;
        self.chunks = rows.chunks;
    }
}
