//! A session over a file that is there.
ghost use Rattle.std.specs.Prelude.{◌≡◌, ℕ, ◌≤◌, ◌^◌, ◌∷◌, [], length, IfOk, Ok, vec_capacity};
ghost use Rattle.h5w_model.specs.Superblock.{super_at, super_bytes};
ghost use Rattle.h5w_chunks.specs.Grids.{IsGrid};
ghost use Rattle.h5w_writer.specs.Openings.{session_over};
ghost use Rattle.h5w_writer.specs.Sessions.{IsSession};

use crate::backlog::Backlog;
use crate::state::WriterCore;
use h5w_chunks::Grid;
use h5w_index::Index;
use h5w_model::{OutOfMemory, Piece, Super, Write};
use h5w_pieces::Cells;
use h5w_space::Places;
use std::alloc::Global;

/// What a session keeps of a file that is there.
#[derive(Drop)]
pub struct FileParts {
    /// The superblock that the session writes first, by which the file says that it is written.
    pub root: Super,
    /// The dataset header's place, in bytes, and its chunk 0, at most a piece of it.
    pub place: u64,
    pub header: Piece,
    /// The dataset, with the rows that the file has.
    pub grid: Grid,
    /// The index of its chunks.
    pub index: Index,
}

/// The superblock as it is written.
fn super_piece(root: &Super) -> Piece
    requires { root.now.version ≡ 3 }
    ensures piece { result ≡ super_bytes root.now }
    ensures reads { super_at (super_bytes root.now) ≡ Ok root.now }
{
    Piece::of(&h5w_super::encode(root))
}

/// The plan of a superblock alone.
fn super_plan(alloc: Global, piece: Piece) -> Result<Vec<Write>, OutOfMemory>
    ensures plan { IfOk result (λ ws. ws.items ≡ record { at = 0; piece = piece } ∷ []) }
    ensures room { IfOk result (λ ws. 1 ≤ vec_capacity ws) }
{
    let mut plan = Vec::new(alloc);
    plan.push(Write { at: 0, piece })?;
    Ok(plan)
}

impl WriterCore {
    /// A session over a file that is there, of which nothing is said here: to append rows to it up to `limit` bytes of the file, of which at most `budget` bytes wait unwritten after an append. One piece is
    /// pending, the superblock. No row waits, nothing is free, and new places begin at the end-of-file address.
    pub fn over(
        alloc: Global,
        name: &[u8],
        file: FileParts,
        limit: u64,
        budget: u64,
    ) -> Result<WriterCore, OutOfMemory>
        requires name { length name.now ≤ 512 }
        requires grid { IsGrid file.grid }
        requires session { IsSession (session_over file name.now limit budget) }
        ensures session { IfOk result (λ s. s ≡ session_over file name.now limit budget) }
        ensures reads { IfOk result (λ s. super_at (super_bytes s.root) ≡ Ok s.root) }
    {
        let plan = super_plan(alloc, super_piece(&file.root))?;
        Ok(WriterCore {
            name: Piece::of(name),
            root: file.root,
            place: file.place,
            header: file.header,
            committed: file.grid.shape.rows,
            places: Places::new(alloc, file.root.end, limit),
            grid: file.grid,
            backlog: Backlog {
                waiting: Cells::new(alloc),
                waits: 0,
                plan,
                shown: 0,
                spare: Vec::new(alloc),
                early: 0,
                chunks: Vec::new(alloc),
                flushing: false,
            },
            stopped: false,
            keeps: false,
            budget,
            index: file.index,
        })
    }
}
