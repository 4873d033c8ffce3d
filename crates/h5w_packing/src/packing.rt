//! A file that is planned, and is made piece by piece. Like a session it holds no image.
ghost use Rattle.std.specs.Prelude.{◌≡◌, ◌+◌, length, drop, IfOk, IfSome};
ghost use Rattle.std.specs.List.{All};
ghost use Rattle.h5w_packing.specs.Jobs.{EndsLow, all_jobs, first_job, pieces_in};

use crate::job::{Copied, Job};
use crate::ranges::Ranges;
use h5w_model::{OutOfMemory, PIECE, Piece, Write};
use std::marker::Model;

/// A file that is planned: what is left to do until it is there, its ranges, and where it ends.
#[derive(Drop)]
pub struct Packing {
    /// The chunks that have an address in the source: of one dataset after another, in rising order of their keys.
    chunks: Vec<Copied>,
    /// The pieces that are written behind the chunks.
    writes: Vec<Write>,
    ranges: Ranges,
    end: u64,
    /// How many chunks are copied.
    copied: usize,
    /// How many bytes of the next one are.
    at: u64,
    /// How many of the pieces are written.
    written: usize,
    /// How many pieces are left.
    left: u64,
}

impl Model for Packing {
    ghost use Rattle.std.specs.Prelude.{◌≡◌, ◌++◌, length, drop};
    ghost use Rattle.std.specs.List.{All};
    ghost use Rattle.h5w_packing.specs.Jobs.{EndsLow, IsByteOf, PackingView, block_jobs, chunks_left};

    ghost Value = { PackingView };

    ghost view = { λ p. record {
      left = chunks_left p.at (drop p.copied p.chunks.items) ++ block_jobs (drop p.written p.writes.items);
      ranges = p.ranges;
      end = p.end;
    } };

    ghost invariant = { λ p. IsByteOf p.at (drop p.copied p.chunks.items) × All EndsLow p.chunks.items
        × (p.left ≡ length (chunks_left p.at (drop p.copied p.chunks.items) ++ block_jobs (drop p.written p.writes.items))) };
}

/// How many pieces these chunks and so many pieces of blocks are. None where no number of 64 bits is so high.
fn pieces_of(chunks: &[Copied], writes: usize) -> Option<u64>
    ensures { IfSome result (λ n. n ≡ pieces_in chunks.now + writes) }
{
    let mut pieces = writes as u64;
    for chunk in chunks {
        match pieces.checked_add(chunk.len.div_ceil(PIECE as u64)) {
            Some(sum) => pieces = sum,
            None => return None,
        }
    }
    Some(pieces)
}

impl Packing {
    /// A file of which all is planned and nothing is done: the chunks, and the pieces behind them.
    pub(crate) fn new(
        chunks: Vec<Copied>,
        writes: Vec<Write>,
        ranges: Ranges,
        end: u64,
    ) -> Result<Packing, OutOfMemory>
        requires low { All EndsLow chunks.items }
        ensures left { IfOk result (λ p. p.left ≡ all_jobs chunks.items writes.items) }
        ensures ranges { IfOk result (λ p. p.ranges ≡ ranges) }
        ensures end { IfOk result (λ p. p.end ≡ end) }
    {
        match pieces_of(&chunks, writes.len()) {
            Some(left) => Ok(Packing {
                chunks,
                writes,
                ranges,
                end,
                copied: 0,
                at: 0,
                written: 0,
                left,
            }),
            None => Err(OutOfMemory),
        }
    }

    /// What is next. None exactly where all is done.
    pub fn next(&self) -> Option<Job>
        ensures { result ≡ first_job self.now.left }
    {
        if self.copied < self.chunks.len() {
            let chunk = &self.chunks[self.copied];
            return Some(Job::Chunk {
                from: chunk.from.saturating_add(self.at),
                to: chunk.to + self.at,
                len: (chunk.len - self.at).min(PIECE as u64) as usize,
            });
        }
        if self.written < self.writes.len() {
            let w = &self.writes[self.written];
            return Some(Job::Block(Write {
                at: w.at,
                piece: Piece::of(w.piece.as_slice()),
            }));
        }
        None
    }

    /// The next is done: it is no longer left.
    pub fn done(&mut self)
        ensures left { self.new.left ≡ drop 1 self.old.left }
        ensures ranges { self.new.ranges ≡ self.old.ranges }
        ensures end { self.new.end ≡ self.old.end }
    {
        if self.copied < self.chunks.len() {
            self.left -= 1;
            if self.chunks[self.copied].len - self.at > PIECE as u64 {
                self.at += PIECE as u64;
            } else {
                self.at = 0;
                self.copied += 1;
            }
        } else if self.written < self.writes.len() {
            self.left -= 1;
            self.written += 1;
        }
    }

    /// How many pieces are left.
    pub fn pieces(&self) -> u64
        ensures { result ≡ length self.now.left }
    {
        self.left
    }

    /// Where the file ends.
    pub fn end(&self) -> u64
        ensures { result ≡ self.now.end }
    {
        self.end
    }

    /// The ranges of the file.
    pub fn ranges(&self) -> &Ranges
        ensures { result.now ≡ self.now.ranges }
    {
        &self.ranges
    }

    /// The ranges of the file, without what is left to do.
    pub fn into_ranges(self) -> Ranges
        ensures { result ≡ self.ranges }
    {
        self.ranges
    }
}
