//! Runs whose gates hold an actor until another has come.
ghost use Rattle.std.specs.Prelude.{◌^◌, ◌≤◌};

use crate::helpers::{report_of, wait_for};
use h5w_image::Gate;
use h5w_live::LiveReport;
use h5w_model::Poll;
use std::alloc::Global;
use std::sync::Wait;
use std::sync::atomic::{AtomicBool, Ordering};
use std::test::Fail;
use std::thread::Threads;

/// Two actors of which each comes to a place, and one or both wait there for the other.
#[derive(Drop)]
struct Places {
    first_came: AtomicBool,
    second_came: AtomicBool,
    /// One of the two waited in vain.
    late: AtomicBool,
}

/// Places to which nobody has come.
fn nobody_came() -> Places {
    Places {
        first_came: AtomicBool::new(false),
        second_came: AtomicBool::new(false),
        late: AtomicBool::new(false),
    }
}

/// The reader waits behind its first call until the writer has come to the header's piece of its second flush, and the writer waits there until
/// the reader's second call was answered.
#[derive(Drop)]
struct Crossing {
    places: Places,
}

impl Gate for Crossing {
    fn turn(&self, actor: u32, number: u64) {
        match (actor, number) {
            (0, 2) => {
                self.places.first_came.store(true, Ordering::SeqCst);
                wait_for(&self.places.second_came, &self.places.late);
            }
            (1, 1) => wait_for(&self.places.first_came, &self.places.late),
            (1, 2) => self.places.second_came.store(true, Ordering::SeqCst),
            _ => {}
        }
    }
}

/// Each of two readers waits behind its first call until the first call of the other was answered too.
#[derive(Drop)]
struct Meeting {
    places: Places,
}

impl Gate for Meeting {
    fn turn(&self, actor: u32, number: u64) {
        match (actor, number) {
            (1, 1) => {
                self.places.first_came.store(true, Ordering::SeqCst);
                wait_for(&self.places.second_came, &self.places.late);
            }
            (2, 1) => {
                self.places.second_came.store(true, Ordering::SeqCst);
                wait_for(&self.places.first_came, &self.places.late);
            }
            _ => {}
        }
    }
}

/// Of a run of one reader and two flushes: the pieces that each line tells, the pieces behind which the second call ended, and its rows and
/// their sum.
type Run = (u64, u64, u64, u64, i128);

fn told(report: &LiveReport) -> Option<Run> {
    let ([first, second], [_, last]) = (report.flushes.as_slice(), report.polls.as_slice()) else {
        return None;
    };
    match last.answer {
        Poll::Rows { rows, sum } => Some((first.pieces, second.pieces, last.after, rows, sum)),
        _ => None,
    }
}

/// What a run of these batches tells whose one reader and writer cross, and whether one of the two waited in vain.
fn crossed<R: Threads + Wait + Sync>(
    rt: &R,
    alloc: Global,
    chunk_rows: u64,
    budget: u64,
    of: &[&[i128]],
) -> Result<(bool, Option<Run>), Fail>
    requires rows { (1 ≤ chunk_rows) × (chunk_rows ≤ 65536) }
    requires budget { (1024 ≤ budget) × (budget ≤ 2 ^ 30) }
{
    let gate = Crossing {
        places: nobody_came(),
    };
    let report = report_of(rt, alloc, chunk_rows, budget, of, 1, 0, &gate)?;
    Ok((gate.places.late.load(Ordering::SeqCst), told(&report)))
}

// With the writer and the readers called one after the other in `h5w_live`'s `run`, or with a lock held round each flush and each call, one
// of the two waits in vain. The second flush writes a cell, a chunk, the superblock, EAIB, EAHD and the dataset header: 6 pieces behind 11.
// Where the writer came to its turn before another piece, the call would end behind fewer.
#[test]
fn a_call_between_the_pieces_of_a_flush_is_answered(rt: HostRuntime) -> Result<(), Fail> {
    let batches: [&[i128]; 2] = [&[1, 2, 3], &[4, 5]];
    let found = crossed(&rt, rt.alloc(), 2, 65_536, &batches)?;
    assert_eq!(rt; found, (false, Some((11, 17, 16, 3, 6))));
    Ok(())
}

// Of the first batch a chunk of 2,048 bytes is written early, in 4 pieces behind the 5 of the creation; its flush writes the superblock, EAIB,
// EAHD and the dataset header. Of the second the 511 cells that fill this chunk and the next chunk are, in 8 pieces behind 13, and its flush
// writes the same four. Where the writer came to its turn at an early piece too, the call would end behind fewer than 24.
#[test]
fn the_writer_comes_to_no_turn_at_early_pieces(rt: HostRuntime) -> Result<(), Fail> {
    let batches: [&[i128]; 2] = [&[1], &[2; 512]];
    let found = crossed(&rt, rt.alloc(), 512, 1024, &batches)?;
    assert_eq!(rt; found, (false, Some((13, 25, 24, 1, 1))));
    Ok(())
}

// With all calls of one reader before those of the next one, each waits in vain.
#[test]
fn two_readers_poll_side_by_side(rt: HostRuntime) -> Result<(), Fail> {
    let gate = Meeting {
        places: nobody_came(),
    };
    let batches: [&[i128]; 1] = [&[1, 2, 3]];
    report_of(&rt, rt.alloc(), 2, 65_536, &batches, 2, 0, &gate)?;
    assert!(rt; !gate.places.late.load(Ordering::SeqCst));
    Ok(())
}
