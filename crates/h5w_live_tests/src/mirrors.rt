//! A run with a second image.

use crate::helpers::{report_of, wait_for};
use h5w_image::Gate;
use h5w_live::LiveReport;
use h5w_model::Poll;
use std::alloc::Global;
use std::sync::Wait;
use std::sync::atomic::{AtomicBool, Ordering};
use std::test::Fail;
use std::thread::Threads;

/// The reader of the second image waits behind its first call until that image has 11 pieces: 5 of the creation, and 6 of the flush.
#[derive(Drop)]
struct Following {
    came: AtomicBool,
    /// It waited in vain.
    late: AtomicBool,
}

impl Gate for Following {
    fn turn(&self, actor: u32, number: u64) {
        match (actor, number) {
            (2, 1) => wait_for(&self.came, &self.late),
            (3, 11) => self.came.store(true, Ordering::SeqCst),
            _ => {}
        }
    }
}

/// Of a run of one flush and a reader of each image: the readers of the calls, the pieces behind which the last one ended, and its rows and
/// their sum.
type Run = ([u32; 4], u64, u64, i128);

fn told(report: &LiveReport) -> Option<Run> {
    let ([_], [first, second, third, last]) = (report.flushes.as_slice(), report.polls.as_slice())
    else {
        return None;
    };
    match last.answer {
        Poll::Rows { rows, sum } => {
            let readers = [first.reader, second.reader, third.reader, last.reader];
            Some((readers, last.after, rows, sum))
        }
        _ => None,
    }
}

/// What a run tells whose second image's reader waits, how many pieces its journal has, and whether the reader waited in vain.
fn followed<R: Threads + Wait + Sync>(
    rt: &R,
    alloc: Global,
) -> Result<(bool, u64, Option<Run>), Fail> {
    let gate = Following {
        came: AtomicBool::new(false),
        late: AtomicBool::new(false),
    };
    let batches: [&[i128]; 1] = [&[1, 2, 3]];
    let report = report_of(rt, alloc, 2, 65_536, &batches, 1, 1, &gate)?;
    Ok((
        gate.late.load(Ordering::SeqCst),
        report.journal.len(),
        told(&report),
    ))
}

// With a writer that sends nothing, or a follower that stops at once, the second image has no flush before all readers have ended. The journal
// has the pieces of the creation, of the flush and of the close, one more than the flush tells.
#[test]
fn a_second_image_has_the_flush_while_the_readers_poll(rt: HostRuntime) -> Result<(), Fail> {
    let found = followed(&rt, rt.alloc())?;
    assert_eq!(rt; found, (false, 12, Some(([1, 1, 2, 2], 11, 3, 6))));
    Ok(())
}
