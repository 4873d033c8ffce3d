//! One writer and its readers in threads over a file in memory that they share.
ghost use Rattle.std.specs.Prelude.{◌≡◌, ◌+◌, ◌≤◌, IfErr, IfOk, OnOk, None};
ghost use Rattle.h5w_model.specs.Agrees.{Agrees, values_in};
ghost use Rattle.h5w_options.specs.Options.{AreAttempts, AreOptions, columns_in};
ghost use Rattle.h5w_creation.specs.NewFiles.{new_file};
ghost use Rattle.h5w_live.specs.Reports.{AreWhole, IsCause, IsShut, TellSeats, before_close, run_of};
ghost use Rattle.h5w_live.specs.Writing.{AreBatches, first_refused};

use crate::creating::create;
use crate::joining::finish;
use crate::lists::Batches;
use crate::readers::Readers;
use crate::release::{release_pen, release_session};
use crate::report::{LiveError, LiveReport, lost};
use crate::seats::seats;
use crate::threads::{Writer, run_all};
use h5w_image::Gate;
use h5w_live_reading::Calls;
use h5w_options::Options;
use std::alloc::Global;
use std::sync::Wait;
use std::sync::atomic::AtomicBool;
use std::thread::Threads;

/// Creates a file by these options, in memory, of one dimension or of two. Then, in threads, one writer appends and flushes the batches in
/// order, and the readers make their calls: the first of each opens the dataset, each other refreshes, and where a call finds rows all of them
/// are read. The creation is visible before any reader begins, and the session is closed once all have ended. The first batch that is refused
/// is the answer. Each batch is whole rows; an empty one is none, and has no line.
///
/// Where there are `mirrors`, a second image follows the first, and so many readers look at it: they are numbered on from those of the first.
///
/// The writer comes to its turn `f` before the dataset header's piece of flush `f`, and reader `r` to its turn `k` after its call `k`. The
/// follower is the actor behind all readers: it comes to its turn `q` after a batch by which the second image has `q` pieces.
pub fn live<R: Threads + Wait + Sync, G: Gate>(
    rt: &R,
    alloc: Global,
    options: &Options,
    batches: &Batches,
    readers: Readers,
    gate: &G,
) -> Result<LiveReport, LiveError>
    requires options { AreOptions options.now }
    requires rows { AreBatches (columns_in options.now.columns) batches.now }
    requires readers { (1 ≤ readers.count) × (readers.count ≤ 16) }
    requires polls { (1 ≤ readers.polls) × (readers.polls ≤ 10000) }
    requires attempts { AreAttempts readers.attempts }
    requires mirrors { readers.mirrors ≤ 16 }
    ensures agrees { IfOk result (λ r. Agrees (run_of (new_file options.now) readers.attempts (readers.count + readers.mirrors) readers.polls batches.now r.flushes) batches.now r.polls) }
    ensures whole { IfOk result (λ r. AreWhole options.now.name (columns_in options.now.columns) r.journal.writes (values_in batches.now) 0 r.flushes) }
    ensures shut { IfOk result (λ r. IsShut options.now.name (columns_in options.now.columns) r.journal.writes (values_in batches.now)) }
    ensures seats { IfOk result (λ r. TellSeats (new_file options.now) readers.attempts (readers.count + readers.mirrors) readers.polls (before_close r.journal.writes) r.polls) }
    ensures accepted { OnOk result (first_refused (new_file options.now) 0 1 batches.now ≡ None) }
    ensures cause { IfErr result (IsCause (new_file options.now) options.now.limit batches.now) }
{
    let (image, mut seat, session, second) = match create(rt, alloc, options, readers.mirrors) {
        Ok(created) => created,
        Err(loss) => return Err(lost(loss)),
    };
    let Ok((seats, watched)) = seats(alloc, &image, &mut seat, second, readers) else {
        release_session(session);
        release_pen(seat);
        return Err(LiveError::OutOfMemory);
    };
    let over = AtomicBool::new(false);
    let writer = Writer {
        image: &image,
        seat,
        session,
        batches: batches.as_slice(),
        over: &over,
    };
    let calls = Calls {
        name: options.name.as_slice(),
        attempts: readers.attempts,
        count: readers.polls,
    };
    let (written, ended, beside) = run_all(rt, alloc, writer, seats, watched, calls, gate);
    finish(rt, &image, written, ended, beside)
}
