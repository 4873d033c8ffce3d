//! The command that runs a writer and its readers in threads.
ghost use Rattle.std.specs.Prelude.{◌≤◌};
ghost use Rattle.h5w_options.specs.Options.{AreAttempts, AreOptions};
ghost use Rattle.h5w_batches.specs.Inputs.{SameSource};
ghost use Rattle.h5w_running.specs.Runs.{asked_by};
ghost use Rattle.h5w_running.specs.Ends.{LiveEnds, LiveEndsWell, LiveTells};

use h5w_image::Gate;
use h5w_options::Options;
use h5w_running::{Ended, Readers, run_live};
use h5w_text::{Sink, Source};
use std::alloc::Global;
use std::sync::Wait;
use std::thread::Threads;

/// Runs in threads a writer of the source's batches on a new file in memory by these options, and readers that poll beside it, and writes
/// what they report, as [`run_live`] says.
pub fn live<R: Threads + Wait + Sync, S: Source, K: Sink, G: Gate>(
    rt: &R,
    alloc: Global,
    options: &Options,
    readers: Readers,
    source: &mut S,
    sink: &mut K,
    gate: &G,
) -> Ended
    requires options { AreOptions options.now }
    requires readers { (1 ≤ readers.count) × (readers.count ≤ 16) }
    requires polls { (1 ≤ readers.polls) × (readers.polls ≤ 10000) }
    requires attempts { AreAttempts readers.attempts }
    requires mirrors { readers.mirrors ≤ 16 }
    ensures ran { LiveTells (asked_by options.now readers.count readers.polls readers.attempts readers.mirrors) result (S.view source.old) (S.view source.new) (K.view sink.old) (K.view sink.new) }
    ensures inside { LiveEnds (asked_by options.now readers.count readers.polls readers.attempts readers.mirrors) result (S.view source.old) (S.view source.new) (K.view sink.old) (K.view sink.new) }
    ensures completes { LiveEndsWell (asked_by options.now readers.count readers.polls readers.attempts readers.mirrors) result (S.view source.old) (S.view source.new) (K.view sink.old) (K.view sink.new) }
    ensures source { SameSource (S.view source.old) (S.view source.new) }
{
    run_live(rt, alloc, options, readers, source, sink, gate)
}
