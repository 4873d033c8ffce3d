//! A run in threads over the batches of an input.
ghost use Rattle.std.specs.Prelude.{◌≡◌, ◌+◌, ◌≤◌, ℕ, List, ℤ, IfErr, IfOk, OnOk, None};
ghost use Rattle.h5w_options.specs.Options.{AreAttempts, AreOptions, columns_in};
ghost use Rattle.h5w_creation_laws.specs.CreatedFiles.{CreatedFile};
ghost use Rattle.h5w_creation.specs.NewFiles.{new_file};
ghost use Rattle.h5w_text.specs.Streams.{SourceView};
ghost use Rattle.h5w_batches.specs.Inputs.{SameSource};
ghost use Rattle.h5w_batches.specs.Reads.{ReadsBatches};
ghost use Rattle.h5w_live.specs.Reports.{IsCause, Reports};
ghost use Rattle.h5w_live.specs.Writing.{AreBatches, first_refused};
ghost use Rattle.h5w_live.specs.declared.report.LiveReport.{LiveReport as Report};
ghost use Rattle.h5w_running.specs.Runs.{Asked, Halts, Refuses, Tells, asked_by, mirrored_in};
ghost use Rattle.h5w_running.specs.Ends.{LiveEnds, LiveEndsWell, LiveTells};

use crate::ended::Ended;
use crate::refusal::Refusal;
use crate::text::text_of;
use h5w_batches::{BatchError, read_batches};
use h5w_image::Gate;
use h5w_live::{Batches, LiveError, LiveReport, Readers, live};
use h5w_options::Options;
use h5w_text::{ErrorLine, Sink, Source, Status, say, say_line, tell};
use std::alloc::Global;
use std::sync::Wait;
use std::thread::Threads;

/// How many values a row has.
fn columns(options: &Options) -> u64
    requires { AreOptions options.now }
    ensures is { result ≡ columns_in options.now.columns }
    ensures some { 1 ≤ result }
{
    match options.columns {
        Some((columns, _)) => columns,
        None => 1,
    }
}

/// The batches of the input.
fn read<S: Source>(alloc: Global, columns: u64, source: &mut S) -> Result<Batches, Refusal>
    requires { 1 ≤ columns }
    ensures ok { IfOk result (λ batches. ReadsBatches columns (S.view source.old) (S.view source.new) batches) }
    ensures rows { IfOk result (λ batches. AreBatches columns batches) }
    ensures refused { (a : Asked) → a.file.columns ≡ columns → IfErr result (λ e. Refuses a (S.view source.old) (S.view source.new) e) }
    ensures source { SameSource (S.view source.old) (S.view source.new) }
{
    match read_batches(alloc, columns, source) {
        Ok(batches) => Ok(Batches::from_vec(batches)),
        Err(BatchError::Line(number)) => Err(Refusal::Error(ErrorLine::Line(number))),
        Err(BatchError::Input { limit }) => Err(Refusal::Error(ErrorLine::Input { limit })),
        Err(BatchError::Source) => Err(Refusal::Error(ErrorLine::Source)),
        Err(BatchError::OutOfMemory) => Err(Refusal::Error(ErrorLine::Memory)),
    }
}

/// The refusal that an error of a run stands for.
fn refusal_of(error: LiveError) -> Refusal
    ensures { (f : CreatedFile) (most : ℕ) (bs : List (List ℤ)) → IsCause f most bs error → Halts f most bs result }
{
    match error {
        LiveError::OutOfRange {
            batch,
            index,
            value,
        } => Refusal::Error(ErrorLine::Range {
            line: batch,
            index,
            value,
        }),
        LiveError::Chunks { chunks, limit } => {
            Refusal::Error(ErrorLine::FullChunks { chunks, limit })
        }
        LiveError::Space(full) => Refusal::Error(ErrorLine::FullSpace {
            at: full.at,
            size: full.size,
            limit: full.limit,
        }),
        LiveError::Failed(worn) => Refusal::Image(worn),
        LiveError::OutOfMemory => Refusal::Error(ErrorLine::Memory),
    }
}

/// What the run over the batches reports.
fn reported<R: Threads + Wait + Sync, G: Gate>(
    rt: &R,
    alloc: Global,
    options: &Options,
    batches: &Batches,
    readers: Readers,
    gate: &G,
) -> Result<LiveReport, Refusal>
    requires options { AreOptions options.now }
    requires rows { AreBatches (columns_in options.now.columns) batches.now }
    requires readers { (1 ≤ readers.count) × (readers.count ≤ 16) }
    requires polls { (1 ≤ readers.polls) × (readers.polls ≤ 10000) }
    requires attempts { AreAttempts readers.attempts }
    requires mirrors { readers.mirrors ≤ 16 }
    ensures reports { IfOk result (λ r. Reports (new_file options.now) batches.now readers.attempts (readers.count + readers.mirrors) readers.polls r) }
    ensures accepted { OnOk result (first_refused (new_file options.now) 0 1 batches.now ≡ None) }
    ensures halts { IfErr result (λ e. Halts (new_file options.now) options.now.limit batches.now e) }
{
    match live(rt, alloc, options, batches, readers, gate) {
        Ok(report) => Ok(report),
        Err(error) => Err(refusal_of(error)),
    }
}

/// How many pieces the file has, where a second image was asked for.
fn mirrored_in(mirrors: u32, report: &LiveReport) -> Option<u64>
    ensures { (a : Asked) → a.mirrors ≡ mirrors → result ≡ mirrored_in a report.now }
{
    if mirrors > 0 {
        Some(report.journal.len())
    } else {
        None
    }
}

/// The text of what the run over the batches of the input reports.
fn told<R: Threads + Wait + Sync, S: Source, G: Gate>(
    rt: &R,
    alloc: Global,
    options: &Options,
    readers: Readers,
    source: &mut S,
    gate: &G,
) -> Result<Vec<u8>, Refusal>
    requires options { AreOptions options.now }
    requires readers { (1 ≤ readers.count) × (readers.count ≤ 16) }
    requires polls { (1 ≤ readers.polls) × (readers.polls ≤ 10000) }
    requires attempts { AreAttempts readers.attempts }
    requires mirrors { readers.mirrors ≤ 16 }
    ensures tells { IfOk result (λ text. (r : Report) × Tells (asked_by options.now readers.count readers.polls readers.attempts readers.mirrors) (S.view source.old) (S.view source.new) r text.items) }
    ensures refused { IfErr result (λ e. Refuses (asked_by options.now readers.count readers.polls readers.attempts readers.mirrors) (S.view source.old) (S.view source.new) e) }
    ensures source { SameSource (S.view source.old) (S.view source.new) }
{
    let batches = match read(alloc, columns(options), source) {
        Ok(batches) => batches,
        Err(refusal) => return Err(refusal),
    };
    let report = match reported(rt, alloc, options, &batches, readers, gate) {
        Ok(report) => report,
        Err(refusal) => return Err(refusal),
    };
    let mirrored = mirrored_in(readers.mirrors, &report);
    match text_of(
        alloc,
        report.flushes.as_slice(),
        report.polls.as_slice(),
        mirrored,
    ) {
        Ok(text) => Ok(text),
        Err(_) => Err(Refusal::Error(ErrorLine::Memory)),
    }
}

/// Writes the line of a refusal.
fn refuse<K: Sink>(alloc: Global, refusal: Refusal, sink: &mut K) -> Ended
    ensures { (a : Asked) (s t : SourceView) → Refuses a s t refusal → LiveEnds a result s t (K.view sink.old) (K.view sink.new) }
{
    match refusal {
        Refusal::Error(error) => Ended::With(tell(alloc, &error, sink)),
        Refusal::Image(worn) => match say_line(&ErrorLine::Image, sink) {
            Status::Sink => Ended::With(Status::Sink),
            _ => Ended::Image(worn),
        },
    }
}

/// Reads the batches of the input to its end. Then creates a file in memory by these options, and runs in threads one writer that appends and
/// flushes the batches, and these readers, each of which makes its calls. Writes a line for each flush, a line for each call of each reader,
/// how many pieces a second image has, and how many rows there are; or why not.
pub fn run_live<R: Threads + Wait + Sync, S: Source, K: Sink, G: Gate>(
    rt: &R,
    alloc: Global,
    options: &Options,
    readers: Readers,
    source: &mut S,
    sink: &mut K,
    gate: &G,
) -> Ended
    requires options { AreOptions options.now }
    requires readers { (1 ≤ readers.count) × (readers.count ≤ 16) }
    requires polls { (1 ≤ readers.polls) × (readers.polls ≤ 10000) }
    requires attempts { AreAttempts readers.attempts }
    requires mirrors { readers.mirrors ≤ 16 }
    ensures ran { LiveTells (asked_by options.now readers.count readers.polls readers.attempts readers.mirrors) result (S.view source.old) (S.view source.new) (K.view sink.old) (K.view sink.new) }
    ensures inside { LiveEnds (asked_by options.now readers.count readers.polls readers.attempts readers.mirrors) result (S.view source.old) (S.view source.new) (K.view sink.old) (K.view sink.new) }
    ensures completes { LiveEndsWell (asked_by options.now readers.count readers.polls readers.attempts readers.mirrors) result (S.view source.old) (S.view source.new) (K.view sink.old) (K.view sink.new) }
    ensures source { SameSource (S.view source.old) (S.view source.new) }
{
    match told(rt, alloc, options, readers, source, gate) {
        Ok(text) => Ended::With(say(&text, Status::Done, sink)),
        Err(refusal) => refuse(alloc, refusal, sink),
    }
}
