//! The commands that wait for nobody.
ghost use Rattle.h5w_text.specs.Streams.{SourceView};
ghost use Rattle.h5w_batches.specs.Inputs.{SameSource};
ghost use Rattle.h5w_commands.specs.Runs.{Does, DoesInside, DoesWhole, IsOfFile, IsPlain};
ghost use Rattle.h5w_words.specs.Limits.{IsWithinLimits};

use crate::append::{append, beginning_of};
use crate::check::check;
use crate::clear::clear;
use crate::make::make;
use crate::new::new;
use crate::play::play;
use crate::poll::poll;
use crate::repack::repack;
use crate::stop::stop;
use h5w_appending::Terms;
use h5w_files::Polls;
use h5w_image::Disk;
use h5w_repacking::Rewrite;
use h5w_text::{Sink, Source, Status};
use h5w_words::Job;
use std::alloc::Global;

/// Does a job on files that reads no input, and answers the status with which it ends.
fn on_files<K: Sink, D: Disk>(alloc: Global, job: &Job, sink: &mut K, disk: &mut D) -> Status
    requires limits { IsWithinLimits job.now }
    requires files { IsOfFile job.now }
    ensures { (s : SourceView) → DoesInside job.now result s s (K.view sink.old) (K.view sink.new) (D.view disk.old) (D.view disk.new) }
{
    match job {
        Job::New {
            file,
            names,
            options,
        } => new(alloc, file.as_str(), names, options, sink, disk),
        Job::Check { file, names } => check(alloc, file.as_str(), names, sink, disk),
        Job::Poll {
            file,
            name,
            times,
            attempts,
            values,
        } => {
            let polls = Polls {
                times: *times,
                attempts: *attempts,
                values: *values,
            };
            poll(alloc, file.as_str(), name.as_slice(), polls, sink, disk)
        }
        Job::Clear { file, upgrade } => clear(alloc, file.as_str(), *upgrade, sink, disk),
        Job::Repack {
            file,
            to,
            names,
            limit,
            ranges,
        } => {
            let rewrite = Rewrite {
                file: file.as_str(),
                to: to.as_str(),
                limit: *limit,
                ranges: *ranges,
            };
            repack(alloc, rewrite, names, sink, disk)
        }
        _ => unreachable!(),
    }
}

/// Does a job that waits for nobody, and answers the status with which it ends: input comes from the source, text goes to the sink, files
/// are those of the disk. Whatever these answer, it returns.
pub fn plain<S: Source, K: Sink, D: Disk>(
    alloc: Global,
    job: &Job,
    source: &mut S,
    sink: &mut K,
    disk: &mut D,
) -> Status
    requires limits { IsWithinLimits job.now }
    requires waits { IsPlain job.now }
    ensures does { Does job.now result (S.view source.old) (S.view source.new) (K.view sink.old) (K.view sink.new) (D.view disk.old) (D.view disk.new) }
    ensures inside { DoesInside job.now result (S.view source.old) (S.view source.new) (K.view sink.old) (K.view sink.new) (D.view disk.old) (D.view disk.new) }
    ensures completes { DoesWhole job.now result (S.view source.old) (S.view source.new) (K.view sink.old) (K.view sink.new) (D.view disk.old) (D.view disk.new) }
    ensures source { SameSource (S.view source.old) (S.view source.new) }
{
    match job {
        Job::Play {
            names,
            options,
            attempts,
        } => play(alloc, names, options, *attempts, source, sink),
        Job::Make { count, seed } => make(alloc, *count, *seed, sink),
        Job::Append {
            file,
            names,
            limit,
            budget,
            keeps,
            takes,
        } => {
            let terms = Terms {
                by: beginning_of(*takes),
                file: file.as_str(),
                limit: *limit,
                budget: *budget,
                keeps: *keeps,
            };
            append(alloc, terms, names, source, sink, disk)
        }
        Job::Stop { options } => stop(alloc, options, source, sink),
        Job::Live { .. } => unreachable!(),
        _ => on_files(alloc, job, sink, disk),
    }
}
