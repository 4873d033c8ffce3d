//! The whole program, over what it is handed.
ghost use Rattle.std.specs.Prelude.{map, string_bytes};
ghost use Rattle.h5w_words.specs.Commands.{job_of};
ghost use Rattle.h5w_batches.specs.Inputs.{SameSource};
ghost use Rattle.h5w_commands.specs.Runs.{Ran, RanInside, RanWhole};

use crate::live::live;
use crate::plain::plain;
use h5w_image::{Disk, Gate};
use h5w_running::{Ended, Readers};
use h5w_text::{ErrorLine, Sink, Source, say_line};
use h5w_words::{Job, WordsError, read_words};
use std::alloc::Global;
use std::sync::Wait;
use std::thread::Threads;

/// Lets a job go. It is one of many kinds, and each place that lets it go is dear to prove.
fn release(_job: Job) {}

/// Does the job that the words ask for, the first of which is the program's name, and answers how it ended. Input comes from the source,
/// text goes to the sink, files are those of the disk, and threads pass the gate at each of their turns. To words outside the command set
/// it says `error usage`.
pub fn run<R: Threads + Wait + Sync, S: Source, K: Sink, D: Disk, G: Gate>(
    rt: &R,
    alloc: Global,
    words: &[String],
    source: &mut S,
    sink: &mut K,
    disk: &mut D,
    gate: &G,
) -> Ended
    ensures ran { Ran (job_of (map string_bytes words.now)) result (S.view source.old) (S.view source.new) (K.view sink.old) (K.view sink.new) (D.view disk.old) (D.view disk.new) }
    ensures inside { RanInside (job_of (map string_bytes words.now)) result (S.view source.old) (S.view source.new) (K.view sink.old) (K.view sink.new) (D.view disk.old) (D.view disk.new) }
    ensures completes { RanWhole (job_of (map string_bytes words.now)) result (S.view source.old) (S.view source.new) (K.view sink.old) (K.view sink.new) (D.view disk.old) (D.view disk.new) }
    ensures source { SameSource (S.view source.old) (S.view source.new) }
{
    match read_words(alloc, words) {
        Ok(
            Job::Live {
                options,
                readers,
                polls,
                attempts,
                mirrors,
            },
        ) => {
            let readers = Readers {
                count: readers,
                polls,
                attempts,
                mirrors,
            };
            live(rt, alloc, &options, readers, source, sink, gate)
        }
        Ok(job) => {
            let status = plain(alloc, &job, source, sink, disk);
            release(job);
            Ended::With(status)
        }
        Err(WordsError::Usage) => Ended::With(say_line(&ErrorLine::Usage, sink)),
        Err(WordsError::OutOfMemory) => Ended::With(say_line(&ErrorLine::Memory, sink)),
    }
}
