//! The command that polls a file.
ghost use Rattle.std.specs.Prelude.{◌≤◌};
ghost use Rattle.h5w_reader.specs.Readers.{reader_rules};
ghost use Rattle.h5w_files.specs.Ends.{EndsWell};
ghost use Rattle.h5w_files.specs.Polls.{PollEnds, poll_of};

use h5w_files::Polls;
use h5w_image::Disk;
use h5w_text::{Sink, Status};
use std::alloc::Global;

/// Opens and refreshes the dataset that the root group's link of `name` leads to in the file of the name `file`, and writes what each of
/// these calls finds, as [`h5w_files::poll`] says.
pub fn poll<K: Sink, D: Disk>(
    alloc: Global,
    file: &str,
    name: &[u8],
    polls: Polls,
    sink: &mut K,
    disk: &mut D,
) -> Status
    requires { 1 ≤ polls.times }
    ensures completes { EndsWell (poll_of (reader_rules name.now polls.attempts) polls.values) file.now (D.view disk.old) (D.view disk.new) result (K.view sink.old) (K.view sink.new) }
    ensures polls { PollEnds file.now name.now polls.times polls.attempts polls.values (D.view disk.old) (D.view disk.new) result (K.view sink.old) (K.view sink.new) }
{
    h5w_files::poll(alloc, file, name, polls, sink, disk)
}
