//! The command that clears the flags of writers in a file.
ghost use Rattle.h5w_files.specs.Ends.{EndsWell};
ghost use Rattle.h5w_files.specs.Clears.{ClearEnds, clears_of};

use h5w_image::Disk;
use h5w_text::{Sink, Status};
use std::alloc::Global;

/// Clears the flags of writers in the file of the name `file`, and writes the flags before and after, as [`h5w_files::clear`] says. Where
/// `upgrade` is set a superblock of version 2 becomes one of version 3.
pub fn clear<K: Sink, D: Disk>(
    alloc: Global,
    file: &str,
    upgrade: bool,
    sink: &mut K,
    disk: &mut D,
) -> Status
    ensures clears { ClearEnds file.now upgrade (D.view disk.old) (D.view disk.new) result (K.view sink.old) (K.view sink.new) }
    ensures completes { EndsWell (clears_of upgrade) file.now (D.view disk.old) (D.view disk.new) result (K.view sink.old) (K.view sink.new) }
{
    h5w_files::clear(alloc, file, upgrade, sink, disk)
}
