//! The command that checks a file.
ghost use Rattle.h5w_files.specs.Ends.{EndsWell};
ghost use Rattle.h5w_files.specs.Checks.{CheckEnds, check_of};

use h5w_image::Disk;
use h5w_names::Names;
use h5w_text::{Sink, Status};
use std::alloc::Global;

/// Writes what the file of the name `file` has of the datasets that the root group's links of these names lead to where it is valid, and
/// else the first finding, as [`h5w_files::check`] says.
pub fn check<K: Sink, D: Disk>(
    alloc: Global,
    file: &str,
    names: &Names,
    sink: &mut K,
    disk: &mut D,
) -> Status
    ensures checks { CheckEnds file.now names.now (D.view disk.old) (D.view disk.new) result (K.view sink.old) (K.view sink.new) }
    ensures completes { EndsWell (check_of names.now) file.now (D.view disk.old) (D.view disk.new) result (K.view sink.old) (K.view sink.new) }
{
    h5w_files::check(alloc, file, names, sink, disk)
}
