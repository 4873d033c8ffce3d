//! The command that makes a file.
ghost use Rattle.std.specs.Prelude.{◌≡◌, true};
ghost use Rattle.h5w_options.specs.Options.{AreOptions};
ghost use Rattle.h5w_files.specs.Ends.{EndsWell};
ghost use Rattle.h5w_several_creation_laws.specs.SeveralFiles.{end_of};
ghost use Rattle.h5w_appending.specs.Creates.{CreateEnds, end_given};
ghost use Rattle.h5w_words.specs.Names.{are_names};
ghost use Rattle.h5w_commands.specs.News.{files_of};

use h5w_appending::create;
use h5w_creation::form_of;
use h5w_image::Disk;
use h5w_names::Names;
use h5w_options::Options;
use h5w_text::{Sink, Status};
use std::alloc::Global;

/// Makes the file of the name `file` by these options, with an empty dataset under each of these names, and writes where it ends.
pub fn new<K: Sink, D: Disk>(
    alloc: Global,
    file: &str,
    names: &Names,
    options: &Options,
    sink: &mut K,
    disk: &mut D,
) -> Status
    requires options { AreOptions options.now }
    requires names { are_names names.now ≡ true }
    ensures creates { CreateEnds file.now (files_of names.now options.now) (D.view disk.old) (D.view disk.new) result (K.view sink.old) (K.view sink.new) }
    ensures completes { EndsWell (end_given (end_of (files_of names.now options.now))) file.now (D.view disk.old) (D.view disk.new) result (K.view sink.old) (K.view sink.new) }
{
    create(alloc, file, names, &form_of(options), sink, disk)
}
