//! The command that runs a script, by how many datasets it names.
ghost use Rattle.std.specs.Prelude.{◌≡◌, ◌*◌, ◌≤◌, true, length};
ghost use Rattle.h5w_options.specs.Options.{AreAttempts, AreOptions};
ghost use Rattle.h5w_batches.specs.Inputs.{SameSource};
ghost use Rattle.h5w_playing.specs.Starts.{PlayEnds};
ghost use Rattle.h5w_words.specs.Names.{are_names};

use h5w_names::Names;
use h5w_options::Options;
use h5w_several_playing::{play_alone, play_several};
use h5w_text::{Sink, Source, Status};
use std::alloc::Global;

/// Runs the script from the source on a new file in memory, with a dataset under each of these names, by these options.
pub fn play<S: Source, K: Sink>(
    alloc: Global,
    names: &Names,
    options: &Options,
    attempts: u32,
    source: &mut S,
    sink: &mut K,
) -> Status
    requires options { AreOptions options.now }
    requires attempts { AreAttempts attempts }
    requires names { are_names names.now ≡ true }
    requires low { 1024 * length names.now ≤ options.now.limit }
    ensures plays { PlayEnds names.now options.now attempts result (S.view source.old) (S.view source.new) (K.view sink.old) (K.view sink.new) }
    ensures source { SameSource (S.view source.old) (S.view source.new) }
{
    if names.len() == 1 {
        play_alone(alloc, options, attempts, source, sink)
    } else {
        play_several(alloc, names, options, attempts, source, sink)
    }
}
