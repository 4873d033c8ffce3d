//! A script over several datasets of one file.
ghost use Rattle.std.specs.Prelude.{◌≤◌, ◌*◌, length};
ghost use Rattle.h5w_options.specs.Options.{AreAttempts, AreOptions};
ghost use Rattle.h5w_batches.specs.Inputs.{SameSource};
ghost use Rattle.h5w_several_creation.specs.Forms.{AreNames};
ghost use Rattle.h5w_several_creation_laws.specs.SeveralFiles.{AllNamed};
ghost use Rattle.h5w_playing.specs.Starts.{PlayEnds};

use crate::script::SeveralScript;
use h5w_names::Names;
use h5w_options::Options;
use h5w_playing::{cannot_play, play};
use h5w_text::{Sink, Source, Status};
use std::alloc::Global;

/// Lets a machine go. It has many parts, and each place that lets it go is dear to prove.
fn release(_script: SeveralScript) {}

/// Runs the script from the source on a new machine of datasets of these names, each of them by these options but for their name.
pub fn play_several<S: Source, K: Sink>(
    alloc: Global,
    names: &Names,
    options: &Options,
    attempts: u32,
    source: &mut S,
    sink: &mut K,
) -> Status
    requires options { AreOptions options.now }
    requires attempts { AreAttempts attempts }
    requires names { AreNames names.now }
    requires named { AllNamed names.now }
    requires low { 1024 * length names.now ≤ options.now.limit }
    ensures plays { PlayEnds names.now options.now attempts result (S.view source.old) (S.view source.new) (K.view sink.old) (K.view sink.new) }
    ensures source { SameSource (S.view source.old) (S.view source.new) }
{
    let mut script = match SeveralScript::new(alloc, names, options, attempts) {
        Ok(script) => script,
        Err(_) => return cannot_play(alloc, sink),
    };
    let status = play(alloc, &mut script, source, sink);
    release(script);
    status
}
