//! The command that says what readers find wherever a writer stops.
ghost use Rattle.h5w_options.specs.Options.{AreOptions};
ghost use Rattle.h5w_batches.specs.Inputs.{SameSource};
ghost use Rattle.h5w_stopping.specs.Stops.{StopEnds, StopEndsWell};

use h5w_options::Options;
use h5w_text::{Sink, Source, Status};
use std::alloc::Global;

/// Does the lines of the source, which are a writer's alone, on a new file in memory by these options, and writes what a reader's open
/// finds behind each piece, as [`h5w_stopping::stop`] says.
pub fn stop<S: Source, K: Sink>(
    alloc: Global,
    options: &Options,
    source: &mut S,
    sink: &mut K,
) -> Status
    requires { AreOptions options.now }
    ensures stops { StopEnds options.now result (S.view source.old) (S.view source.new) (K.view sink.old) (K.view sink.new) }
    ensures completes { StopEndsWell options.now result (S.view source.old) (S.view source.new) (K.view sink.old) (K.view sink.new) }
    ensures source { SameSource (S.view source.old) (S.view source.new) }
{
    h5w_stopping::stop(alloc, options, source, sink)
}
