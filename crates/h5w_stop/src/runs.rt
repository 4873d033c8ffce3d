//! The runs of a sweep, position by position.
ghost use Rattle.std.specs.Prelude.{◌≡◌, ◌+◌, ℕ, ◌∷◌, [], OnOk, IfOk};
ghost use Rattle.h5w_stop.specs.Outcomes.{AreRuns};
ghost use Rattle.h5w_stop.specs.declared.outcome.Outcome.{Outcome as Found};

use crate::outcome::Outcome;
use crate::report::{Report, Run};
use h5w_model::OutOfMemory;
use std::alloc::Global;
use std::marker::Model;

/// The runs of the positions so far. The last one may go on.
#[derive(Drop)]
pub struct Runs {
    closed: Vec<Run>,
    last: Run,
}

impl Model for Runs {
    ghost use Rattle.std.specs.Prelude.{List, ◌++◌, ◌∷◌, []};
    ghost use Rattle.h5w_stop.specs.declared.report.Run.{Run as OneRun};

    ghost Value = { List OneRun };

    ghost view = { λ r. r.closed.items ++ r.last ∷ [] };
}

impl Runs {
    /// The run of position 0 alone.
    pub fn new(alloc: Global, outcome: Outcome) -> Runs
        ensures { result ≡ record { outcome = outcome; first = 0; last = 0 } ∷ [] }
    {
        Runs {
            closed: Vec::new(alloc),
            last: Run {
                outcome,
                first: 0,
                last: 0,
            },
        }
    }

    /// Adds the next position: it goes on with the last run, or begins one.
    pub fn add(&mut self, position: u64, outcome: Outcome) -> Result<(), OutOfMemory>
        ensures { (at : ℕ → Found) → at position ≡ outcome → AreRuns at 0 position self.old → OnOk result (AreRuns at 0 (position + 1) self.new) }
    {
        if self.last.outcome == outcome {
            self.last.last = position;
            return Ok(());
        }
        self.closed.push(self.last)?;
        self.last = Run {
            outcome,
            first: position,
            last: position,
        };
        Ok(())
    }

    /// All runs.
    pub fn finish(mut self) -> Result<Report, OutOfMemory>
        ensures { IfOk result (λ report. report ≡ self) }
    {
        self.closed.push(self.last)?;
        Ok(Report::from_vec(self.closed))
    }
}
