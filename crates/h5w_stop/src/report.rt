//! What a sweep reports.
ghost use Rattle.std.specs.Prelude.{◌≡◌};

use crate::outcome::Outcome;
use std::marker::Model;

/// Positions one behind another at which an open finds the same.
#[derive(Clone, Copy, Debug, PartialEq, Eq)]
pub struct Run {
    pub outcome: Outcome,
    /// How many pieces are visible at the first of them.
    pub first: u64,
    /// How many are at the last.
    pub last: u64,
}

/// The runs of all positions of a journal, one behind another.
#[derive(Drop)]
pub struct Report {
    runs: Vec<Run>,
}

impl Model for Report {
    ghost use Rattle.std.specs.Prelude.{List};
    ghost use Rattle.h5w_stop.specs.declared.report.Run.{Run as OneRun};

    ghost Value = { List OneRun };

    ghost view = { λ r. r.runs.items };
}

impl Report {
    /// These runs, without a copy.
    pub fn from_vec(runs: Vec<Run>) -> Report
        ensures { result ≡ runs.items }
    {
        Report { runs }
    }

    /// The runs as a vector, without a copy.
    pub fn into_vec(self) -> Vec<Run>
        ensures { result.items ≡ self }
    {
        self.runs
    }

    pub fn as_slice(&self) -> &[Run]
        ensures { result.now ≡ self.now }
    {
        self.runs.as_slice()
    }
}
