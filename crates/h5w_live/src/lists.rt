//! The batches of a run, and the lines of its report.
ghost use Rattle.std.specs.Prelude.{◌≡◌};

use h5w_model::{FlushLine, PollLine, Values};
use std::marker::Model;

/// Batches of values, one behind another.
#[derive(Drop)]
pub struct Batches {
    batches: Vec<Values>,
}

impl Model for Batches {
    ghost use Rattle.std.specs.Prelude.{ℤ, List};

    ghost Value = { List (List ℤ) };

    ghost view = { λ b. b.batches.items };
}

impl Batches {
    /// These batches, without a copy.
    pub fn from_vec(batches: Vec<Values>) -> Batches
        ensures { result ≡ batches.items }
    {
        Batches { batches }
    }

    /// The batches as a vector, without a copy.
    pub fn into_vec(self) -> Vec<Values>
        ensures { result.items ≡ self }
    {
        self.batches
    }

    pub fn as_slice(&self) -> &[Values]
        ensures { result.now ≡ self.now }
    {
        self.batches.as_slice()
    }
}

/// The lines of a run's flushes.
#[derive(Drop)]
pub struct FlushLines {
    lines: Vec<FlushLine>,
}

impl Model for FlushLines {
    ghost use Rattle.std.specs.Prelude.{List};
    ghost use Rattle.h5w_model.specs.declared.report.FlushLine.{FlushLine as Line};

    ghost Value = { List Line };

    ghost view = { λ l. l.lines.items };
}

impl FlushLines {
    /// These lines, without a copy.
    pub fn from_vec(lines: Vec<FlushLine>) -> FlushLines
        ensures { result ≡ lines.items }
    {
        FlushLines { lines }
    }

    /// The lines as a vector, without a copy.
    pub fn into_vec(self) -> Vec<FlushLine>
        ensures { result.items ≡ self }
    {
        self.lines
    }

    pub fn as_slice(&self) -> &[FlushLine]
        ensures { result.now ≡ self.now }
    {
        self.lines.as_slice()
    }
}

/// The lines of the calls of a run's readers, reader after reader.
#[derive(Drop)]
pub struct PollLines {
    lines: Vec<PollLine>,
}

impl Model for PollLines {
    ghost use Rattle.std.specs.Prelude.{List};
    ghost use Rattle.h5w_model.specs.declared.report.PollLine.{PollLine as Line};

    ghost Value = { List Line };

    ghost view = { λ l. l.lines.items };
}

impl PollLines {
    /// These lines, without a copy.
    pub fn from_vec(lines: Vec<PollLine>) -> PollLines
        ensures { result ≡ lines.items }
    {
        PollLines { lines }
    }

    /// The lines as a vector, without a copy.
    pub fn into_vec(self) -> Vec<PollLine>
        ensures { result.items ≡ self }
    {
        self.lines
    }

    pub fn as_slice(&self) -> &[PollLine]
        ensures { result.now ≡ self.now }
    {
        self.lines.as_slice()
    }
}
