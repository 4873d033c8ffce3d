use h5w_input::LineError;
use h5w_text::Failed;

/// Why a script ends before its input does.
#[derive(Clone, Copy)]
pub enum Ending {
    /// The line of this number, counted from 1, is outside the grammar.
    Line(u64),
    /// The input has too many bytes.
    Input,
    /// The source failed.
    Source,
    /// The sink failed.
    Sink,
    /// Memory was refused.
    Memory,
}

impl From<LineError> for Ending {
    ghost use Rattle.std.specs.Prelude.{◌≡◌};
    ghost use Rattle.h5w_playing.specs.Endings.{ending_of};

    ghost from_gives = { λ e ending. ending ≡ ending_of e };

    fn from(e: LineError) -> Ending {
        match e {
            LineError::Failed => Ending::Source,
            LineError::Input { limit: _ } => Ending::Input,
            LineError::OutOfMemory => Ending::Memory,
        }
    }
}

impl From<Failed> for Ending {
    ghost use Rattle.std.specs.Prelude.{◌≡◌};
    ghost use Rattle.h5w_playing.specs.declared.ending.Ending.TheVariants.{Sink};

    ghost from_gives = { λ _ ending. ending ≡ Sink };

    fn from(_e: Failed) -> Ending {
        Ending::Sink
    }
}
