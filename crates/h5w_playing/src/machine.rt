//! What answers the lines of a script.
ghost use Rattle.std.specs.Prelude.{◌≡◌, ℕ, List, None, Err, OnOk};
ghost use Rattle.h5w_input.specs.LinesAhead.{IsLine};
ghost use Rattle.h5w_several_script_laws.specs.Scripts.{FileState};
ghost use Rattle.h5w_playing.specs.Lines.{Spelling, file_line_of};
ghost use Rattle.h5w_playing.specs.Machines.{GivesReply};

use h5w_input::{TextError, TextLine};
use h5w_text::OutOfMemory;
use std::alloc::Global;

/// Why a line is given no reply.
#[derive(Clone, Copy)]
pub enum Refusal {
    /// It is outside the grammar.
    Line,
    /// Memory was refused.
    Memory,
}

impl From<OutOfMemory> for Refusal {
    ghost use Rattle.std.specs.Prelude.{◌≡◌};
    ghost use Rattle.h5w_playing.specs.declared.machine.Refusal.TheVariants.{Memory as no_memory};

    ghost from_gives = { λ _ e. e ≡ no_memory };

    fn from(_e: OutOfMemory) -> Refusal {
        Refusal::Memory
    }
}

impl From<TextError> for Refusal {
    ghost use Rattle.std.specs.Prelude.{◌≡◌};
    ghost use Rattle.h5w_input.specs.declared.script.TextError.TheVariants.{Grammar};
    ghost use Rattle.h5w_playing.specs.declared.machine.Refusal.TheVariants.{Line as outside};

    ghost from_gives = { λ e r. (r ≡ outside → e ≡ Grammar) × (e ≡ Grammar → r ≡ outside) };

    fn from(e: TextError) -> Refusal {
        match e {
            TextError::Grammar => Refusal::Line,
            TextError::OutOfMemory => Refusal::Memory,
        }
    }
}

/// What answers the lines of a script, one after another.
pub trait Machine {
    /// How its lines are read.
    ghost spelling: { Self → Spelling };

    /// It fits a script in this state.
    ghost fits: { Self → FileState → Type 0 };

    /// Answers a line of the input, and adds the text of the reply. Line: it spells no line of a script.
    fn answer(&mut self, alloc: Global, line: &TextLine, text: &mut Vec<u8>) -> Result<(), Refusal>
        ensures answers { OnOk result ((bytes : List ℕ) → IsLine line.now bytes → GivesReply (spelling self.old) bytes (fits self.old) (fits self.new) text.old.items text.new.items) }
        ensures refused { result ≡ Err Refusal.Line → (bytes : List ℕ) → IsLine line.now bytes → file_line_of (spelling self.old) bytes ≡ None }
        ensures kept { OnOk result (spelling self.new ≡ spelling self.old) };
}
