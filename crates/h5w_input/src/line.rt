ghost use Rattle.std.specs.Prelude.{◌≡◌, ◌++◌, ℕ, List, [], IfOk};

use crate::script::LINE_LIMIT;
use h5w_model::{Bytes, OutOfMemory};
use h5w_text::Failed;
use std::alloc::{AllocError, Global};

/// A line of an input, without the byte 0a that ends it.
#[derive(Drop)]
pub enum TextLine {
    /// Its bytes, up to 65,536.
    Whole(Bytes),
    /// It has more bytes.
    Long,
}

/// What comes next in an input.
#[derive(Drop)]
pub enum Next {
    /// A line, which the byte 0a ends.
    Line(TextLine),
    /// The last line, which no byte 0a ends: the input ends behind it.
    Last(TextLine),
    /// No line: the input has ended.
    End,
}

/// Why the next line was not given.
#[derive(Clone, Copy, Debug)]
pub enum LineError {
    /// The source's count of faults rose in this call.
    Failed,
    /// The input has more than so many bytes.
    Input { limit: u64 },
    /// Memory was refused.
    OutOfMemory,
}

impl From<Failed> for LineError {
    ghost use Rattle.std.specs.Prelude.{◌≡◌};
    ghost use Rattle.h5w_input.specs.declared.line.LineError.TheVariants.{Failed as failed};

    ghost from_gives = { λ _ e. e ≡ failed };

    fn from(_e: Failed) -> LineError {
        LineError::Failed
    }
}

impl From<OutOfMemory> for LineError {
    ghost use Rattle.std.specs.Prelude.{◌≡◌};
    ghost use Rattle.h5w_input.specs.declared.line.LineError.TheVariants.{OutOfMemory as no_memory};

    ghost from_gives = { λ _ e. e ≡ no_memory };

    fn from(_e: OutOfMemory) -> LineError {
        LineError::OutOfMemory
    }
}

impl From<AllocError> for LineError {
    ghost use Rattle.std.specs.Prelude.{◌≡◌};
    ghost use Rattle.h5w_input.specs.declared.line.LineError.TheVariants.{OutOfMemory as no_memory};

    ghost from_gives = { λ _ e. e ≡ no_memory };

    fn from(_e: AllocError) -> LineError {
        LineError::OutOfMemory
    }
}

/// The first part of a line; its bytes are let go once it is too long.
#[derive(Drop)]
pub struct Partial {
    pub bytes: Vec<u8>,
    pub long: bool,
}

impl Partial {
    ghost use Rattle.h5w_input.specs.LinesAhead.{IsLast, IsLine, Keeps};

    /// No bytes.
    pub fn new(alloc: Global) -> Partial
        ensures { Keeps result [] }
    {
        Partial {
            bytes: Vec::new(alloc),
            long: false,
        }
    }

    /// Adds bytes.
    pub fn add(&mut self, piece: &[u8]) -> Result<(), OutOfMemory>
        ensures { IfOk result (λ _. (front : List ℕ) → Keeps self.old front → Keeps self.new (front ++ piece.now)) }
    {
        if self.long || piece.len() > LINE_LIMIT || self.bytes.len() > LINE_LIMIT - piece.len() {
            self.long = true;
            self.bytes.clear();
            return Ok(());
        }
        self.bytes.extend_from_slice(piece)?;
        Ok(())
    }

    /// The line that these bytes are.
    pub fn finish(self) -> TextLine
        ensures { (front : List ℕ) → Keeps self front → IsLine result front }
    {
        if self.long {
            TextLine::Long
        } else {
            TextLine::Whole(Bytes::from_vec(self.bytes))
        }
    }

    /// The end of an input that ends here: its last line, if there are bytes.
    pub fn last(self) -> Next
        ensures { (front : List ℕ) → Keeps self front → IsLast result front }
    {
        if !self.long && self.bytes.is_empty() {
            Next::End
        } else {
            Next::Last(self.finish())
        }
    }
}
