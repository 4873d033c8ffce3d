//! A script over the one dataset of a file, whoever writes it.
ghost use Rattle.std.specs.Prelude.{◌≡◌, [], ◌∷◌, ℕ, List, Err, Ok, OnOk};
ghost use Rattle.h5w_input.specs.LinesAhead.{IsLine};
ghost use Rattle.h5w_options.specs.Options.{AreAttempts, AreOptions};
ghost use Rattle.h5w_batches.specs.Inputs.{SameSource};
ghost use Rattle.h5w_playing.specs.Lines.{file_line_of};
ghost use Rattle.h5w_playing.specs.Machines.{GivesReply};
ghost use Rattle.h5w_playing.specs.Ones.{FitsAlone, spelling_of};
ghost use Rattle.h5w_playing.specs.Starts.{PlayEnds};
ghost use Rattle.h5w_several_playing.specs.Alone.{AsksTakeover, IsStopped, TookOver};

use crate::script::SeveralScript;
use h5w_core::{Options, World};
use h5w_input::TextLine;
use h5w_playing::{Machine, PlayLine, Refusal, cannot_play, play, play_line, say_reply, say_using};
use h5w_several_core::SeveralWorld;
use h5w_text::{OutOfMemory, Sink, Source, Status, write_numbers};
use std::alloc::Global;
use std::mem;

/// What answers the lines of a script of one dataset.
#[derive(Drop)]
pub enum AloneScript {
    /// The world whose writer created the file.
    Own(World),
    /// The machine of the writer that took its file over.
    Taken(SeveralScript),
    /// Memory was refused to a takeover.
    Lost,
}

/// What became of a line of a script.
#[derive(Clone, Copy)]
enum Outcome {
    /// Its reply was said.
    Said,
    /// Another writer is to take the file over; nothing was said.
    TakesOver,
}

/// Lets a machine go. It has many parts, and each place that lets it go is dear to prove.
fn release(_script: AloneScript) {}

/// Answers a line of the input on a world, and adds the text of the reply, unless another writer is to take over from
/// one that was stopped. Line: it spells no line of a script.
fn answer_own(
    alloc: Global,
    world: &mut World,
    line: &TextLine,
    text: &mut Vec<u8>,
) -> Result<Outcome, Refusal>
    ensures said { result ≡ Ok Outcome.Said → (bytes : List ℕ) → IsLine line.now bytes → GivesReply (spelling_of world.old) bytes (FitsAlone world.old) (FitsAlone world.new) text.old.items text.new.items }
    ensures takes { result ≡ Ok Outcome.TakesOver → AsksTakeover line.now world.old world.new text.old.items text.new.items }
    ensures refused { result ≡ Err Refusal.Line → (bytes : List ℕ) → IsLine line.now bytes → file_line_of (spelling_of world.old) bytes ≡ None }
    ensures kept { OnOk result (spelling_of world.new ≡ spelling_of world.old) }
{
    let TextLine::Whole(bytes) = line else {
        return Err(Refusal::Line);
    };
    match play_line(alloc, bytes.as_slice(), world.columns(), 1)? {
        PlayLine::Use(dataset) => say_using(text, dataset)?,
        PlayLine::Takeover => {
            if world.is_stopped() {
                return Ok(Outcome::TakesOver);
            }
            write_numbers(text, b"running", &[])?;
        }
        PlayLine::Asks(line) => say_reply(world, line, text)?,
    }
    Ok(Outcome::Said)
}

impl AloneScript {
    /// Another writer takes over the file of a world whose writer was stopped, and the text of the reply is added. Where
    /// memory is refused the machine is lost.
    fn take_over(&mut self, text: &mut Vec<u8>) -> Result<(), OutOfMemory>
        requires { IsStopped self.old }
        ensures { OnOk result (TookOver self.old self.new text.old.items text.new.items) }
    {
        let AloneScript::Own(world) = mem::replace(self, AloneScript::Lost) else {
            unreachable!()
        };
        let (world, rows) = SeveralWorld::of_one(world)?;
        *self = AloneScript::Taken(SeveralScript::of_one(world));
        write_numbers(text, b"takeover", &[rows])
    }
}

impl Machine for AloneScript {
    ghost use Rattle.h5w_several_playing.specs.Alone.{FitsOne, spelling_by};

    ghost spelling = { λ s. spelling_by s };

    ghost fits = { λ s F. FitsOne s F };

    fn answer(
        &mut self,
        alloc: Global,
        line: &TextLine,
        text: &mut Vec<u8>,
    ) -> Result<(), Refusal> {
        let outcome = match self {
            AloneScript::Own(world) => answer_own(alloc, world, line, text)?,
            AloneScript::Taken(script) => return script.answer(alloc, line, text),
            AloneScript::Lost => return Err(Refusal::Memory),
        };
        match outcome {
            Outcome::Said => Ok(()),
            Outcome::TakesOver => Ok(self.take_over(text)?),
        }
    }
}

/// Runs the script from the source on a new world of one dataset, by these options.
pub fn play_alone<S: Source, K: Sink>(
    alloc: Global,
    options: &Options,
    attempts: u32,
    source: &mut S,
    sink: &mut K,
) -> Status
    requires options { AreOptions options.now }
    requires attempts { AreAttempts attempts }
    ensures plays { PlayEnds (options.now.name ∷ []) options.now attempts result (S.view source.old) (S.view source.new) (K.view sink.old) (K.view sink.new) }
    ensures source { SameSource (S.view source.old) (S.view source.new) }
{
    let mut script = match World::new(alloc, options, attempts) {
        Ok(world) => AloneScript::Own(world),
        Err(_) => return cannot_play(alloc, sink),
    };
    let status = play(alloc, &mut script, source, sink);
    release(script);
    status
}
