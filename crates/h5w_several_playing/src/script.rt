//! A machine of several datasets answers the lines of a script.
ghost use Rattle.std.specs.Prelude.{◌≡◌, ◌+◌, ◌++◌, ◌<◌, ◌≤◌, ◌*◌, ℕ, length, slice_get, IfOk, OnOk, Some};
ghost use Rattle.h5w_model.specs.Lawful.{Rules, looks, shows_up_to};
ghost use Rattle.h5w_options.specs.Options.{AreAttempts, AreOptions};
ghost use Rattle.h5w_input.specs.Words.{line_of_script};
ghost use Rattle.h5w_several_core.specs.Worlds.{reply_of, rules_of};
ghost use Rattle.h5w_several_script_laws.specs.Scripts.{using};
ghost use Rattle.h5w_several_creation.specs.Forms.{AreNames};
ghost use Rattle.h5w_several_creation_laws.specs.SeveralFiles.{AllNamed};
ghost use Rattle.h5w_playing.specs.Answers.{InRange};
ghost use Rattle.h5w_playing.specs.Replies.{file_reply_text};
ghost use Rattle.h5w_playing.specs.Starts.{spelling_for, state_for};
ghost use Rattle.h5w_several_playing.specs.Sets.{AnswersIn, FitsAll, IsHeardBy, SaysIn, TakesIn, spelling_in};

use h5w_input::{ScriptLine, TextLine};
use h5w_model::{OutOfMemory, Reply};
use h5w_names::Names;
use h5w_options::Options;
use h5w_playing::{Machine, PlayLine, Refusal, play_line, say_using};
use h5w_several_core::{FileEvent, FileReply, SeveralWorld};
use h5w_text::{write_numbers, write_reply};
use std::alloc::Global;
use std::marker::Model;

/// A machine of several datasets, all of so many columns, and the one of them that is in use.
#[derive(Drop)]
pub struct SeveralScript {
    world: SeveralWorld,
    used: usize,
    columns: u64,
}

impl Model for SeveralScript {
    ghost use Rattle.std.specs.Coded.{codes};
    ghost use Rattle.h5w_writer.specs.Codes.{tree_code};
    ghost use Rattle.h5w_reader.specs.contracts.reader.ReaderCore as core;
    ghost use Rattle.h5w_several_core.specs.Worlds.{rules_of};
    ghost use Rattle.h5w_several_playing.specs.Sets.{IsScript, ScriptView};

    ghost Value = { ScriptView };

    ghost coded = { Prim.hlevel (codes, tree_code, core.the_row.coded) };

    ghost view = { λ s. record { world = s.world; used = s.used; columns = s.columns } };

    ghost invariant = { λ s. IsScript (rules_of s.world) s.used s.columns };
}

/// Makes up to so many pending pieces visible.
fn show(world: &mut SeveralWorld, most: u64) -> Result<FileReply, OutOfMemory>
    ensures rules { rules_of world.new ≡ rules_of world.old }
    ensures answers { (used : ℕ) → IfOk result (λ reply. AnswersIn used world.old (shows_up_to most) (reply_of reply) world.new) }
{
    let pending = world.pending();
    let pieces = most.min(pending);
    for _ in 0..pieces {
        world.step(FileEvent::Visible)?;
    }
    let pending = pending - pieces;
    Ok(FileReply::Says(Reply::Written { pieces, pending }))
}

/// Takes up to so many looks of a reader, and ends at its call's answer.
fn look(world: &mut SeveralWorld, reader: u64, most: u64) -> Result<FileReply, OutOfMemory>
    requires last { reader ≤ 16 }
    requires some { 1 ≤ most }
    ensures rules { rules_of world.new ≡ rules_of world.old }
    ensures answers { (used : ℕ) → IfOk result (λ reply. AnswersIn used world.old (looks reader most) (reply_of reply) world.new) }
{
    for _ in 1..most {
        match world.step(FileEvent::Look { reader })? {
            FileReply::Says(reply) => match reply {
                Reply::Looking { reader: _ } => {}
                reply => return Ok(FileReply::Says(reply)),
            },
            answer => return Ok(answer),
        }
    }
    world.step(FileEvent::Look { reader })
}

/// The reply to a line of a script, of which this dataset is in use.
fn reply(
    world: &mut SeveralWorld,
    dataset: usize,
    line: ScriptLine,
) -> Result<FileReply, OutOfMemory>
    requires { IsHeardBy (rules_of world.old) dataset (line_of_script line) }
    ensures rules { rules_of world.new ≡ rules_of world.old }
    ensures answers { IfOk result (λ reply. AnswersIn dataset world.old (line_of_script line) (reply_of reply) world.new) }
{
    match line {
        ScriptLine::Append(values) => world.step(FileEvent::Append { dataset, values }),
        ScriptLine::Flush => world.step(FileEvent::Flush),
        ScriptLine::Write(most) => show(world, most),
        ScriptLine::Stop => world.step(FileEvent::Stop),
        ScriptLine::Open(reader) => world.step(FileEvent::Open { reader, dataset }),
        ScriptLine::Refresh(reader) => world.step(FileEvent::Refresh { reader }),
        ScriptLine::Read {
            reader,
            from,
            count,
        } => world.step(FileEvent::Read {
            reader,
            from,
            count,
        }),
        ScriptLine::Look { reader, most } => look(world, reader, most),
    }
}

/// Adds the text of a reply.
fn write(text: &mut Vec<u8>, reply: &FileReply) -> Result<(), OutOfMemory>
    ensures { OnOk result (text.new.items ≡ text.old.items ++ file_reply_text (reply_of reply.now)) }
{
    match reply {
        FileReply::Flushing { pieces } => write_numbers(text, b"flushing", pieces.as_slice()),
        FileReply::Running => write_numbers(text, b"running", &[]),
        FileReply::TakenOver { rows } => write_numbers(text, b"takeover", rows.as_slice()),
        FileReply::Says(reply) => write_reply(text, reply),
    }
}

impl SeveralScript {
    /// A machine whose writer created a file with a dataset under each of these names, by these options but for their name. The first of them is
    /// in use.
    pub fn new(
        alloc: Global,
        names: &Names,
        options: &Options,
        attempts: u32,
    ) -> Result<SeveralScript, OutOfMemory>
        requires options { AreOptions options.now }
        requires attempts { AreAttempts attempts }
        requires names { AreNames names.now }
        requires named { AllNamed names.now }
        requires low { 1024 * length names.now ≤ options.now.limit }
        ensures fits { IfOk result (λ s. FitsAll s (state_for names.now options.now attempts)) }
        ensures spelling { IfOk result (λ s. spelling_in s ≡ spelling_for names.now options.now) }
    {
        let world = SeveralWorld::new(alloc, names, options, attempts)?;
        let columns = world.columns(0);
        Ok(SeveralScript {
            world,
            used: 0,
            columns,
        })
    }

    /// The machine of a file with one dataset, which is in use.
    pub fn of_one(world: SeveralWorld) -> SeveralScript
        requires { length (rules_of world) ≡ 1 }
        ensures world { result.world ≡ world }
        ensures used { result.used ≡ 0 }
        ensures columns { (g : Rules) → slice_get (rules_of world) 0 ≡ Some g → result.columns ≡ g.cutting.columns }
    {
        let columns = world.columns(0);
        SeveralScript {
            world,
            used: 0,
            columns,
        }
    }

    /// Another writer takes the file over where its writer was stopped, and the text of the reply is added.
    fn take_over(&mut self, text: &mut Vec<u8>) -> Result<(), OutOfMemory>
        ensures took { OnOk result (TakesIn self.old self.new text.old.items text.new.items) }
        ensures spelling { OnOk result (spelling_in self.new ≡ spelling_in self.old) }
    {
        let reply = self.world.step(FileEvent::Takeover)?;
        write(text, &reply)
    }

    /// Gives the reply to a line of a script, and adds its text.
    fn say_reply(&mut self, line: ScriptLine, text: &mut Vec<u8>) -> Result<(), OutOfMemory>
        requires { InRange self.old.columns (line_of_script line) }
        ensures says { OnOk result (SaysIn self.old (line_of_script line) self.new text.old.items text.new.items) }
        ensures spelling { OnOk result (spelling_in self.new ≡ spelling_in self.old) }
    {
        let reply = reply(&mut self.world, self.used, line)?;
        write(text, &reply)
    }

    /// Takes a dataset into use, and adds the text of the reply.
    fn take(&mut self, dataset: usize, text: &mut Vec<u8>) -> Result<(), OutOfMemory>
        requires inside { dataset < length (rules_of self.old.world) }
        requires few { dataset < 8 }
        ensures world { self.new.world ≡ self.old.world }
        ensures used { OnOk result (self.new.used ≡ dataset) }
        ensures columns { self.new.columns ≡ self.old.columns }
        ensures text { OnOk result (text.new.items ≡ text.old.items ++ file_reply_text (using (dataset + 1))) }
    {
        say_using(text, dataset)?;
        self.used = dataset;
        Ok(())
    }
}

impl Machine for SeveralScript {
    ghost use Rattle.h5w_several_playing.specs.Sets.{FitsAll, spelling_in};

    ghost spelling = { λ s. spelling_in s };

    ghost fits = { λ s F. FitsAll s F };

    fn answer(
        &mut self,
        alloc: Global,
        line: &TextLine,
        text: &mut Vec<u8>,
    ) -> Result<(), Refusal> {
        let TextLine::Whole(bytes) = line else {
            return Err(Refusal::Line);
        };
        match play_line(alloc, bytes.as_slice(), self.columns, self.world.count())? {
            PlayLine::Use(dataset) => self.take(dataset, text)?,
            PlayLine::Takeover => self.take_over(text)?,
            PlayLine::Asks(line) => self.say_reply(line, text)?,
        }
        Ok(())
    }
}
