//! A world of one dataset answers the lines of a script.
ghost use Rattle.std.specs.Prelude.{◌≡◌, ◌+◌, ◌++◌, ◌≤◌, ◌<◌, ℕ, List, IfOk, OnOk};
ghost use Rattle.h5w_model.specs.Lawful.{looks, shows_up_to};
ghost use Rattle.h5w_input.specs.Words.{line_of_script};
ghost use Rattle.h5w_core.specs.Worlds.{rules_of};
ghost use Rattle.h5w_several_script_laws.specs.Scripts.{using};
ghost use Rattle.h5w_playing.specs.Answers.{Answers, InRange};
ghost use Rattle.h5w_playing.specs.Ones.{Says};
ghost use Rattle.h5w_playing.specs.Replies.{file_reply_text};

use h5w_core::{Event, Reply, World};
use h5w_input::ScriptLine;
use h5w_text::{OutOfMemory, write_numbers, write_reply};

/// Makes up to so many pending pieces visible.
fn show(world: &mut World, most: u64) -> Result<Reply, OutOfMemory>
    ensures { IfOk result (λ reply. Answers world.old (shows_up_to most) reply world.new) }
{
    let pending = world.pending();
    let pieces = most.min(pending);
    for _ in 0..pieces {
        world.step(Event::Visible)?;
    }
    Ok(Reply::Written {
        pieces,
        pending: pending - pieces,
    })
}

/// Takes up to so many looks of a reader, and ends at its call's answer.
fn look(world: &mut World, reader: u64, most: u64) -> Result<Reply, OutOfMemory>
    requires first { 1 ≤ reader }
    requires last { reader ≤ 16 }
    requires some { 1 ≤ most }
    ensures { IfOk result (λ reply. Answers world.old (looks reader most) reply world.new) }
{
    for _ in 1..most {
        match world.step(Event::Look { reader })? {
            Reply::Looking { reader: _ } => {}
            answer => return Ok(answer),
        }
    }
    world.step(Event::Look { reader })
}

/// The reply to a line of a script.
fn reply(world: &mut World, line: ScriptLine) -> Result<Reply, OutOfMemory>
    requires { InRange (rules_of world.old).cutting.columns (line_of_script line) }
    ensures { IfOk result (λ reply. Answers world.old (line_of_script line) reply world.new) }
{
    match line {
        ScriptLine::Append(values) => Ok(world.step(Event::Append(values))?),
        ScriptLine::Flush => Ok(world.step(Event::Flush)?),
        ScriptLine::Write(most) => Ok(show(world, most)?),
        ScriptLine::Stop => Ok(world.step(Event::Stop)?),
        ScriptLine::Open(reader) => Ok(world.step(Event::Open { reader })?),
        ScriptLine::Refresh(reader) => Ok(world.step(Event::Refresh { reader })?),
        ScriptLine::Read {
            reader,
            from,
            count,
        } => Ok(world.step(Event::Read {
            reader,
            from,
            count,
        })?),
        ScriptLine::Look { reader, most } => Ok(look(world, reader, most)?),
    }
}

/// Gives the reply of a world to a line of a script, and adds its text.
pub fn say_reply(world: &mut World, line: ScriptLine, text: &mut Vec<u8>) -> Result<(), OutOfMemory>
    requires { InRange (rules_of world.old).cutting.columns (line_of_script line) }
    ensures { OnOk result (Says world.old (line_of_script line) world.new text.old.items text.new.items) }
{
    let reply = reply(world, line)?;
    write_reply(text, &reply)
}

/// Adds the text of the reply that a dataset, counted from 0, is in use.
pub fn say_using(text: &mut Vec<u8>, dataset: usize) -> Result<(), OutOfMemory>
    requires { dataset < 8 }
    ensures { OnOk result (text.new.items ≡ text.old.items ++ file_reply_text (using (dataset + 1))) }
{
    write_numbers(text, b"using", &[dataset as u64 + 1])
}
