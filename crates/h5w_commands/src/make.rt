//! The command that makes a file in memory of a generator's values.
ghost use Rattle.std.specs.Prelude.{◌≡◌, ◌≤◌, IfOk};
ghost use Rattle.h5w_make.specs.Makes.{IsMade};
ghost use Rattle.h5w_commands.specs.Makes.{MakeEnds, MakeEndsWell, made_line};

use h5w_make::{Made, make as make_file};
use h5w_text::{ErrorLine, OutOfMemory, Sink, Status, say, say_line, write_numbers, write_words};
use std::alloc::Global;

/// The line of a file that was made.
#[tactic(auto, using(crate::proofs::MakeLemmas::made_parts))]
fn line_of(alloc: Global, made: &Made) -> Result<Vec<u8>, OutOfMemory>
    ensures { IfOk result (λ line. line.items ≡ made_line made.now) }
{
    let mut line = Vec::new(alloc);
    write_words(&mut line, b"rows", &[made.rows])?;
    write_words(&mut line, b" sum", &[made.sum])?;
    write_words(&mut line, b" pieces", &[made.pieces])?;
    write_numbers(&mut line, b" blocks", &[made.blocks])?;
    Ok(line)
}

/// Makes the file, and the line that tells of it.
fn made(alloc: Global, count: u64, seed: u64) -> Result<Vec<u8>, OutOfMemory>
    requires { count ≤ 1000000 }
    ensures { IfOk result (λ line. (made : Made) × IsMade count seed made × (line.items ≡ made_line made)) }
{
    let made = make_file(alloc, count, seed)?;
    line_of(alloc, &made)
}

/// Makes a file in memory of `count` values of the generator that begins with the seed: they are appended with a flush after each
/// 1,000 and at the end, the file is closed, read back and checked. Writes its rows, the sum of their values, how many pieces became
/// visible, and the file's blocks.
#[tactic(auto, using(crate::proofs::MakeLemmas::makes_done, crate::proofs::MakeLemmas::makes_nothing, crate::proofs::MakeLemmas::makes_whole))]
pub fn make<K: Sink>(alloc: Global, count: u64, seed: u64, sink: &mut K) -> Status
    requires { count ≤ 1000000 }
    ensures makes { MakeEnds count seed result (K.view sink.old) (K.view sink.new) }
    ensures completes { MakeEndsWell result (K.view sink.old) (K.view sink.new) }
{
    match made(alloc, count, seed) {
        Ok(line) => say(&line, Status::Done, sink),
        Err(OutOfMemory) => say_line(&ErrorLine::Memory, sink),
    }
}
