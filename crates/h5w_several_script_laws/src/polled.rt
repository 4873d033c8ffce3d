//! All readers of a script over several datasets, line by line.

ghost use Rattle.h5w_several_script_laws.specs.Polled.{ReaderFileLaws, WriterFileLaws};

/// A line of a reader is one of the dataset that it was opened for, which the others are not changed by. A reader that
/// was not opened is asked of the dataset in use.
#[tactic(auto, using(crate::proofs::PolledLemmas::reader_file_laws))]
pub fn reader_lines()
    ensures { ReaderFileLaws }
{}

/// The writer's lines, and what they add to the log of each dataset, leave all readers polling.
#[tactic(auto, using(crate::proofs::PolledLemmas::writer_file_laws))]
pub fn writer_lines()
    ensures { WriterFileLaws }
{}
