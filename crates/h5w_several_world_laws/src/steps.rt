//! Lines of the writer and of readers, one step each.

ghost use Rattle.h5w_several_world_laws.specs.Holding.{LogsHold};
ghost use Rattle.h5w_several_world_laws.specs.ReaderSteps.{AllReaderSteps};
ghost use Rattle.h5w_several_world_laws.specs.Refusals.{AllRefusedSteps, FullStep, HeldStep};
ghost use Rattle.h5w_several_world_laws.specs.Steps.{AppendStep, FlushStep, StepLaws};
ghost use Rattle.h5w_several_world_laws.specs.Takeovers.{TakeSteps};

/// A piece that becomes visible, a stop, and a line that takes another dataset into use: the reply is lawful, and the
/// state after it fits the session that is left.
#[tactic(auto, using(crate::proofs::StepLemmas::step_laws))]
pub fn writer_steps()
    ensures { StepLaws }
{}

/// An append to the dataset in use, of which no row is written before its flush.
#[tactic(auto, using(crate::proofs::AppendLemmas::append_step))]
pub fn append_steps()
    ensures { AppendStep }
{}

/// A flush: its pieces, dataset after dataset, are such a reply, and no rows are flushed before the last piece of their
/// part.
#[tactic(auto, using(crate::proofs::FlushLemmas::flush_step))]
pub fn flush_steps()
    ensures { FlushStep }
{}

/// Readers of each dataset can rest on what it sees of the log: what h5w_script_laws asks of a log is true of each.
pub fn logs_hold()
    ensures { LogsHold }
{}

/// A line of a reader, by whether it was opened and for which dataset, and by what is left of its call.
#[tactic(auto, using(crate::proofs::ReaderLemmas::all_reader_steps))]
pub fn reader_steps()
    ensures { AllReaderSteps }
{}

/// A line of the writer that the session refuses, by the first cause that applies.
#[tactic(auto, using(crate::proofs::RefusalLemmas::all_refused_steps))]
pub fn refused_steps()
    ensures { AllRefusedSteps }
{}

/// A flush that was refused leaves a session that the same states fit.
#[tactic(auto, using(crate::proofs::RefusalLemmas::held_step))]
pub fn refused_flush()
    ensures { HeldStep }
{}

/// A flush of which the file has no place for some part: that place is bounded by the loads, so the reply is lawful.
pub fn full_flush()
    ensures { FullStep }
{}

/// A takeover: where the writer was not stopped nothing changes; else another session goes on with the log, and readers poll on.
#[tactic(auto, using(crate::proofs::TakenLemmas::take_steps))]
pub fn take_steps()
    ensures { TakeSteps }
{}
