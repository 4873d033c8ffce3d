//! The standard streams as a source and a sink.
ghost use Rattle.std.specs.Prelude.{◌≡◌, ◌≤◌, ℕ, [], take, length, is_err, if◌then◌else◌, IfOk, IfSome, OnOk, OnErr};
ghost use Rattle.std.specs.Io.KnownBytes.{Appends, ReadConsumes};
ghost use Rattle.h5w_model.specs.Causes.{Rose};
ghost use Rattle.h5w_image.specs.Memory.{counted};
ghost use Rattle.h5w_text.specs.Streams.{Gave, GaveSome, Took};
ghost use Rattle.h5w_system.specs.Edges.{untold_sink, untold_source};

use h5w_text::{Failed, Sink, Source};
use std::io::{Read, Write};

/// Counts a fault.
pub fn count_fault(faults: &mut u64) -> Failed
    ensures counts { faults.new ≡ counted faults.old }
    ensures later { faults.old ≤ faults.new }
    ensures cause { Rose faults.old faults.new }
{
    *faults = faults.saturating_add(1);
    Failed
}

/// A reader of std as a source. It tells nothing of what it has left.
#[derive(Drop)]
pub struct StdSource<R> {
    input: R,
    faults: u64,
}

impl<R: Read> StdSource<R> {
    /// The reader as a source that has not failed yet.
    pub fn new(input: R) -> StdSource<R>
        ensures input { result.input ≡ input }
        ensures faults { result.faults ≡ 0 }
    {
        StdSource { input, faults: 0 }
    }
}

impl<R: Read> Source for StdSource<R> {
    ghost view = { λ s. untold_source s.faults };

    /// It is one call of the reader's `read`.
    fn read(&mut self, out: &mut [u8]) -> Result<usize, Failed>
        ensures bound { IfOk result (λ n. n ≤ length out.new) }
        ensures took { IfOk result (λ n. Took (take n out.new) (untold_source self.old.faults) (untold_source self.new.faults)) }
        ensures end { result ≡ Ok 0 → 1 ≤ length out.new → IfSome (untold_source self.new.faults).left (λ rest. rest ≡ []) }
        ensures failed { OnErr result (Took [] (untold_source self.old.faults) (untold_source self.new.faults)) }
        ensures cause { OnErr result (Rose self.old.faults self.new.faults) }
        ensures faults { self.new.faults ≡ (if is_err result then counted self.old.faults else self.old.faults) }
        ensures bytes { ReadConsumes (R.remaining self.old.input) (R.remaining self.new.input) result out.new }
    {
        match self.input.read(out) {
            Ok(count) => Ok(count),
            Err(_) => Err(count_fault(&mut self.faults)),
        }
    }
}

/// A writer of std as a sink. It tells nothing of what was written.
#[derive(Drop)]
pub struct StdSink<W> {
    output: W,
    faults: u64,
}

impl<W: Write> StdSink<W> {
    /// The writer as a sink that has not failed yet.
    pub fn new(output: W) -> StdSink<W>
        ensures output { result.output ≡ output }
        ensures faults { result.faults ≡ 0 }
    {
        StdSink { output, faults: 0 }
    }
}

impl<W: Write> Sink for StdSink<W> {
    ghost view = { λ s. untold_sink s.faults };

    /// It is as many calls of the writer's `write` as the bytes need, with no buffer between.
    fn write(&mut self, bytes: &[u8]) -> Result<(), Failed>
        ensures gave { OnOk result (Gave bytes.now (untold_sink self.old.faults) (untold_sink self.new.faults)) }
        ensures failed { OnErr result (GaveSome bytes.now (untold_sink self.old.faults) (untold_sink self.new.faults)) }
        ensures cause { OnErr result (Rose self.old.faults self.new.faults) }
        ensures faults { self.new.faults ≡ (if is_err result then counted self.old.faults else self.old.faults) }
        ensures all { OnOk result (Appends (W.contents self.old.output) (W.contents self.new.output) bytes.now) }
        ensures some { OnErr result ((n : ℕ) × Appends (W.contents self.old.output) (W.contents self.new.output) (take n bytes.now)) }
    {
        let mut rest = bytes;
        while !rest.is_empty() {
            match self.output.write(rest) {
                Ok(count) if count > 0 => rest = &rest[count..],
                _ => return Err(count_fault(&mut self.faults)),
            }
        }
        Ok(())
    }
}
