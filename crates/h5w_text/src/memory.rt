ghost use Rattle.std.specs.Prelude.{◌≡◌, ◌≤◌, ◌<◌, ◌⊎◌, ◌++◌, [], take, drop, min, length, is_err, Some, None, if◌then◌else◌, OnOk, OnErr, IfOk, IfSome};
ghost use Rattle.std.specs.Option.{option_map};
ghost use Rattle.h5w_model.specs.Causes.{Rose};
ghost use Rattle.h5w_image.specs.Memory.{counted, is_failing};
ghost use Rattle.h5w_text.specs.Streams.{Took, Gave, GaveSome, Grows};
ghost use Rattle.h5w_text.specs.Memory.{fresh_sink, fresh_source, sink_fails, sink_in_memory, source_called, source_fails, source_in_memory};

use crate::streams::{Sink, Source};
use h5w_image::{Failed, OutOfMemory};
use std::alloc::Global;
use std::marker::Model;

/// Counts a call, and fails where it is one of `failing`.
fn call(failing: &[u64], calls: &mut u64, faults: &mut u64) -> Result<(), Failed>
    ensures failed { is_err result ≡ is_failing failing.now calls.old }
    ensures calls { calls.new ≡ counted calls.old }
    ensures rises { faults.old ≤ faults.new }
    ensures faults { faults.new ≡ (if is_failing failing.now calls.old then counted faults.old else faults.old) }
{
    *calls = calls.saturating_add(1);
    if failing.contains(calls) {
        *faults = faults.saturating_add(1);
        return Err(Failed);
    }
    Ok(())
}

/// A source of bytes in memory, with a list of calls that are to fail.
#[derive(Drop)]
pub struct MemSource {
    bytes: Vec<u8>,
    at: usize,
    failing: Vec<u64>,
    calls: u64,
    faults: u64,
}

impl Model for MemSource {
    ghost use Rattle.std.specs.Prelude.{◌≤◌, drop, length};
    ghost use Rattle.h5w_text.specs.Memory.{MemSourceView};

    ghost Value = { MemSourceView };

    ghost view = { λ s. record { left = drop s.at s.bytes.items; failing = s.failing.items; calls = s.calls; faults = s.faults } };

    ghost invariant = { λ s. s.at ≤ length s.bytes.items };
}

impl MemSource {
    /// A source of these bytes.
    pub fn of(alloc: Global, bytes: &[u8]) -> Result<MemSource, OutOfMemory>
        ensures { IfOk result (λ s. s ≡ fresh_source bytes.now []) }
    {
        MemSource::with_faults(alloc, bytes, &[])
    }

    /// A source of these bytes. The k-th call of `read`, counted from 1, fails where k is in `calls`.
    pub fn with_faults(alloc: Global, bytes: &[u8], calls: &[u64]) -> Result<MemSource, OutOfMemory>
        ensures { IfOk result (λ s. s ≡ fresh_source bytes.now calls.now) }
    {
        Ok(MemSource {
            bytes: Vec::from_slice(alloc, bytes)?,
            at: 0,
            failing: Vec::from_slice(alloc, calls)?,
            calls: 0,
            faults: 0,
        })
    }
}

/// Copies the first bytes of one slice over those of another, as many as both have.
fn copy_front(from: &[u8], out: &mut [u8]) -> usize
    ensures count { result ≡ min (length from.now) (length out.old) }
    ensures copied { take result out.new ≡ take result from.now }
{
    let n = from.len().min(out.len());
    out[..n].copy_from_slice(&from[..n]);
    n
}

impl Source for MemSource {
    ghost view = { λ s. source_in_memory s };

    /// It fails exactly where this call is one that is to fail.
    fn read(&mut self, out: &mut [u8]) -> Result<usize, Failed>
        ensures bound { IfOk result (λ n. n ≤ length out.new) }
        ensures took { IfOk result (λ n. Took (take n out.new) (source_in_memory self.old) (source_in_memory self.new)) }
        ensures end { result ≡ Ok 0 → 1 ≤ length out.new → IfSome (source_in_memory self.new).left (λ rest. rest ≡ []) }
        ensures failed { OnErr result (Took [] (source_in_memory self.old) (source_in_memory self.new)) }
        ensures cause { OnErr result (Rose self.old.faults self.new.faults) }
        ensures exact { is_err result ≡ source_fails self.old }
        ensures count { IfOk result (λ n. n ≡ min (length self.old.left) (length out.old)) }
        ensures after { self.new ≡ source_called (min (length self.old.left) (length out.old)) self.old }
    {
        call(&self.failing, &mut self.calls, &mut self.faults)?;
        let n = copy_front(&self.bytes[self.at..], out);
        self.at += n;
        Ok(n)
    }
}

/// A sink in memory, with a list of calls that are to fail. Where memory for what is written was
/// refused, it tells no more what was written.
#[derive(Drop)]
pub struct MemSink {
    bytes: Vec<u8>,
    lost: bool,
    failing: Vec<u64>,
    calls: u64,
    faults: u64,
}

impl Model for MemSink {
    ghost use Rattle.std.specs.Prelude.{if◌then◌else◌, Some, None};
    ghost use Rattle.h5w_text.specs.Memory.{MemSinkView};

    ghost Value = { MemSinkView };

    ghost view = { λ s. record { written = if s.lost then None else Some s.bytes.items; failing = s.failing.items; calls = s.calls; faults = s.faults } };
}

impl MemSink {
    /// A sink without bytes.
    pub fn new(alloc: Global) -> MemSink
        ensures { result ≡ fresh_sink [] }
    {
        MemSink {
            bytes: Vec::new(alloc),
            lost: false,
            failing: Vec::new(alloc),
            calls: 0,
            faults: 0,
        }
    }

    /// A sink without bytes. The k-th call of `write`, counted from 1, fails where k is in `calls`.
    pub fn with_faults(alloc: Global, calls: &[u64]) -> Result<MemSink, OutOfMemory>
        ensures { IfOk result (λ s. s ≡ fresh_sink calls.now) }
    {
        let mut sink = MemSink::new(alloc);
        sink.failing.extend_from_slice(calls)?;
        Ok(sink)
    }

    /// What was written; None where memory for it was refused.
    pub fn written(&self) -> Option<&[u8]>
        ensures { option_map (λ bytes. bytes.now) result ≡ self.now.written }
    {
        if self.lost {
            None
        } else {
            Some(self.bytes.as_slice())
        }
    }
}

impl Sink for MemSink {
    ghost view = { λ s. sink_in_memory s };

    /// It fails exactly where this call is one that is to fail, and then writes nothing.
    fn write(&mut self, bytes: &[u8]) -> Result<(), Failed>
        ensures gave { OnOk result (Gave bytes.now (sink_in_memory self.old) (sink_in_memory self.new)) }
        ensures failed { OnErr result (GaveSome bytes.now (sink_in_memory self.old) (sink_in_memory self.new)) }
        ensures cause { OnErr result (Rose self.old.faults self.new.faults) }
        ensures exact { is_err result ≡ sink_fails self.old }
        ensures nothing { OnErr result (self.new.written ≡ self.old.written) }
        ensures faults { self.new.faults ≡ (if sink_fails self.old then counted self.old.faults else self.old.faults) }
        ensures calls { (self.new.failing ≡ self.old.failing) × (self.new.calls ≡ counted self.old.calls) }
    {
        call(&self.failing, &mut self.calls, &mut self.faults)?;
        self.lost = self.lost || self.bytes.extend_from_slice(bytes).is_err();
        Ok(())
    }
}
