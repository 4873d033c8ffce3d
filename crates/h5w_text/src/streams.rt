ghost use Rattle.std.specs.Prelude.{◌≡◌, ◌≤◌, ◌<◌, [], take, drop, length, OnOk, OnErr, IfOk, IfSome};
ghost use Rattle.h5w_model.specs.Causes.{Rose};
ghost use Rattle.h5w_text.specs.Streams.{SourceView, SinkView, Took, Gave, GaveSome};

use h5w_image::Failed;

/// Bytes that come from outside.
pub trait Source {
    /// What contracts see of it.
    ghost view: { Self → SourceView };

    /// Puts the next bytes into the front of `out` and answers how many; 0 for an `out` that is not
    /// empty is the end. Failed: the count of faults rose, and nothing was taken.
    fn read(&mut self, out: &mut [u8]) -> Result<usize, Failed>
        ensures bound { IfOk result (λ n. n ≤ length out.new) }
        ensures took { IfOk result (λ n. Took (take n out.new) (view self.old) (view self.new)) }
        ensures end { result ≡ Ok 0 → 1 ≤ length out.new → IfSome (view self.new).left (λ rest. rest ≡ []) }
        ensures failed { OnErr result (Took [] (view self.old) (view self.new)) }
        ensures cause { OnErr result (Rose (view self.old).faults (view self.new).faults) };
}

/// Bytes that go outside.
pub trait Sink {
    /// What contracts see of it.
    ghost view: { Self → SinkView };

    /// Writes the bytes. Failed: the count of faults rose, and some first part of them was written.
    fn write(&mut self, bytes: &[u8]) -> Result<(), Failed>
        ensures gave { OnOk result (Gave bytes.now (view self.old) (view self.new)) }
        ensures failed { OnErr result (GaveSome bytes.now (view self.old) (view self.new)) }
        ensures cause { OnErr result (Rose (view self.old).faults (view self.new).faults) };
}
