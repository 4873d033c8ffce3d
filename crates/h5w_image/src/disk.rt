ghost use Rattle.std.specs.Prelude.{◌≡◌, ◌≢◌, ◌≤◌, ◌+◌, ℕ, length, true, is_none, IfSome, IfOk, OnOk, OnErr};
ghost use Rattle.std.specs.Option.{option_map};
ghost use Rattle.h5w_model.specs.Causes.{Rose};
ghost use Rattle.h5w_image.specs.View.{DiskView, IsThere, Leaves, FileGivesRange, file, made, put as after_put};

use crate::fault::{Failed, MakeError};
use h5w_model::{OutOfMemory, Piece, Write};

/// A disk: a finite map from names to byte lists. Each refused call leaves it as it was. A call that is Ok leaves the count of faults
/// as it was.
pub trait Disk {
    /// What contracts see of it.
    ghost view: { Self → DiskView };

    /// How often it failed.
    fn faults(&self) -> u64
        ensures { result ≡ (view self.now).faults };

    /// The file's length in bytes; None exactly where no file has that name.
    fn size(&mut self, name: &str) -> Result<Option<u64>, Failed>
        ensures same { Leaves 0 (view self.old).told (view self.old) (view self.new) }
        ensures exact { IfOk result (λ size. IfSome (view self.old).told (λ d. size ≡ option_map length (file d name.now))) }
        ensures calm { OnOk result ((view self.new).faults ≡ (view self.old).faults) }
        ensures cause { OnErr result (Rose (view self.old).faults (view self.new).faults) };

    /// Makes a file without bytes; false exactly where a file has that name, which then stays.
    fn make(&mut self, name: &str) -> Result<bool, MakeError>
        ensures exact { IfOk result (λ new. IfSome (view self.old).told (λ d. new ≡ is_none (file d name.now))) }
        ensures made { result ≡ Ok true → Leaves 0 (option_map (made name.now) (view self.old).told) (view self.old) (view self.new) }
        ensures same { result ≢ Ok true → Leaves 0 (view self.old).told (view self.old) (view self.new) }
        ensures calm { OnOk result ((view self.new).faults ≡ (view self.old).faults) }
        ensures cause { result ≡ Err MakeError.Failed → Rose (view self.old).faults (view self.new).faults };

    /// Puts the file's bytes from `at` on into `out`: `len` of them, fewer only where the file ends.
    /// Takes no memory. Failed: the count of faults rose, and `out` is as before.
    fn look(&mut self, name: &str, at: u64, len: usize, out: &mut Piece) -> Result<(), Failed>
        requires there { IsThere (view self.old) name.now }
        requires some { 1 ≤ len }
        requires piece { len ≤ 512 }
        ensures same { Leaves 0 (view self.old).told (view self.old) (view self.new) }
        ensures shows { OnOk result (FileGivesRange (view self.old) name.now at len out.new) }
        ensures bound { OnOk result (length out.new ≤ len) }
        ensures failed { OnErr result (out.new ≡ out.old) }
        ensures calm { OnOk result ((view self.new).faults ≡ (view self.old).faults) }
        ensures cause { OnErr result (Rose (view self.old).faults (view self.new).faults) };

    /// Applies the write to the file, and adds the count of faults that stood before to the list of puts.
    /// It uses the room of one put and takes no memory.
    fn put(&mut self, name: &str, w: &Write) -> Result<(), Failed>
        requires there { IsThere (view self.old) name.now }
        requires some { 1 ≤ length w.now.piece }
        requires pieces { 1 ≤ (view self.old).pieces }
        requires end { w.now.at + length w.now.piece ≤ (view self.old).end name.now }
        ensures put { OnOk result (Leaves 1 (option_map (after_put name.now w.now (view self.old).faults) (view self.old).told) (view self.old) (view self.new)) }
        ensures same { OnErr result (Leaves 0 (view self.old).told (view self.old) (view self.new)) }
        ensures calm { OnOk result ((view self.new).faults ≡ (view self.old).faults) }
        ensures cause { OnErr result (Rose (view self.old).faults (view self.new).faults) };

    /// Makes room for so many puts, which end by `end` in this file. Room that was there stays.
    fn reserve(&mut self, name: &str, pieces: u64, end: u64) -> Result<(), OutOfMemory>
        requires { IsThere (view self.old) name.now }
        ensures same { Leaves 0 (view self.old).told (view self.old) (view self.new) }
        ensures pieces { OnOk result (pieces ≤ (view self.new).pieces) }
        ensures end { OnOk result (end ≤ (view self.new).end name.now) }
        ensures calm { OnOk result ((view self.new).faults ≡ (view self.old).faults) };
}
