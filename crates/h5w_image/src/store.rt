ghost use Rattle.std.specs.Prelude.{◌≡◌, ◌≤◌, ◌+◌, ◌++◌, ◌-◌, take, drop, replicate, is_err, length, OnOk, if◌then◌else◌};
ghost use Rattle.std.specs.Vec.{vec_capacity};
ghost use Rattle.h5w_model.specs.Numbers.{range};
ghost use Rattle.h5w_model.specs.Images.{apply};
ghost use Rattle.h5w_image.specs.Memory.{counted, is_failing};

use crate::fault::Failed;
use h5w_model::{OutOfMemory, Piece};

/// Counts a call, and fails where it is one of `failing`.
pub fn call(failing: &[u64], calls: &mut u64, faults: &mut u64) -> Result<(), Failed>
    ensures failed { is_err result ≡ is_failing failing.now calls.old }
    ensures calls { calls.new ≡ counted calls.old }
    ensures faults { faults.new ≡ (if is_failing failing.now calls.old then counted faults.old else faults.old) }
{
    *calls = calls.saturating_add(1);
    if failing.contains(calls) {
        *faults = faults.saturating_add(1);
        return Err(Failed);
    }
    Ok(())
}

/// Puts a piece over the bytes that stand at its place.
fn overwrite(bytes: &mut [u8], at: usize, piece: &[u8])
    requires { at + length piece.now ≤ length bytes.old }
    ensures { bytes.new ≡ (take at bytes.old ++ piece.now) ++ drop (at + length piece.now) bytes.old }
{
    bytes[at..at + piece.len()].copy_from_slice(piece);
}

/// Adds zeros up to a length.
fn fill(bytes: &mut Vec<u8>, end: usize)
    requires { end ≤ vec_capacity bytes.old }
    ensures filled { bytes.new.items ≡ bytes.old.items ++ replicate (end - length bytes.old.items) 0 }
    ensures capacity { vec_capacity bytes.old ≤ vec_capacity bytes.new }
{
    if bytes.len() < end {
        bytes.resize(end, 0).unwrap();
    }
}

/// Puts a piece at a place of the bytes, with zeros between their end and the place.
pub fn put(bytes: &mut Vec<u8>, at: usize, piece: &[u8])
    requires { at + length piece.now ≤ vec_capacity bytes.old }
    ensures applied { bytes.new.items ≡ apply (record { at = at; piece = piece.now }) bytes.old.items }
    ensures capacity { vec_capacity bytes.old ≤ vec_capacity bytes.new }
{
    fill(bytes, at + piece.len());
    overwrite(bytes, at, piece);
}

/// Puts the bytes from `at` on into a piece: `len` of them, fewer only where they end.
pub fn show(bytes: &[u8], at: u64, len: usize, out: &mut Piece)
    requires { len ≤ 512 }
    ensures shown { out.new ≡ range bytes.now at len }
    ensures bound { length out.new ≤ len }
{
    let rest = &bytes[bytes.len().min(at as usize)..];
    out.set(&rest[..rest.len().min(len)]);
}

/// Makes room for bytes up to `end`.
pub fn make_room(bytes: &mut Vec<u8>, end: u64) -> Result<(), OutOfMemory>
    ensures bytes { bytes.new.items ≡ bytes.old.items }
    ensures room { OnOk result (end ≤ vec_capacity bytes.new) }
    ensures kept { vec_capacity bytes.old ≤ vec_capacity bytes.new }
{
    bytes.reserve((end as usize).saturating_sub(bytes.len()))?;
    Ok(())
}
