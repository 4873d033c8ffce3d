//! Runs of values: the first that is outside a type, and the cells of all.
ghost use Rattle.std.specs.Prelude.{◌≡◌, ◌+◌, ◌*◌, ◌++◌, ◌≤◌, [], ◌∷◌, length, vec_len, vec_capacity, None, false, OnOk, OnErr};
ghost use Rattle.h5w_model.specs.Lawful.{first_outside};
ghost use Rattle.h5w_types.specs.Messages.{IsIntType};
ghost use Rattle.h5w_types.specs.Fields.{int_type_of};
ghost use Rattle.h5w_types.specs.Runs.{run_bytes};

use crate::int_type::{IntType, cell, number_of};
use h5w_bytes::put;
use h5w_model::OutOfMemory;

/// How many values are put at once: their bytes are filled with zeros before, which is short work for so few.
const RUN: usize = 128;

/// The first value outside the type, with its index.
pub fn first_outside(values: &[i128], t: &IntType) -> Option<(u64, i128)>
    requires { IsIntType (int_type_of t.now) }
    ensures { result ≡ first_outside (int_type_of t.now) 0 values.now }
{
    let (least, above) = t.bounds();
    for (i, v) in values.iter().enumerate() {
        if *v < least || above <= *v {
            return Some((i as u64, *v));
        }
    }
    None
}

/// Adds the cell of a value. All 8 bytes of it come behind the others first; those that do not count go again.
#[inline(always)]
fn put_cell(v: i128, t: &IntType, out: &mut Vec<u8>) -> Result<(), OutOfMemory>
    requires typed { IsIntType (int_type_of t.now) }
    requires fit { first_outside (int_type_of t.now) 0 (v ∷ []) ≡ None }
    ensures added { OnOk result (out.new.items ≡ out.old.items ++ run_bytes (int_type_of t.now) (v ∷ [])) }
    ensures kept { OnErr result (out.new.items ≡ out.old.items) }
{
    let len = out.len();
    let cell = cell(number_of(v, t), t);
    out.extend_from_slice(&cell.bytes)?;
    out.truncate(len + usize::from(t.size));
    Ok(())
}

/// Adds the cells of some values, one behind the other, for which there is room.
#[inline(always)]
fn put_run(values: &[i128], t: &IntType, out: &mut Vec<u8>)
    requires typed { IsIntType (int_type_of t.now) }
    requires fit { first_outside (int_type_of t.now) 0 values.now ≡ None }
    requires room { vec_len out.old + length values.now * t.now.size ≤ vec_capacity out.old }
    ensures added { out.new.items ≡ out.old.items ++ run_bytes (int_type_of t.now) values.now }
    ensures capacity { vec_capacity out.old ≤ vec_capacity out.new }
{
    let size = usize::from(t.size);
    for v in values {
        let cell = cell(number_of(*v, t), t);
        out.extend_from_slice(&cell.bytes[..size]).unwrap();
    }
}

/// Writes the cells of some values, one behind the other, into as many bytes. The type's least significant byte comes first.
#[inline(always)]
fn write_little(values: &[i128], t: &IntType, out: &mut [u8])
    requires typed { IsIntType (int_type_of t.now) }
    requires little { t.now.big ≡ false }
    requires fit { first_outside (int_type_of t.now) 0 values.now ≡ None }
    requires sized { length out.old ≡ length values.now * t.now.size }
    ensures { out.new ≡ run_bytes (int_type_of t.now) values.now }
{
    let size = usize::from(t.size);
    for (i, v) in values.iter().enumerate() {
        put(out, i * size, size, number_of(*v, t));
    }
}

/// The same as `put_run` of a type whose least significant byte comes first. Where the size is known at the call, the loop is for
/// that size alone.
#[inline(always)]
fn put_little(values: &[i128], size: u8, signed: bool, out: &mut Vec<u8>)
    requires typed { IsIntType (record { size = size; big = false; signed = signed }) }
    requires fit { first_outside (record { size = size; big = false; signed = signed }) 0 values.now ≡ None }
    requires room { vec_len out.old + length values.now * size ≤ vec_capacity out.old }
    ensures added { out.new.items ≡ out.old.items ++ run_bytes (record { size = size; big = false; signed = signed }) values.now }
    ensures capacity { vec_capacity out.old ≤ vec_capacity out.new }
{
    let big = false;
    let start = out.len();
    out.resize(start + values.len() * usize::from(size), 0)
        .unwrap();
    write_little(values, &IntType { size, big, signed }, &mut out[start..]);
}

/// The same, with a loop for each type whose least significant byte comes first.
fn put_reserved(values: &[i128], t: &IntType, out: &mut Vec<u8>)
    requires typed { IsIntType (int_type_of t.now) }
    requires fit { first_outside (int_type_of t.now) 0 values.now ≡ None }
    requires room { vec_len out.old + length values.now * t.now.size ≤ vec_capacity out.old }
    ensures added { out.new.items ≡ out.old.items ++ run_bytes (int_type_of t.now) values.now }
    ensures capacity { vec_capacity out.old ≤ vec_capacity out.new }
{
    if t.big {
        put_run(values, t, out);
        return;
    }
    match t.size {
        1 => put_little(values, 1, t.signed, out),
        2 => put_little(values, 2, t.signed, out),
        4 => put_little(values, 4, t.signed, out),
        8 => put_little(values, 8, t.signed, out),
        _ => put_run(values, t, out),
    }
}

/// Adds the cells of some values, one behind the other, or none of them where memory runs out.
#[inline(never)]
fn put_more(values: &[i128], t: &IntType, out: &mut Vec<u8>) -> Result<(), OutOfMemory>
    requires typed { IsIntType (int_type_of t.now) }
    requires fit { first_outside (int_type_of t.now) 0 values.now ≡ None }
    ensures added { OnOk result (out.new.items ≡ out.old.items ++ run_bytes (int_type_of t.now) values.now) }
    ensures kept { OnErr result (out.new.items ≡ out.old.items) }
{
    let size = usize::from(t.size);
    let len = values.len().checked_mul(size).ok_or(OutOfMemory)?;
    out.reserve(len)?;
    for part in values.chunks(RUN) {
        put_reserved(part, t, out);
    }
    Ok(())
}

/// Adds the cells of some values, one behind the other, or none of them where memory runs out. One value has a way of its own.
pub fn put_cells(values: &[i128], t: &IntType, out: &mut Vec<u8>) -> Result<(), OutOfMemory>
    requires typed { IsIntType (int_type_of t.now) }
    requires fit { first_outside (int_type_of t.now) 0 values.now ≡ None }
    ensures added { OnOk result (out.new.items ≡ out.old.items ++ run_bytes (int_type_of t.now) values.now) }
    ensures kept { OnErr result (out.new.items ≡ out.old.items) }
{
    match values {
        [v] => put_cell(*v, t, out),
        _ => put_more(values, t, out),
    }
}
