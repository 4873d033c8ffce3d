//! The values of cells.
ghost use Rattle.std.specs.Prelude.{◌≡◌, ◌/◌, ◌++◌, length, replicate, false, true, OnOk};
ghost use Rattle.std.specs.Option.{ForSome};
ghost use Rattle.h5w_model.specs.Integers.{fill_value, is_in_span, span_of};
ghost use Rattle.h5w_model.specs.Messages.{IsIntType};
ghost use Rattle.h5w_types.specs.Fields.{int_type_of};
ghost use Rattle.h5w_layout.specs.Layouts.{fill_of};
ghost use Rattle.h5w_reader.specs.Cells.{cell_values};

use h5w_layout::Fill;
use h5w_model::OutOfMemory;
use h5w_types::{IntType, value_of};
use std::mem;

/// The same value, by way of the machine's integers of the type's size: where the type is known at the call, its sign is
/// extended by one instruction.
#[inline(always)]
fn extended(v: i128, t: &IntType) -> i128
    requires typed { IsIntType (int_type_of t.now) }
    requires inside { is_in_span t.now.signed (span_of (int_type_of t.now)) v ≡ true }
    ensures { result ≡ v }
{
    if !t.signed {
        return v;
    }
    match t.size {
        1 => i128::from(v as i8),
        2 => i128::from(v as i16),
        4 => i128::from(v as i32),
        _ => v,
    }
}

/// Puts the values of some whole cells behind those of `out`, which stand in a vector of its own meanwhile.
#[inline(always)]
fn put_run(bytes: &[u8], t: &IntType, out: &mut Vec<i128>) -> Result<(), OutOfMemory>
    requires { IsIntType (int_type_of t.now) }
    ensures { OnOk result (out.new.items ≡ out.old.items ++ cell_values (int_type_of t.now) (length bytes.now / t.now.size) bytes.now) }
{
    let size = usize::from(t.size);
    out.reserve(bytes.len() / size)?;
    let none = Vec::new(*out.allocator());
    let mut values = mem::replace(out, none);
    for cell in bytes.chunks_exact(size) {
        values.push_reserved(extended(value_of(cell, t), t));
    }
    *out = values;
    Ok(())
}

/// The same of a type whose least significant byte comes first. Where size and order are known at the call, the loop is for
/// that type alone.
#[inline(always)]
fn put_little(bytes: &[u8], size: u8, signed: bool, out: &mut Vec<i128>) -> Result<(), OutOfMemory>
    requires { IsIntType (record { size = size; big = false; signed = signed }) }
    ensures { OnOk result (out.new.items ≡ out.old.items ++ cell_values (record { size = size; big = false; signed = signed }) (length bytes.now / size) bytes.now) }
{
    let big = false;
    if signed {
        let signed = true;
        put_run(bytes, &IntType { size, big, signed }, out)
    } else {
        let signed = false;
        put_run(bytes, &IntType { size, big, signed }, out)
    }
}

/// Puts the values of some whole cells behind those of `out`. Where the least significant byte comes first, there is a
/// loop for each type.
pub fn put_cells(bytes: &[u8], t: &IntType, out: &mut Vec<i128>) -> Result<(), OutOfMemory>
    requires { IsIntType (int_type_of t.now) }
    ensures { OnOk result (out.new.items ≡ out.old.items ++ cell_values (int_type_of t.now) (length bytes.now / t.now.size) bytes.now) }
{
    if t.big {
        return put_run(bytes, t, out);
    }
    match t.size {
        1 => put_little(bytes, 1, t.signed, out),
        2 => put_little(bytes, 2, t.signed, out),
        4 => put_little(bytes, 4, t.signed, out),
        8 => put_little(bytes, 8, t.signed, out),
        _ => put_run(bytes, t, out),
    }
}

/// The value of cells that were never written.
fn fill_value(fill: &Fill, t: &IntType) -> i128
    requires typed { IsIntType (int_type_of t.now) }
    requires filled { ForSome fill.now.value (λ c. c.size ≡ t.now.size) }
    ensures { result ≡ fill_value (fill_of fill.now) (int_type_of t.now) }
{
    match &fill.value {
        Some(cell) => value_of(&cell.bytes[..usize::from(cell.size)], t),
        None => 0,
    }
}

/// Puts the value of `count` cells that were never written behind those of `out`.
pub fn put_fill(
    fill: &Fill,
    t: &IntType,
    count: u64,
    out: &mut Vec<i128>,
) -> Result<(), OutOfMemory>
    requires typed { IsIntType (int_type_of t.now) }
    requires filled { ForSome fill.now.value (λ c. c.size ≡ t.now.size) }
    ensures { OnOk result (out.new.items ≡ out.old.items ++ replicate count (fill_value (fill_of fill.now) (int_type_of t.now))) }
{
    let value = fill_value(fill, t);
    for _ in 0..count {
        out.push(value)?;
    }
    Ok(())
}
