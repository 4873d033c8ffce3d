ghost use Rattle.std.specs.Prelude.{◌≡◌, ◌++◌, OnOk};
ghost use Rattle.h5w_text.specs.Replies.{spaced, spaced_value};
ghost use Rattle.h5w_text.specs.Table.{value_text};

use h5w_model::OutOfMemory;
use itoa::Buffer;

/// Adds bytes.
pub fn text(out: &mut Vec<u8>, bytes: &[u8]) -> Result<(), OutOfMemory>
    ensures { OnOk result (out.new.items ≡ out.old.items ++ bytes.now) }
{
    out.extend_from_slice(bytes)?;
    Ok(())
}

/// Adds a space and a number.
pub fn number(out: &mut Vec<u8>, n: u64) -> Result<(), OutOfMemory>
    ensures { OnOk result (out.new.items ≡ out.old.items ++ spaced n) }
{
    out.push(b' ')?;
    text(out, Buffer::new().format(n).as_bytes())
}

/// Adds a space and a number of up to 39 digits.
pub fn large_number(out: &mut Vec<u8>, n: u128) -> Result<(), OutOfMemory>
    ensures { OnOk result (out.new.items ≡ out.old.items ++ spaced n) }
{
    out.push(b' ')?;
    text(out, Buffer::new().format(n).as_bytes())
}

/// Adds a value. One of 64 bits takes the shorter way.
#[tactic(auto, using(crate::proofs::ValueLemmas::value_text_is))]
pub fn unspaced_value(out: &mut Vec<u8>, v: i128) -> Result<(), OutOfMemory>
    ensures { OnOk result (out.new.items ≡ out.old.items ++ value_text v) }
{
    let mut buffer = Buffer::new();
    match i64::try_from(v) {
        Ok(short) => text(out, buffer.format(short).as_bytes()),
        Err(_) => text(out, buffer.format(v).as_bytes()),
    }
}

/// Adds a space and a value.
#[tactic(auto, using(crate::proofs::ValueLemmas::spaced_value_is))]
pub fn value(out: &mut Vec<u8>, v: i128) -> Result<(), OutOfMemory>
    ensures { OnOk result (out.new.items ≡ out.old.items ++ spaced_value v) }
{
    out.push(b' ')?;
    unspaced_value(out, v)
}
