//! The file that was made: its check, and its rows by a reader.
ghost use Rattle.std.specs.Prelude.{◌≡◌, ◌≢◌, ◌+◌, ◌<◌, ◌≤◌, ◌^◌, List, ℕ, ℤ, drop, length, map, pos, sum, take, Some, IsSome, IfOk, OnOk};
ghost use Rattle.h5w_model.specs.Findings.{Summary as Found, Valid};
ghost use Rattle.h5w_model.specs.Unfinished.{Unfinished, wanted};
ghost use Rattle.h5w_model.specs.Tables.{Reading};
ghost use Rattle.h5w_image.specs.View.{Same};
ghost use Rattle.h5w_steady.specs.Steady.{steady};
ghost use Rattle.h5w_reader.specs.Cores.{reader};
ghost use Rattle.h5w_reader.specs.Readers.{StepTells, new_reader, reader_rules};
ghost use Rattle.h5w_reader.specs.declared.step.Step.TheVariants as steps;
ghost use Rattle.h5w_answers.specs.Answering.{evaluated};
ghost use Rattle.h5w_make.specs.Commands.{data_name};
ghost use Rattle.h5w_make.specs.Readings.{IsReadable, IsReaderOf};

use crate::batch::NAME;
use h5w_answers::{Failed, answer};
use h5w_check::{CheckError, check};
use h5w_model::{OutOfMemory, ReadError, Values};
use h5w_names::Names;
use h5w_reader::{ReadBegin, ReaderCore, Step};
use h5w_steady::SteadyImage;
use std::alloc::Global;

/// How many rows are read at once: those of 16 chunks.
const PART: u64 = 1024;

/// How often a call may look at a dataset header that changes, which it does not here.
const ATTEMPTS: u32 = 8;

/// The blocks of a valid file.
pub fn blocks(alloc: Global, image: &mut SteadyImage) -> Result<u64, OutOfMemory>
    requires { (s : Found) × Valid image.old.bytes data_name s }
    ensures blocks { (s : Found) → Valid image.old.bytes data_name s → IfOk result (λ blocks. blocks ≡ s.blocks) }
    ensures image { Same (steady image.old) (steady image.new) }
{
    let size = image.len();
    let names = Names::of(alloc, NAME)?;
    match check(alloc, image, size, &names) {
        Ok(summary) => Ok(summary.blocks),
        Err(CheckError::OutOfMemory) => Err(OutOfMemory),
        Err(_) => unreachable!(),
    }
}

/// Takes the looks of an unfinished call at the image, up to its answer.
fn answered(call: &mut ReaderCore, image: &mut SteadyImage) -> Step
    requires { IsSome (wanted (reader call.old).left) }
    ensures answered { result ≢ steps.More }
    ensures answer { (left : Unfinished) → (reader call.old).left ≡ Some left → StepTells (Some (evaluated image.old.bytes left)) (reader call.old) result (reader call.new) }
    ensures image { Same (steady image.old) (steady image.new) }
{
    // What the bytes give rests on their end, which is below 2^64.
    let _end = image.len();
    let mut uncounted = 0;
    match answer(call, image, &mut uncounted) {
        Ok(step) => step,
        Err(Failed) => unreachable!(),
    }
}

/// The rows of the file, by a reader that begins to open it.
fn find_rows(call: &mut ReaderCore, image: &mut SteadyImage) -> Result<u64, OutOfMemory>
    requires begun { reader call.old ≡ new_reader (reader_rules data_name 8) }
    requires wanting { IsSome (wanted (reader call.old).left) }
    requires readable { (values : List ℤ) × IsReadable image.old.bytes values }
    ensures opened { (values : List ℤ) → IsReadable image.old.bytes values → OnOk result (IsReaderOf image.old.bytes values (reader call.new)) }
    ensures rows { (values : List ℤ) → IsReadable image.old.bytes values → IfOk result (λ rows. rows ≡ length values) }
    ensures image { Same (steady image.old) (steady image.new) }
{
    match answered(call, image) {
        Step::Rows(rows) => Ok(rows),
        Step::Refused(ReadError::OutOfMemory) => Err(OutOfMemory),
        _ => unreachable!(),
    }
}

/// The values of `count` rows from row `from` on, by a reader that opened the file, and stays as it is.
fn read_part(
    call: &mut ReaderCore,
    from: u64,
    count: u64,
    image: &mut SteadyImage,
) -> Result<Values, OutOfMemory>
    requires { (values : List ℤ) × IsReaderOf image.old.bytes values (reader call.old) × (from + count ≤ length values) }
    ensures values { (values : List ℤ) → IsReaderOf image.old.bytes values (reader call.old) → IfOk result (λ part. part ≡ take count (drop from values)) }
    ensures reader { OnOk result (reader call.new ≡ reader call.old) }
    ensures image { Same (steady image.old) (steady image.new) }
{
    match call.read(from, count) {
        Ok(Some(values)) => return Ok(values),
        Ok(None) => {}
        Err(ReadBegin::OutOfMemory) => return Err(OutOfMemory),
        Err(_) => unreachable!(),
    }
    match answered(call, image) {
        Step::Values(values) => Ok(values),
        Step::Refused(ReadError::OutOfMemory) => Err(OutOfMemory),
        _ => unreachable!(),
    }
}

/// The sum of values that are numbers.
fn sum_of(values: &[i128]) -> u64
    requires { (ns : List ℕ) × (values.now ≡ map pos ns) × (sum ns < 2 ^ 64) }
    ensures { (ns : List ℕ) → values.now ≡ map pos ns → result ≡ sum ns }
{
    let mut sum = 0;
    for value in values {
        sum += *value as u64;
    }
    sum
}

/// The sum of all values of the file, by a reader that opened it. No more than a part of them is held at once.
fn sum_rows(call: &mut ReaderCore, rows: u64, image: &mut SteadyImage) -> Result<u64, OutOfMemory>
    requires { (ns : List ℕ) × IsReaderOf image.old.bytes (map pos ns) (reader call.old) × (rows ≡ length ns) × (sum ns < 2 ^ 64) }
    ensures sum { (ns : List ℕ) → IsReaderOf image.old.bytes (map pos ns) (reader call.old) → IfOk result (λ total. total ≡ sum ns) }
    ensures image { Same (steady image.old) (steady image.new) }
{
    let mut total = 0;
    let mut from = 0;
    while from < rows {
        let count = PART.min(rows - from);
        let values = read_part(call, from, count, image)?;
        total += sum_of(values.as_slice());
        from += count;
    }
    Ok(total)
}

/// The rows of a file of numbers and their sum, by a reader that begins to open it.
fn rows_and_sum(call: &mut ReaderCore, image: &mut SteadyImage) -> Result<(u64, u64), OutOfMemory>
    requires begun { reader call.old ≡ new_reader (reader_rules data_name 8) }
    requires wanting { IsSome (wanted (reader call.old).left) }
    requires readable { (ns : List ℕ) × IsReadable image.old.bytes (map pos ns) × (sum ns < 2 ^ 64) }
    ensures rows { (ns : List ℕ) → IsReadable image.old.bytes (map pos ns) → IfOk result (λ read. read.0 ≡ length ns) }
    ensures sum { (ns : List ℕ) → IsReadable image.old.bytes (map pos ns) → IfOk result (λ read. read.1 ≡ sum ns) }
    ensures image { Same (steady image.old) (steady image.new) }
{
    let rows = find_rows(call, image)?;
    let total = sum_rows(call, rows, image)?;
    Ok((rows, total))
}

/// The rows of a file of numbers and their sum, as a reader finds them.
pub fn read_back(alloc: Global, image: &mut SteadyImage) -> Result<(u64, u64), OutOfMemory>
    requires { (ns : List ℕ) × IsReadable image.old.bytes (map pos ns) × (sum ns < 2 ^ 64) }
    ensures rows { (ns : List ℕ) → IsReadable image.old.bytes (map pos ns) → IfOk result (λ read. read.0 ≡ length ns) }
    ensures sum { (ns : List ℕ) → IsReadable image.old.bytes (map pos ns) → IfOk result (λ read. read.1 ≡ sum ns) }
    ensures image { Same (steady image.old) (steady image.new) }
{
    let mut call = ReaderCore::open(alloc, NAME, ATTEMPTS)?;
    rows_and_sum(&mut call, image)
}
