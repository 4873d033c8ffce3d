//! What the trials of runs have in common.
ghost use Rattle.std.specs.Prelude.{◌≡◌, ◌^◌, ◌≤◌, IfOk};
ghost use Rattle.h5w_live.specs.Writing.{AreBatches, AreWholeRows};
ghost use Rattle.h5w_options.specs.Options.{AreOptions, columns_in};

use h5w_image::Gate;
use h5w_live::{Batches, LiveReport, Readers, live};
use h5w_model::{Bytes, Values};
use h5w_options::{IntType, Options};
use std::alloc::{AllocError, Global};
use std::sync::Wait;
use std::sync::atomic::{AtomicBool, Ordering};
use std::test::Fail;
use std::thread;
use std::thread::Threads;

/// A dataset `data` of integers of 4 bytes, of so many rows in a chunk. So many bytes may wait unwritten after an append.
pub fn options(alloc: Global, chunk_rows: u64, budget: u64) -> Result<Options, AllocError>
    requires rows { (1 ≤ chunk_rows) × (chunk_rows ≤ 65536) }
    requires budget { (1024 ≤ budget) × (budget ≤ 2 ^ 30) }
    ensures options { IfOk result AreOptions }
    ensures columns { IfOk result (λ o. columns_in o.columns ≡ 1) }
{
    Ok(Options {
        name: Bytes::from_vec(Vec::from_slice(alloc, b"data")?),
        int_type: IntType {
            size: 4,
            big: false,
            signed: true,
        },
        chunk_rows,
        columns: None,
        fixed: false,
        fill: None,
        limit: 1 << 40,
        budget,
    })
}

/// These values, which are whole rows of one column.
fn batch_of(alloc: Global, values: &[i128]) -> Result<Values, AllocError>
    ensures { IfOk result (λ v. AreWholeRows 1 v) }
{
    Ok(Values::from_vec(Vec::from_slice(alloc, values)?))
}

/// These batches.
fn batches(alloc: Global, of: &[&[i128]]) -> Result<Batches, Fail>
    ensures { IfOk result (λ b. AreBatches 1 b) }
{
    let mut batches = Vec::new(alloc);
    for values in of {
        let batch = batch_of(alloc, values)?;
        batches.push(batch)?;
    }
    Ok(Batches::from_vec(batches))
}

/// The report of a run of these batches, of so many rows in a chunk, and of so many readers of each image, with two calls each. So many bytes
/// may wait unwritten after an append.
pub fn report_of<R: Threads + Wait + Sync, G: Gate>(
    rt: &R,
    alloc: Global,
    chunk_rows: u64,
    budget: u64,
    of: &[&[i128]],
    readers: u32,
    mirrors: u32,
    gate: &G,
) -> Result<LiveReport, Fail>
    requires rows { (1 ≤ chunk_rows) × (chunk_rows ≤ 65536) }
    requires budget { (1024 ≤ budget) × (budget ≤ 2 ^ 30) }
    requires readers { (1 ≤ readers) × (readers ≤ 16) }
    requires mirrors { mirrors ≤ 16 }
{
    let options = options(alloc, chunk_rows, budget)?;
    let batches = batches(alloc, of)?;
    let readers = Readers {
        count: readers,
        polls: 2,
        attempts: 8,
        mirrors,
    };
    match live(rt, alloc, &options, &batches, readers, gate) {
        Ok(report) => Ok(report),
        Err(_) => Err("the run was refused".into()),
    }
}

/// How often one actor looks whether another has come.
pub const PATIENCE: u32 = 10_000_000;

/// Waits until an actor has come, and tells where it was in vain.
pub fn wait_for(came: &AtomicBool, late: &AtomicBool) {
    for _ in 0..PATIENCE {
        if came.load(Ordering::SeqCst) {
            return;
        }
        thread::yield_now();
    }
    late.store(true, Ordering::SeqCst);
}
