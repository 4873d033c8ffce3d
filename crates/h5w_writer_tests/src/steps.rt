//! Steps of a world of which an allocation is refused: tests/memory refuses one after another, and each step is then taken once more.

ghost use Rattle.std.specs.Prelude.{◌≤◌, ◌^◌};

use h5w_core::World;
use h5w_model::{Bytes, Event, OutOfMemory, Reply, Values};
use h5w_options::Options;
use h5w_types::IntType;
use std::alloc::{AllocError, Global};
use std::process::Abort;
use std::test::Fail;

/// An allocation by which tests/memory knows that the call under trial begins behind it, or has ended.
fn mark(alloc: Global) -> Result<(), AllocError> {
    let mut room = Vec::with_capacity(alloc, 77_771)?;
    room.push(1u8)?;
    Ok(())
}

/// A world of a dataset of 4-byte integers in chunks of so many rows, of which so many bytes may wait.
fn new(alloc: Global, chunk_rows: u64, budget: u64) -> Result<World, OutOfMemory>
    requires rows { (1 ≤ chunk_rows) × (chunk_rows ≤ 64) }
    requires budget { (1024 ≤ budget) × (budget ≤ 2 ^ 30) }
{
    let options = Options {
        name: Bytes::from_vec(Vec::from_slice(alloc, b"data")?),
        int_type: IntType {
            size: 4,
            big: false,
            signed: true,
        },
        chunk_rows,
        columns: None,
        fixed: false,
        fill: None,
        limit: 1 << 40,
        budget,
    };
    World::new(alloc, &options, 8)
}

/// What a world tells of its writer.
fn told(world: &World) -> (u64, u64) {
    (world.rows(), world.pending())
}

/// The values 1, 2 and so on.
fn values(alloc: Global, count: u64) -> Result<Values, AllocError> {
    let mut values = Vec::new(alloc);
    for k in 0..count {
        values.push(k as i128 + 1)?;
    }
    Ok(Values::from_vec(values))
}

/// The writer appends so many rows.
fn append(
    rt: &(impl Abort + AllocGlobal),
    world: &mut World,
    rows: u64,
) -> Result<Reply, OutOfMemory> {
    if world.columns() != 1 {
        panic!(rt; "more columns than one");
    }
    let values = values(rt.alloc(), rows)?;
    mark(rt.alloc())?;
    let reply = world.step(Event::Append(values));
    mark(rt.alloc())?;
    reply
}

/// The writer plans a flush.
fn flush(rt: &impl AllocGlobal, world: &mut World) -> Result<Reply, OutOfMemory> {
    mark(rt.alloc())?;
    let reply = world.step(Event::Flush);
    mark(rt.alloc())?;
    reply
}

/// All that is pending becomes visible.
fn show_all(world: &mut World) -> Result<(), OutOfMemory> {
    for _ in 0..world.pending() {
        world.step(Event::Visible)?;
    }
    Ok(())
}

/// Appends and flushes so many rows, each step once more where memory is refused: all is as before it then. The answer is how many pieces
/// were written before the flush.
fn write_twice(rt: &(impl Abort + AllocGlobal), world: &mut World, rows: u64) -> Result<u64, Fail> {
    if append(rt, world, rows).is_err() {
        assert_eq!(rt; told(world), (0, 0));
        append(rt, world, rows)?;
    }
    let early = world.pending();
    show_all(world)?;
    if flush(rt, world).is_err() {
        assert_eq!(rt; told(world), (rows, 0));
        flush(rt, world)?;
    }
    show_all(world)?;
    assert_eq!(rt; told(world), (rows, 0));
    Ok(early)
}

/// Reader 1 opens.
fn open(rt: &impl AllocGlobal, world: &mut World) -> Result<Reply, OutOfMemory> {
    mark(rt.alloc())?;
    let reply = world.step(Event::Open { reader: 1 });
    mark(rt.alloc())?;
    reply
}

/// Reader 1 reads the first three rows.
fn read(rt: &impl AllocGlobal, world: &mut World) -> Result<Reply, OutOfMemory> {
    mark(rt.alloc())?;
    let reply = world.step(Event::Read {
        reader: 1,
        from: 0,
        count: 3,
    });
    mark(rt.alloc())?;
    reply
}

/// What a look of reader 1 tells.
#[derive(Clone, Copy)]
enum Seen {
    Rows(u64),
    /// Whether the values are 1 2 3.
    Values(bool),
    /// There is no unfinished call.
    Idle,
    NoReader,
    Looking,
    Other,
}

fn told_by(reply: Reply) -> Seen {
    match reply {
        Reply::Rows { rows, .. } => Seen::Rows(rows),
        Reply::Values { values, .. } => Seen::Values(values.as_slice() == [1, 2, 3].as_slice()),
        Reply::Idle { .. } => Seen::Idle,
        Reply::NoReader { .. } => Seen::NoReader,
        Reply::Looking { .. } => Seen::Looking,
        _ => Seen::Other,
    }
}

/// Reader 1 looks once.
fn look_once(world: &mut World) -> Result<Seen, OutOfMemory> {
    Ok(told_by(world.step(Event::Look { reader: 1 })?))
}

/// Reader 1 looks until its call has an answer.
fn look(rt: &impl AllocGlobal, world: &mut World) -> Result<Seen, OutOfMemory> {
    mark(rt.alloc())?;
    let mut answer = look_once(world);
    for _ in 0..99u32 {
        match answer {
            Ok(Seen::Looking) => answer = look_once(world),
            _ => break,
        }
    }
    mark(rt.alloc())?;
    answer
}

/// Opens, once more where memory is refused: there is no such reader then.
fn open_twice(rt: &(impl Abort + AllocGlobal), world: &mut World) -> Result<(), Fail> {
    if open(rt, world).is_err() {
        assert!(rt; matches!(look(rt, world)?, Seen::NoReader));
        open(rt, world)?;
    }
    Ok(())
}

/// The rows that reader 1 finds. Where memory is refused its call has ended, and it refreshes.
fn rows_twice(rt: &(impl Abort + AllocGlobal), world: &mut World) -> Result<Seen, Fail> {
    match look(rt, world) {
        Ok(seen) => Ok(seen),
        Err(OutOfMemory) => {
            assert!(rt; matches!(look(rt, world)?, Seen::Idle));
            world.step(Event::Refresh { reader: 1 })?;
            Ok(look(rt, world)?)
        }
    }
}

/// The values that reader 1 reads; it begins once more where memory is refused.
fn values_twice(rt: &(impl Abort + AllocGlobal), world: &mut World) -> Result<Seen, Fail> {
    if read(rt, world).is_err() {
        read(rt, world)?;
    }
    match look(rt, world) {
        Ok(seen) => Ok(seen),
        Err(OutOfMemory) => {
            assert!(rt; matches!(look(rt, world)?, Seen::Idle));
            read(rt, world)?;
            Ok(look(rt, world)?)
        }
    }
}

/// A new world, made once more where memory is refused.
fn made_twice(alloc: Global, chunk_rows: u64, budget: u64) -> Result<World, OutOfMemory>
    requires rows { (1 ≤ chunk_rows) × (chunk_rows ≤ 64) }
    requires budget { (1024 ≤ budget) × (budget ≤ 2 ^ 30) }
{
    mark(alloc)?;
    let made = new(alloc, chunk_rows, budget);
    mark(alloc)?;
    match made {
        Ok(world) => Ok(world),
        Err(OutOfMemory) => new(alloc, chunk_rows, budget),
    }
}

/// Panics where so many rows are not written, found and read.
fn check(
    rt: &(impl Abort + AllocGlobal),
    world: &mut World,
    rows: u64,
    early: u64,
) -> Result<(), Fail> {
    assert_eq!(rt; write_twice(rt, world, rows)?, early);
    open_twice(rt, world)?;
    let Seen::Rows(found) = rows_twice(rt, world)? else {
        return Err(Fail::from("no rows"));
    };
    assert_eq!(rt; found, rows);
    assert!(rt; matches!(values_twice(rt, world)?, Seen::Values(true)));
    Ok(())
}

#[test]
fn a_refused_step_leaves_the_world(rt: HostRuntime) -> Result<(), Fail> {
    let mut world = made_twice(rt.alloc(), 2, 1 << 16)?;
    check(&rt, &mut world, 3, 0)
}

// of seven bands of 256 bytes four leave: three of them and the header's 82 bytes are within the budget
#[test]
fn a_refused_step_of_early_rows_leaves_the_world(rt: HostRuntime) -> Result<(), Fail> {
    let mut world = made_twice(rt.alloc(), 64, 1024)?;
    check(&rt, &mut world, 400, 4)
}
