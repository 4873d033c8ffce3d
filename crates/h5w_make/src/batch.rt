//! A session in memory that creates a file, takes batches of values, and closes it.
ghost use Rattle.std.specs.Prelude.{◌≡◌, ◌∷◌, ◌<◌, ◌^◌, ◌≤◌, [], false, List, ℤ, length, IfOk, OnOk};
ghost use Rattle.h5w_model.specs.Images.{image};
ghost use Rattle.h5w_model.specs.Logs.{Log, and_now, hist, plans};
ghost use Rattle.h5w_options.specs.Options.{AreOptions};
ghost use Rattle.h5w_image.specs.Memory.{fresh};
ghost use Rattle.h5w_image.specs.View.{Same};
ghost use Rattle.h5w_creation.specs.NewFiles.{new_file as file_of};
ghost use Rattle.h5w_writer.specs.Refusals.{append_refusal, flush_refusal};
ghost use Rattle.h5w_writer.specs.Room.{HasRoomFor};
ghost use Rattle.h5w_writer.specs.Sessions.{AfterPiece, AreRows, Session, TakesRows};
ghost use Rattle.h5w_writer.specs.Stands.{Stands};
ghost use Rattle.h5w_steady.specs.Steady.{steady};
ghost use Rattle.h5w_make.specs.Commands.{batches, new_file};
ghost use Rattle.h5w_reader_laws.specs.Showing.{showing};
ghost use Rattle.h5w_make.specs.States.{HasPlace, IsAfter, IsAppended, IsClosed, IsTaken, TakesBatch, ShowsAll};

use crate::seeded::generator;
use h5w_model::{Bytes, OutOfMemory};
use h5w_options::{IntType, Options};
use h5w_steady::SteadyImage;
use h5w_writer::{AppendError, FlushError, WriterCore};
use std::alloc::Global;

/// How many values a batch has at most.
const BATCH: u64 = 1000;

/// The dataset's name.
pub const NAME: &[u8] = b"data";

/// By what the file is created.
fn options(alloc: Global) -> Result<Options, OutOfMemory>
    ensures options { IfOk result AreOptions }
    ensures file { IfOk result (λ o. file_of o ≡ new_file) }
    ensures limit { IfOk result (λ o. o.limit ≡ 2 ^ 40) }
{
    Ok(Options {
        name: Bytes::from_vec(Vec::from_slice(alloc, NAME)?),
        int_type: IntType {
            size: 4,
            big: false,
            signed: true,
        },
        chunk_rows: 64,
        columns: None,
        fixed: false,
        fill: None,
        limit: 1 << 40,
        budget: 1 << 16,
    })
}

/// Makes all pending pieces visible, one after another.
fn show_all(session: &mut WriterCore, image: &mut SteadyImage)
    requires some { 0 < length session.old.pending }
    requires room { HasRoomFor session.old (steady image.old) }
    ensures session { AfterPiece session.old [] session.new }
    ensures image { ShowsAll session.old.pending image.old image.new }
    ensures stands { (log : Log) → Stands session.old log → Stands session.new (record log { events = showing session.old.pending log.events }) }
    ensures room { HasRoomFor session.new (steady image.new) }
{
    while let Some(w) = session.next() {
        image.put(w);
        session.written();
    }
}

/// A session that created the file in a new image.
fn create(alloc: Global, image: &mut SteadyImage) -> Result<WriterCore, OutOfMemory>
    requires { image.old ≡ fresh [] [] }
    ensures { IfOk result (λ session. IsAfter [] session image.new) }
{
    let options = options(alloc)?;
    let mut session = WriterCore::create(alloc, &options)?;
    image.make_room(session.pending() + 1, session.end())?;
    show_all(&mut session, image);
    Ok(session)
}

/// Makes the pieces visible that an append wrote early, where there are some.
fn show_early(session: &mut WriterCore, image: &mut SteadyImage)
    requires no_flush { session.old.flushing ≡ false }
    requires room { HasRoomFor session.old (steady image.old) }
    ensures session { session.new ≡ record session.old { pending = [] } }
    ensures image { ShowsAll session.old.pending image.old image.new }
    ensures stands { (log : Log) → Stands session.old log → Stands session.new (record log { events = showing session.old.pending log.events }) }
{
    if session.pending() > 0 {
        show_all(session, image);
    }
}

/// Appends values that are not refused, and makes the pieces visible that were written early.
fn append(
    session: &mut WriterCore,
    image: &mut SteadyImage,
    values: &[i128],
) -> Result<(), OutOfMemory>
    requires rows { AreRows session.old values.now }
    requires no_flush { session.old.flushing ≡ false }
    requires taken { append_refusal session.old values.now ≡ None }
    ensures { OnOk result (IsAppended values.now session.old session.new image.old image.new) }
{
    match session.append(values, image) {
        Ok(_) => {
            show_early(session, image);
            Ok(())
        }
        Err(AppendError::OutOfMemory) => Err(OutOfMemory),
        Err(_) => unreachable!(),
    }
}

/// Plans the pieces of the rows that wait, for which the file has places.
fn flush(session: &mut WriterCore, image: &mut SteadyImage) -> Result<(), OutOfMemory>
    requires waits { 0 < session.old.waits }
    requires taken { flush_refusal session.old ≡ None }
    requires places { HasPlace session.old }
    ensures flushed { OnOk result (TakesRows session.old session.new) }
    ensures some { OnOk result (0 < length session.new.pending) }
    ensures stands { OnOk result ((log : Log) → Stands session.old log → Stands session.new (and_now (plans (length session.new.pending)) log)) }
    ensures image { Same (steady image.old) (steady image.new) }
    ensures room { OnOk result (HasRoomFor session.new (steady image.new)) }
{
    match session.flush(image) {
        Ok(_) => Ok(()),
        Err(FlushError::OutOfMemory) => Err(OutOfMemory),
        Err(_) => unreachable!(),
    }
}

/// Appends a batch, flushes it, and makes all its pieces visible: those that were written early before the flush.
fn put_batch(
    session: &mut WriterCore,
    image: &mut SteadyImage,
    values: &[i128],
) -> Result<(), OutOfMemory>
    requires { TakesBatch session.old image.old values.now }
    ensures { (bs : List (List ℤ)) → IsTaken bs values.now → IsAfter bs session.old image.old → OnOk result (IsAfter (values.now ∷ bs) session.new image.new) }
{
    append(session, image, values)?;
    flush(session, image)?;
    show_all(session, image);
    Ok(())
}

/// Puts `n` values of the generator into the file, batch after batch.
fn put_all(
    alloc: Global,
    n: u64,
    seed: u64,
    session: &mut WriterCore,
    image: &mut SteadyImage,
) -> Result<(), OutOfMemory>
    requires few { n ≤ 1000000 }
    requires created { IsAfter [] session.old image.old }
    ensures { OnOk result (IsAfter (batches seed n) session.new image.new) }
{
    let mut generator = generator(seed);
    let mut values = Vec::new(alloc);
    for _ in 0..n / BATCH {
        generator.fill(BATCH, &mut values)?;
        put_batch(session, image, &values)?;
    }
    let rest = n % BATCH;
    if rest == 0 {
        return Ok(());
    }
    generator.fill(rest, &mut values)?;
    put_batch(session, image, &values)
}

/// Closes the session, whose last piece becomes visible.
fn close(session: &mut WriterCore, image: &mut SteadyImage) -> Result<(), OutOfMemory>
    requires { (bs : List (List ℤ)) × IsAfter bs session.old image.old }
    ensures { (bs : List (List ℤ)) → IsAfter bs session.old image.old → OnOk result (IsClosed bs session.new image.new) }
{
    image.make_room(2, session.end())?;
    session.close().unwrap();
    show_all(session, image);
    Ok(())
}

/// Puts `n` values of the generator into the file, and closes it.
fn fill(
    alloc: Global,
    n: u64,
    seed: u64,
    session: &mut WriterCore,
    image: &mut SteadyImage,
) -> Result<(), OutOfMemory>
    requires few { n ≤ 1000000 }
    requires created { IsAfter [] session.old image.old }
    ensures { OnOk result (IsClosed (batches seed n) session.new image.new) }
{
    put_all(alloc, n, seed, session, image)?;
    close(session, image)
}

/// Makes the closed file of `n` values of the generator in a new image.
fn write_into(alloc: Global, n: u64, seed: u64, image: &mut SteadyImage) -> Result<(), OutOfMemory>
    requires few { n ≤ 1000000 }
    requires new { image.old ≡ fresh [] [] }
    ensures { OnOk result ((s : Session) × IsClosed (batches seed n) s image.new) }
{
    let mut session = create(alloc, image)?;
    fill(alloc, n, seed, &mut session, image)
}

/// The closed file of `n` values of the generator, in memory.
pub fn write(alloc: Global, n: u64, seed: u64) -> Result<SteadyImage, OutOfMemory>
    requires { n ≤ 1000000 }
    ensures { IfOk result (λ image. (s : Session) × IsClosed (batches seed n) s image) }
{
    let mut image = SteadyImage::new(alloc)?;
    write_into(alloc, n, seed, &mut image)?;
    Ok(image)
}
