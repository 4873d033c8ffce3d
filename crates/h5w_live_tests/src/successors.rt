//! A session that stops in the middle of a flush, and another one that goes on through its seat, while readers poll.
ghost use Rattle.std.specs.Prelude.{◌≡◌, ◌≤◌, ◌+◌, length, OnOk};
ghost use Rattle.std.specs.Thread.{IsSync};
ghost use Rattle.h5w_writer.specs.Sessions.{AreRows};

use crate::helpers::{PATIENCE, options, wait_for};
use h5w_image::{Failed, ImageError, Journal, MemImage, PieceRead, PieceWrite};
use h5w_model::{Piece, ReadError, Write};
use h5w_reader::{ReaderCore, Step};
use h5w_several_open::{Beginning, begin_one};
use h5w_shared::{ReaderSeat, Reading, SharedImage, WriterSeat, Writing};
use h5w_writer::{AppendError, FlushError, WriterCore};
use h5w_writer_open::OpenError;
use std::alloc::Global;
use std::sync::Wait;
use std::sync::atomic::{AtomicBool, Ordering};
use std::test::Fail;
use std::thread::{Threads, join};

/// What the threads tell each other.
#[derive(Drop)]
struct Signs {
    /// The first session has stopped.
    halted: AtomicBool,
    /// A call that a reader began behind that was answered.
    polled: AtomicBool,
    /// That was waited for in vain.
    late: AtomicBool,
}

/// Writes a piece into an image that ends by this place.
fn put<R: Wait>(
    rt: &R,
    image: &SharedImage,
    seat: &mut WriterSeat,
    w: &Write,
    end: u64,
) -> Result<(), ImageError>
    requires image { seat.old.image ≡ image.now }
    requires end { w.now.at + length w.now.piece ≤ end }
    ensures { seat.new.image ≡ seat.old.image }
{
    let mut through = Writing { rt, image, seat };
    through.reserve(1, end)?;
    through.write(w)?;
    Ok(())
}

/// Up to so many pending pieces become visible.
fn show<R: Wait>(
    rt: &R,
    image: &SharedImage,
    seat: &mut WriterSeat,
    session: &mut WriterCore,
    most: u64,
) -> Result<(), ImageError>
    requires { seat.old.image ≡ image.now }
    ensures { seat.new.image ≡ image.now }
{
    for _ in 0..most {
        let Some(w) = session.next() else {
            return Ok(());
        };
        put(rt, image, seat, w, session.end())?;
        session.written();
    }
    Ok(())
}

/// Appends a row of one value.
fn append<R: Wait>(
    rt: &R,
    image: &SharedImage,
    seat: &mut WriterSeat,
    session: &mut WriterCore,
    values: &[i128],
) -> Result<u64, AppendError>
    requires image { seat.old.image ≡ image.now }
    requires rows { AreRows session.old values.now }
    ensures { seat.new.image ≡ seat.old.image }
{
    session.append(values, &mut Writing { rt, image, seat })
}

/// Plans a flush. The answer is the number of pieces.
fn flush<R: Wait>(
    rt: &R,
    image: &SharedImage,
    seat: &mut WriterSeat,
    session: &mut WriterCore,
) -> Result<u64, FlushError>
    requires { seat.old.image ≡ image.now }
    ensures { seat.new.image ≡ seat.old.image }
{
    session.flush(&mut Writing { rt, image, seat })
}

/// Appends a row of one value, and plans its flush. The answer is the number of pieces.
fn plan<R: Wait>(
    rt: &R,
    image: &SharedImage,
    seat: &mut WriterSeat,
    session: &mut WriterCore,
    value: i128,
) -> Option<u64>
    requires { seat.old.image ≡ image.now }
    ensures { seat.new.image ≡ image.now }
{
    if session.columns() != 1 {
        return None;
    }
    append(rt, image, seat, session, &[value]).ok()?;
    flush(rt, image, seat, session).ok()
}

/// A session that created a file in the image and flushed a row.
fn begin<R: Wait>(
    rt: &R,
    alloc: Global,
    image: &SharedImage,
    seat: &mut WriterSeat,
) -> Option<WriterCore>
    requires { seat.old.image ≡ image.now }
    ensures { seat.new.image ≡ image.now }
{
    let options = options(alloc, 1, 65_536).ok()?;
    let mut session = WriterCore::create(alloc, &options).ok()?;
    show(rt, image, seat, &mut session, u64::MAX).ok()?;
    plan(rt, image, seat, &mut session, 1)?;
    show(rt, image, seat, &mut session, u64::MAX).ok()?;
    Some(session)
}

/// The session stops before the last piece of the flush of another row.
fn stop_inside<R: Wait>(
    rt: &R,
    image: &SharedImage,
    seat: &mut WriterSeat,
    session: &mut WriterCore,
) -> Option<()>
    requires { seat.old.image ≡ image.now }
    ensures { seat.new.image ≡ image.now }
{
    let pieces = plan(rt, image, seat, session, 2)?;
    show(rt, image, seat, session, pieces.saturating_sub(1)).ok()?;
    session.stop();
    Some(())
}

/// How many bytes an image has that began with none, by its pieces.
fn size_of(pieces: &Journal) -> u64 {
    let mut size = 0u64;
    for k in 0..pieces.len() {
        if let Some(w) = pieces.get(k) {
            size = size.max(w.at.saturating_add(w.piece.len() as u64));
        }
    }
    size
}

/// Another session takes the image over.
fn take_over<R: Wait>(
    rt: &R,
    alloc: Global,
    image: &SharedImage,
    seat: &mut WriterSeat,
    size: u64,
) -> Result<WriterCore, OpenError>
    requires { seat.old.image ≡ image.now }
    ensures { seat.new.image ≡ image.now }
{
    let mut through = Writing { rt, image, seat };
    let by = Beginning::TakenOver;
    begin_one(alloc, by, &mut through, size, b"data", 1 << 40, 65_536)
}

/// The seat goes to a session that takes the image over and flushes a row. The answer is how many rows it found, and how many it has then.
fn go_on<R: Wait>(
    rt: &R,
    alloc: Global,
    image: &SharedImage,
    mut seat: WriterSeat,
) -> Option<(u64, u64)>
    requires { seat.image ≡ image.now }
{
    let size = size_of(&seat.history(rt, image).ok()?);
    let mut session = take_over(rt, alloc, image, &mut seat, size).ok()?;
    let found = session.rows();
    plan(rt, image, &mut seat, &mut session, 7)?;
    show(rt, image, &mut seat, &mut session, u64::MAX).ok()?;
    Some((found, session.committed()))
}

/// Takes a look through a reader's seat.
fn look<R: Wait>(
    rt: &R,
    image: &SharedImage,
    seat: &mut ReaderSeat,
    at: u64,
    len: usize,
    out: &mut Piece,
) -> Result<(), Failed>
    requires image { seat.old.image ≡ image.now }
    requires piece { len ≤ 512 }
    ensures image { seat.new.image ≡ seat.old.image }
    ensures bound { OnOk result (length out.new ≤ len) }
{
    Reading { rt, image, seat }.look(at, len, out)
}

/// Takes the looks of a reader's call to its answer.
fn answered<R: Wait>(
    rt: &R,
    image: &SharedImage,
    seat: &mut ReaderSeat,
    core: &mut ReaderCore,
) -> Option<Step>
    requires { seat.old.image ≡ image.now }
    ensures { seat.new.image ≡ image.now }
{
    let mut piece = Piece::new();
    for _ in 0..PATIENCE {
        let want = core.want()?;
        if look(rt, image, seat, want.at, want.len, &mut piece).is_err() {
            return None;
        }
        match core.give(&piece) {
            Step::More => {}
            step => return Some(step),
        }
    }
    None
}

/// Whether the first rows that a reader knows have these values.
fn has<R: Wait>(
    rt: &R,
    image: &SharedImage,
    seat: &mut ReaderSeat,
    core: &mut ReaderCore,
    values: &[i128],
) -> bool
    requires { seat.old.image ≡ image.now }
{
    if !matches!(core.read(0, values.len() as u64), Ok(None)) {
        return false;
    }
    match answered(rt, image, seat, core) {
        Some(Step::Values(found)) => found.as_slice() == values,
        _ => false,
    }
}

/// A reader polls until it has the rows of the second session. It answers whether its rows never fell, and have the values.
fn poll_on<R: Wait>(
    rt: &R,
    alloc: Global,
    image: &SharedImage,
    mut seat: ReaderSeat,
    signs: &Signs,
) -> bool
    requires { seat.image ≡ image.now }
{
    let Ok(mut core) = ReaderCore::open(alloc, b"data", 1000) else {
        return false;
    };
    let mut rows = 0;
    for _ in 0..PATIENCE {
        let halted = signs.halted.load(Ordering::SeqCst);
        match answered(rt, image, &mut seat, &mut core) {
            Some(Step::Rows(found)) if rows <= found => rows = found,
            Some(Step::Refused(ReadError::Again { .. })) => {}
            _ => return false,
        }
        if halted {
            signs.polled.store(true, Ordering::SeqCst);
        }
        if rows == 2 {
            return has(rt, image, &mut seat, &mut core, &[1, 7]);
        }
        if core.refresh().is_err() {
            return false;
        }
    }
    false
}

/// The session stops inside a flush. Its seat goes to another one in a thread of its own, while a second reader begins.
fn succeed<R: Threads + Wait + Sync>(
    rt: &R,
    alloc: Global,
    image: &SharedImage,
    mut seat: WriterSeat,
    mut session: WriterCore,
    signs: &Signs,
) -> bool
    requires { seat.image ≡ image.now }
{
    if stop_inside(rt, image, &mut seat, &mut session).is_none() {
        return false;
    }
    signs.halted.store(true, Ordering::SeqCst);
    wait_for(&signs.polled, &signs.late);
    let reader = seat.seat(image);
    let (went, polled) = join(
        rt,
        move || -> bool
            requires { seat.image ≡ image.now }
        { go_on(rt, alloc, image, seat) == Some((1, 2)) },
        move || -> bool
            requires { reader.image ≡ image.now }
        { poll_on(rt, alloc, image, reader, signs) },
    );
    went && polled
}

// Of the flush of the value 2 all pieces but the header's are shown, so that no reader has its row, and the next session does not find it.
#[test]
fn a_seat_goes_to_the_session_that_takes_over(rt: HostRuntime) -> Result<(), Fail> {
    let alloc = rt.alloc();
    let (image, mut seat) = SharedImage::new(alloc, MemImage::new(alloc)?)?;
    let Some(session) = begin(&rt, alloc, &image, &mut seat) else {
        return Err("no session began".into());
    };
    let reader = seat.seat(&image);
    let signs = Signs {
        halted: AtomicBool::new(false),
        polled: AtomicBool::new(false),
        late: AtomicBool::new(false),
    };
    let both = join(
        &rt,
        || -> bool
            requires { reader.image ≡ image }
        { poll_on(&rt, alloc, &image, reader, &signs) },
        || -> bool
            requires { seat.image ≡ image }
        { succeed(&rt, alloc, &image, seat, session, &signs) },
    );
    assert_eq!(rt;
        (both, signs.late.load(Ordering::SeqCst)),
        ((true, true), false)
    );
    Ok(())
}
