//! An opened file of which an allocation is refused: tests/memory refuses one after another, and it is then opened once more.

use crate::files::{FILE, GRID};
use crate::packed::unpacked;
use h5w_image::MemImage;
use h5w_opening::OpenError;
use h5w_writer::WriterCore;
use h5w_writer_open::open;
use std::alloc::{AllocError, Global};
use std::test::Fail;

/// An allocation by which tests/memory knows that the call under trial begins behind it, or has ended.
fn mark(alloc: Global) -> Result<(), AllocError> {
    let mut room = Vec::with_capacity(alloc, 77_771)?;
    room.push(1u8)?;
    Ok(())
}

/// What a session tells of itself.
fn told(core: &WriterCore) -> (u64, u64, u64) {
    (core.rows(), core.committed(), core.pending())
}

/// What the session over an image tells of itself, and None where memory is refused.
fn opened(alloc: Global, image: &mut MemImage) -> Result<Option<(u64, u64, u64)>, OpenError> {
    let size = image.len();
    match open(alloc, image, size, b"data", 1 << 20, 1 << 16) {
        Ok(core) => Ok(Some(told(&core))),
        Err(OpenError::OutOfMemory) => Ok(None),
        Err(error) => Err(error),
    }
}

/// The same over a file of these bytes, which is opened once more where memory is refused.
fn opened_twice(alloc: Global, packed: &[u8]) -> Result<Option<(u64, u64, u64)>, Fail> {
    let bytes = unpacked(alloc, packed)?;
    let mut image = MemImage::of(alloc, &bytes)?;
    mark(alloc)?;
    let first = opened(alloc, &mut image);
    mark(alloc)?;
    match first? {
        None => Ok(opened(alloc, &mut image)?),
        some => Ok(some),
    }
}

#[test]
fn a_refused_open_gives_no_session(rt: HostRuntime) -> Result<(), Fail> {
    assert_eq!(rt; opened_twice(rt.alloc(), &FILE)?, Some((3, 3, 1)));
    assert_eq!(rt; opened_twice(rt.alloc(), &GRID)?, Some((2, 2, 1)));
    Ok(())
}
