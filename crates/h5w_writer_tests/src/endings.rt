//! An image that fails.

use h5w_image::{MemImage, PieceWrite};
use h5w_options::{IntType, Options};
use h5w_writer::{AppendError, Bytes, FlushError, WriterCore};
use std::alloc::Global;
use std::process::Abort;
use std::test::Fail;

/// A session that creates a file of 4-byte integers in chunks of two rows.
fn new(alloc: Global) -> Result<WriterCore, Fail> {
    let options = Options {
        name: Bytes::from_vec(Vec::from_slice(alloc, b"data")?),
        int_type: IntType {
            size: 4,
            big: false,
            signed: true,
        },
        chunk_rows: 2,
        columns: None,
        fixed: false,
        fill: None,
        limit: 1 << 40,
        budget: 1 << 16,
    };
    Ok(WriterCore::create(alloc, &options)?)
}

/// Makes all pending pieces visible.
fn show_all(core: &mut WriterCore, image: &mut MemImage) -> Result<(), Fail> {
    for _ in 0..core.pending() {
        if let Some(w) = core.next() {
            image.reserve(1, core.end())?;
            image.write(w)?;
            core.written();
        }
    }
    Ok(())
}

/// Appends values to a dataset, which has one column.
fn append(
    rt: &impl Abort,
    core: &mut WriterCore,
    image: &mut MemImage,
    values: &[i128],
) -> Result<u64, AppendError> {
    if core.columns() != 1 {
        panic!(rt; "more columns than one");
    }
    core.append(values, image)
}

/// Shows the new file, then appends and flushes, each twice: the image fails the first time.
fn check_twice(rt: &impl Abort, core: &mut WriterCore, image: &mut MemImage) -> Result<(), Fail> {
    show_all(core, image)?;
    assert_eq!(rt; append(rt, core, image, &[1, 2]), Err(AppendError::Failed));
    assert_eq!(rt; append(rt, core, image, &[1, 2]), Ok(2));
    assert_eq!(rt; core.flush(image), Err(FlushError::Failed));
    assert_eq!(rt; core.flush(image), Ok(5));
    Ok(())
}

#[test]
fn an_image_that_fails_changes_nothing(rt: HostRuntime) -> Result<(), Fail> {
    // each of a new file's five pieces is two calls, then come those of two appends and of two flushes
    let mut image = MemImage::with_faults(rt.alloc(), &[], &[11, 13])?;
    let mut core = new(rt.alloc())?;
    check_twice(&rt, &mut core, &mut image)
}
