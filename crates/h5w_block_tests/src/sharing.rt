//! An image that threads share.

ghost use Rattle.std.specs.Prelude.{◌≡◌, ◌≤◌, ◌<◌, length};
ghost use Rattle.std.specs.Thread.{IsSync};

use h5w_image::{Failed, ImageError, MemImage, PieceRead, PieceWrite};
use h5w_model::{Piece, Write};
use h5w_shared::{ReaderSeat, Reading, SharedImage, WriterSeat, Writing};
use std::sync::Wait;
use std::test::Fail;
use std::thread::{Threads, join};

/// Writes a number at the beginning, with room for it.
fn put<R: Wait>(
    rt: &R,
    image: &SharedImage,
    seat: &mut WriterSeat,
    number: u64,
) -> Result<(), ImageError>
    requires { seat.old.image ≡ image.now }
    ensures { seat.new.image ≡ seat.old.image }
{
    let w = Write {
        at: 0,
        piece: Piece::of(&number.to_le_bytes()),
    };
    let mut through = Writing { rt, image, seat };
    through.reserve(1, 8)?;
    through.write(&w)?;
    Ok(())
}

/// The number at the beginning, 0 where there is none yet.
fn shown<R: Wait>(rt: &R, image: &SharedImage, seat: &mut ReaderSeat) -> Result<u64, Failed>
    requires { seat.old.image ≡ image.now }
    ensures { seat.new.image ≡ seat.old.image }
{
    let mut out = Piece::new();
    Reading { rt, image, seat }.look(0, 8, &mut out)?;
    Ok(
        out.as_slice().iter().rev().fold(
            0u64,
            |n, b| n.wrapping_mul(256).wrapping_add(u64::from(*b)),
        ),
    )
}

#[test]
fn a_seat_that_was_shown_the_last_ticket_fails(rt: HostRuntime) -> Result<(), Fail> {
    let store = MemImage::of(rt.alloc(), &[1])?;
    let (image, mut writer) = SharedImage::at_ticket(rt.alloc(), store, 1 << 63)?;
    let mut reader = writer.seat(&image);
    let answers = (
        shown(&rt, &image, &mut reader).is_err(),
        put(&rt, &image, &mut writer, 7).is_err(),
    );
    assert_eq!(rt;
        (answers, reader.worn().is_ok(), writer.worn().is_ok()),
        ((true, true), true, true)
    );
    Ok(())
}

/// Writes the numbers up to this one, a piece each.
fn count_up<R: Wait>(
    rt: &R,
    image: &SharedImage,
    writer: &mut WriterSeat,
    pieces: u64,
) -> Result<(), ImageError>
    requires { writer.old.image ≡ image.now }
{
    for k in 0..pieces {
        put(rt, image, writer, k + 1)?;
    }
    Ok(())
}

/// Takes so many looks. Each shows the number of pieces that the seat has seen then.
fn each_is_right<R: Wait>(rt: &R, image: &SharedImage, mut reader: ReaderSeat, looks: u64) -> bool
    requires { reader.image ≡ image.now }
{
    for _ in 0..looks {
        if shown(rt, image, &mut reader) != Ok(reader.seen()) {
            return false;
        }
    }
    true
}

/// A writer of so many pieces, and so many readers at once, each with so many looks.
fn crowd<R: Threads + Wait + Sync>(
    rt: &R,
    image: &SharedImage,
    writer: &mut WriterSeat,
    readers: u64,
    pieces: u64,
    looks: u64,
) -> bool
    requires { writer.old.image ≡ image.now }
{
    if readers == 0 {
        return count_up(rt, image, writer, pieces).is_ok();
    }
    let reader = writer.seat(image);
    let (right, others) = join(
        rt,
        move || -> bool
            requires { reader.image ≡ image.now }
        { each_is_right(rt, image, reader, looks) },
        || -> bool
            requires { IsSync R.row × (writer.now.image ≡ image.now) × (0 < readers) }
        { crowd(rt, image, writer, readers - 1, pieces, looks) },
    );
    right && others
}

#[test]
fn sixteen_readers_see_only_beginnings(rt: HostRuntime) -> Result<(), Fail> {
    let (image, mut writer) = SharedImage::new(rt.alloc(), MemImage::new(rt.alloc())?)?;
    assert!(rt; crowd(&rt, &image, &mut writer, 16, 10_000, 100));
    Ok(())
}
