//! A mirror whose ends are on one thread.

ghost use Rattle.std.specs.Prelude.{◌≡◌};

use h5w_image::{ImageError, PieceWrite};
use h5w_model::{Piece, Write};
use h5w_replica::{Feed, Feeding, Mirror};
use h5w_shared::SharedImage;
use std::sync::Wait;
use std::test::Fail;

/// Writes three pieces of a byte into the first image.
fn write_three<R: Wait>(rt: &R, first: &SharedImage, feed: &mut Feed) -> Result<(), ImageError>
    requires { feed.old.seat.image ≡ first.now }
    ensures image { feed.new.seat.image ≡ first.now }
    ensures ring { feed.new.ring ≡ feed.old.ring }
{
    let w = Write {
        at: 0,
        piece: Piece::of(&[7]),
    };
    let mut feeding = Feeding { rt, first, feed };
    feeding.reserve(3, 1)?;
    feeding.write(&w)?;
    feeding.write(&w)?;
    feeding.write(&w)?;
    Ok(())
}

/// Writes and sends three pieces, twice: the ring has room for one batch, and gives the other back.
fn overfill<R: Wait>(rt: &R, first: &SharedImage, feed: &mut Feed) -> Result<(), Fail>
    requires { feed.old.seat.image ≡ first.now }
    ensures image { feed.new.seat.image ≡ first.now }
    ensures ring { feed.new.ring ≡ feed.old.ring }
{
    write_three(rt, first, feed)?;
    feed.send(first)?;
    write_three(rt, first, feed)?;
    feed.send(first)?;
    Ok(())
}

/// Takes on one batch, then sends what waits. The answer is the number of pieces.
fn pass<R: Wait>(rt: &R, mirror: &mut Mirror) -> Result<u64, Fail>
    requires feed { mirror.old.feed.seat.image ≡ mirror.old.first }
    requires follow { mirror.old.follow.seat.image ≡ mirror.old.first }
    requires second { mirror.old.follow.second.image ≡ mirror.old.second }
    requires ring { mirror.old.feed.ring ≡ mirror.old.follow.ring }
    ensures feed { mirror.new.feed.seat.image ≡ mirror.new.first }
    ensures follow { mirror.new.follow.seat.image ≡ mirror.new.first }
    ensures second { mirror.new.follow.second.image ≡ mirror.new.second }
    ensures ring { mirror.new.feed.ring ≡ mirror.new.follow.ring }
{
    mirror.follow.beside(&mut mirror.feed);
    let count = mirror.follow.step(rt, &mirror.first, &mirror.second)?;
    mirror.feed.send(&mirror.first)?;
    Ok(count)
}

/// How many pieces each of three steps takes on, once the ring is full.
fn pass_three<R: Wait>(rt: &R, mirror: &mut Mirror) -> Result<(u64, u64, u64), Fail>
    requires feed { mirror.old.feed.seat.image ≡ mirror.old.first }
    requires follow { mirror.old.follow.seat.image ≡ mirror.old.first }
    requires second { mirror.old.follow.second.image ≡ mirror.old.second }
    requires ring { mirror.old.feed.ring ≡ mirror.old.follow.ring }
{
    overfill(rt, &mirror.first, &mut mirror.feed)?;
    let first = pass(rt, mirror)?;
    let second = pass(rt, mirror)?;
    let third = pass(rt, mirror)?;
    Ok((first, second, third))
}

#[test]
fn what_the_ring_gave_back_goes_first(rt: HostRuntime) -> Result<(), Fail> {
    let mut mirror = Mirror::new(rt.alloc(), &[], 1)?;
    let counts = pass_three(&rt, &mut mirror)?;
    assert_eq!(rt;
        (counts, mirror.follow.seen(), mirror.feed.seen()),
        ((3, 3, 0), 6, 6)
    );
    Ok(())
}
