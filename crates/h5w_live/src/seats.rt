//! The seats of the readers of a run.
ghost use Rattle.std.specs.Prelude.{◌≡◌, ◌≤◌, All, List, vec_len, IfNone, IfOk, IfSome};
ghost use Rattle.h5w_model.specs.declared.piece.Write.{Write};
ghost use Rattle.h5w_shared.specs.Seats.{ImageId, SeatView};
ghost use Rattle.h5w_live.specs.Seconds.{IsSecondOf, IsWatched, watchers};

use crate::following::Second;
use crate::readers::Readers;
use crate::release::release_second;
use h5w_model::OutOfMemory;
use h5w_pen::Pen;
use h5w_replica::Follow;
use h5w_shared::{ReaderSeat, SharedImage};
use std::alloc::Global;

/// A second image, and a seat for each of its readers.
#[derive(Drop)]
pub struct Watched {
    pub second: Second,
    pub seats: Vec<ReaderSeat>,
}

/// A seat for each reader, which knows what the writer's seat knows.
fn first_seats(
    alloc: Global,
    image: &SharedImage,
    seat: &mut Pen,
    readers: u32,
) -> Result<Vec<ReaderSeat>, OutOfMemory>
    requires image { seat.old.image ≡ image.now }
    ensures same { seat.new ≡ seat.old }
    ensures count { IfOk result (λ seats. vec_len seats ≡ readers) }
    ensures images { IfOk result (λ seats. All (λ (s : SeatView). s.image ≡ image.now) seats.items) }
    ensures seen { IfOk result (λ seats. All (λ (s : SeatView). s.seen ≡ seat.old.seen) seats.items) }
{
    let mut seats = Vec::new(alloc);
    for _ in 0..readers {
        seats.push(seat.seat(image))?;
    }
    Ok(seats)
}

/// A seat at the second image for each of its readers, which knows all its pieces.
fn other_seats(
    alloc: Global,
    image: &SharedImage,
    follow: &mut Follow,
    mirrors: u32,
) -> Result<Vec<ReaderSeat>, OutOfMemory>
    requires image { follow.old.second.image ≡ image.now }
    ensures same { follow.new ≡ follow.old }
    ensures count { IfOk result (λ seats. vec_len seats ≡ mirrors) }
    ensures images { IfOk result (λ seats. All (λ (s : SeatView). s.image ≡ image.now) seats.items) }
    ensures seen { IfOk result (λ seats. All (λ (s : SeatView). s.seen ≡ follow.old.second.seen) seats.items) }
{
    let mut seats = Vec::new(alloc);
    for _ in 0..mirrors {
        seats.push(follow.reader(image))?;
    }
    Ok(seats)
}

/// A seat for each reader of a second image, if there is one.
fn second_seated(
    alloc: Global,
    second: Option<Second>,
    mirrors: u32,
) -> Result<Option<Watched>, OutOfMemory>
    requires second { (i : ImageId) × IfSome second (IsSecondOf i) }
    requires none { IfNone second (mirrors ≡ 0) }
    requires few { mirrors ≤ 16 }
    ensures watched { (i : ImageId) → IfSome second (IsSecondOf i) → IfOk result (λ r. IfSome r (IsWatched i)) }
    ensures count { IfOk result (λ r. watchers r ≡ mirrors) }
    ensures seen { (seen : List Write) → IfSome second (λ s. s.follow.second.seen ≡ seen) → IfOk result (λ r. IfSome r (λ w. All (λ (s : SeatView). s.seen ≡ seen) w.seats.items)) }
{
    let Some(Second { image, mut follow }) = second else {
        return Ok(None);
    };
    let made = other_seats(alloc, &image, &mut follow, mirrors);
    let second = Second { image, follow };
    match made {
        Ok(seats) => Ok(Some(Watched { second, seats })),
        Err(error) => {
            release_second(Some(second));
            Err(error)
        }
    }
}

/// A seat for each reader of the first image, and, if there is a second one, that with a seat for each of its readers.
pub fn seats(
    alloc: Global,
    image: &SharedImage,
    seat: &mut Pen,
    second: Option<Second>,
    readers: Readers,
) -> Result<(Vec<ReaderSeat>, Option<Watched>), OutOfMemory>
    requires image { seat.old.image ≡ image.now }
    requires second { IfSome second (IsSecondOf image.now) }
    requires none { IfNone second (readers.mirrors ≡ 0) }
    requires mirrors { readers.mirrors ≤ 16 }
    ensures same { seat.new ≡ seat.old }
    ensures count { IfOk result (λ r. vec_len r.0 ≡ readers.count) }
    ensures images { IfOk result (λ r. All (λ (s : SeatView). s.image ≡ image.now) r.0.items) }
    ensures seen { IfOk result (λ r. All (λ (s : SeatView). s.seen ≡ seat.old.seen) r.0.items) }
    ensures watched { IfOk result (λ r. IfSome r.1 (IsWatched image.now)) }
    ensures watchers { IfOk result (λ r. watchers r.1 ≡ readers.mirrors) }
    ensures others { (seen : List Write) → IfSome second (λ s. s.follow.second.seen ≡ seen) → IfOk result (λ r. IfSome r.1 (λ w. All (λ (s : SeatView). s.seen ≡ seen) w.seats.items)) }
{
    let seats = match first_seats(alloc, image, seat, readers.count) {
        Ok(seats) => seats,
        Err(error) => {
            release_second(second);
            return Err(error);
        }
    };
    match second_seated(alloc, second, readers.mirrors) {
        Ok(watched) => Ok((seats, watched)),
        Err(error) => Err(error),
    }
}
