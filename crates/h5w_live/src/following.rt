//! A second image, which gets the pieces of the first one.
ghost use Rattle.std.specs.Prelude.{◌≡◌, IfOk};
ghost use Rattle.h5w_replica.specs.Batches.{AreShort};
ghost use Rattle.h5w_shared.specs.Turns.{StartsWith};
ghost use Rattle.h5w_live.specs.Seconds.{IsSecondOf};

use crate::report::Loss;
use h5w_image::{Gate, Journal};
use h5w_replica::{Follow, FollowError};
use h5w_shared::{Note, SharedImage};
use std::sync::Wait;
use std::sync::atomic::{AtomicBool, AtomicU64, Ordering};
use std::time::Duration;

/// A second image, and the end of the mirror that writes it.
#[derive(Drop)]
pub struct Second {
    pub image: SharedImage,
    pub follow: Follow,
}

/// The second image gets the pieces of the journal that it lacks; the note is of the journal's list.
pub fn caught_up<R: Wait>(
    rt: &R,
    first: &SharedImage,
    mut second: Second,
    journal: &Journal,
    note: Note,
) -> Result<Second, Loss>
    requires second { IsSecondOf first.now second }
    requires note { note.image ≡ first.now }
    requires list { journal.now.writes ≡ note.seen }
    requires short { AreShort journal.now.writes }
    ensures second { IfOk result (IsSecondOf first.now) }
    ensures image { IfOk result (λ s. s.image ≡ second.image) }
    ensures has { StartsWith journal.now.writes second.follow.second.seen → IfOk result (λ s. s.follow.second.seen ≡ journal.now.writes) }
{
    match second
        .follow
        .catch_up(rt, first, &second.image, journal, note)
    {
        Ok(()) => Ok(second),
        Err(FollowError::OutOfMemory) => Err(Loss::OutOfMemory),
        Err(FollowError::Failed) => match second.follow.worn() {
            Ok(worn) => Err(Loss::Failed(worn)),
            Err(_) => unreachable!(),
        },
        Err(FollowError::Gap { .. }) => unreachable!(),
    }
}

/// So many microseconds at least lie between two looks for a batch. The later one has more pieces for it.
const REST: u64 = 10;

/// The follower sleeps, and its processor is for others.
fn rest<R: Wait>(rt: &R) {
    AtomicU64::new(0).park_timeout(rt, 0, Duration::from_micros(REST));
}

/// Follows the first image until the writer is over and nothing more comes, or a batch begins past the second image. The follower comes to its
/// turn after each batch, by how many pieces the second image has then.
pub fn follow_all<R: Wait, G: Gate>(
    rt: &R,
    first: &SharedImage,
    second: &SharedImage,
    mut follow: Follow,
    over: &AtomicBool,
    actor: u32,
    gate: &G,
) -> Follow
    requires first { follow.seat.image ≡ first.now }
    requires second { follow.second.image ≡ second.now }
    ensures first { result.seat.image ≡ first.now }
    ensures second { result.second.image ≡ second.now }
{
    for _ in rt.forever() {
        let last = over.load(Ordering::SeqCst);
        let taken = match follow.step(rt, first, second) {
            Ok(taken) => taken,
            Err(FollowError::Gap { .. }) => return follow,
            // What is left of the batch is written in a later step, or comes with the journal in the end.
            Err(_) => 0,
        };
        if taken > 0 {
            gate.turn(actor, follow.seen());
        } else if last {
            return follow;
        }
        rest(rt);
    }
    unreachable!()
}
