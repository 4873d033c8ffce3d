ghost use Rattle.std.specs.Prelude.{◌≡◌, ◌≤◌, [], IfOk, None};
ghost use Rattle.h5w_shared.specs.Seats.{first_seat, reader_of};
ghost use Rattle.h5w_replica.specs.Feeds.{IsFed};
ghost use Rattle.h5w_replica.specs.Mirrors.{Mirrored};

use crate::batch::{Batch, InOrder, Portion};
use crate::feed::Feed;
use crate::follow::Follow;
use crate::pieces::Pieces;
use h5w_image::MemImage;
use h5w_model::OutOfMemory;
use h5w_shared::{ReaderSeat, SharedImage};
use rtrb::RingBuffer;
use std::alloc::Global;

/// Two shared images, of which the second follows the first, and the ends that write them.
#[derive(Drop)]
pub struct Mirror {
    pub first: SharedImage,
    pub second: SharedImage,
    pub feed: Feed,
    pub follow: Follow,
}

impl Mirror {
    /// Two images of these bytes, and between their ends a ring with room for so many batches.
    pub fn new(alloc: Global, start: &[u8], ring: usize) -> Result<Mirror, OutOfMemory>
        requires some { 1 ≤ ring }
        requires few { ring ≤ 65536 }
        ensures starts { IfOk result (λ m. (m.first.start ≡ start.now) × (m.second.start ≡ start.now)) }
        ensures feed { IfOk result (λ m. (m.feed.seat ≡ first_seat m.first 0 0) × (m.feed.took ≡ []) × (m.feed.back ≡ None) × (m.feed.unsent ≡ []) × (m.feed.room ≡ 0)) }
        ensures follow { IfOk result (λ m. (m.follow.seat ≡ reader_of m.feed.seat) × (m.follow.second ≡ first_seat m.second 0 0) × (m.follow.got ≡ []) × (m.follow.kept ≡ None)) }
        ensures free { IfOk result (λ m. m.feed.free ≡ ring) }
        ensures ring { IfOk result (λ m. m.feed.ring ≡ m.follow.ring) }
        ensures fed { IfOk result (λ m. IsFed m.feed) }
        ensures mirrored { IfOk result (λ m. Mirrored m.follow.seat.seen m.follow.second.seen) }
    {
        let (first, mut writer) = SharedImage::new(alloc, MemImage::of(alloc, start)?)?;
        let (second, other) = SharedImage::new(alloc, MemImage::of(alloc, start)?)?;
        let seat = writer.seat(&first);
        let note = writer.note(&first);
        let Ok((mut producer, mut consumer)) = RingBuffer::with_protocol::<Global, InOrder>(
            alloc, ring,
        ) else {
            return Err(OutOfMemory);
        };
        // The first item is no batch: its note names the image to the other end.
        producer.push_reserved(Batch {
            portion: Portion {
                first: 0,
                pieces: Pieces::new(alloc),
            },
            note,
        });
        let Ok((used, spares)) = RingBuffer::new(alloc, ring) else {
            return Err(OutOfMemory);
        };
        consumer.slots_beside(&mut producer);
        let _greeting = consumer.pop_known();
        producer.slots_beside(&mut consumer);
        Ok(Mirror {
            first,
            second,
            feed: Feed::of(alloc, writer, producer, spares),
            follow: Follow::of(seat, other, consumer, used),
        })
    }

    /// A reader's seat on the second image. Waits for nobody.
    pub fn reader(&mut self) -> ReaderSeat
        requires { self.old.follow.second.image ≡ self.old.second }
        ensures same { self.new ≡ self.old }
        ensures seat { result ≡ reader_of self.old.follow.second }
    {
        self.follow.reader(&self.second)
    }
}
