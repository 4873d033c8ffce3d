ghost use Rattle.std.specs.Prelude.{◌≡◌, ◌≤◌, ◌^◌, [], IfOk};
ghost use Rattle.h5w_shared.specs.Seats.{first_seat};

use crate::seats::WriterSeat;
use crate::table::{Board, Shelf};
use h5w_image::MemImage;
use h5w_model::OutOfMemory;
use std::alloc::Global;
use std::marker::Model;
use std::snapshot::Snapshot;

/// An image that one writer and any number of readers share, each in whatever thread it is.
#[derive(Drop)]
pub struct SharedImage {
    pub(crate) alloc: Global,
    board: Board,
}

impl Model for SharedImage {
    ghost use Rattle.std.specs.Prelude.{◌≡◌};
    ghost use Rattle.h5w_shared.specs.Seats.{ImageId};

    ghost Value = { ImageId };

    ghost view = { λ i. record { table = i.board.shared.table_id; start = i.board.shared.key.value.start } };

    ghost invariant = { λ i. (i.board.shared.table_id.words ≡ 2) × (i.board.shared.table_id.slots ≡ 1) };
}

impl SharedImage {
    /// Shares an image whose journal and list of calls that are to fail are empty, and gives the writer's seat. The
    /// image is moved, and its room stays.
    pub fn new(alloc: Global, image: MemImage) -> Result<(SharedImage, WriterSeat), OutOfMemory>
        requires journal { image.history ≡ [] }
        requires failing { image.failing ≡ [] }
        ensures start { IfOk result (λ r. r.0.start ≡ image.bytes) }
        ensures seat { IfOk result (λ r. r.1 ≡ first_seat r.0 image.pieces image.end) }
    {
        SharedImage::at_ticket(alloc, image, 0)
    }

    /// The same, where this is the ticket that is drawn and served next, as if so many turns had been taken before. It
    /// is for tests of the limit: at 2^63 no seat is given a turn.
    pub fn at_ticket(
        alloc: Global,
        image: MemImage,
        ticket: u64,
    ) -> Result<(SharedImage, WriterSeat), OutOfMemory>
        requires journal { image.history ≡ [] }
        requires failing { image.failing ≡ [] }
        requires ticket { ticket ≤ 2 ^ 63 }
        ensures start { IfOk result (λ r. r.0.start ≡ image.bytes) }
        ensures seat { IfOk result (λ r. r.1 ≡ first_seat r.0 image.pieces image.end) }
    {
        let _len = image.len();
        let about = Snapshot::of(&image);
        let mut slots = Vec::new(alloc);
        slots.push(Some(image))?;
        let Ok((board, seat)) = Board::new(alloc, &[ticket, ticket], slots, &about) else {
            return Err(OutOfMemory);
        };
        let shared = SharedImage { alloc, board };
        Ok((shared, WriterSeat::first(seat)))
    }

    /// The steps of the table.
    pub(crate) fn shelf(&self) -> &Shelf
        ensures table { result.now.table_id ≡ self.now.table }
        ensures words { result.now.table_id.words ≡ 2 }
        ensures slots { result.now.table_id.slots ≡ 1 }
    {
        &self.board.shared
    }
}
