use crate::pieces::Pieces;
use h5w_shared::Note;
use rtrb::Protocol;
use std::marker::Model;

/// Pieces, one behind another, and how many others stand before them in their list.
#[derive(Drop)]
pub struct Portion {
    pub(crate) first: u64,
    pub(crate) pieces: Pieces,
}

impl Model for Portion {
    ghost use Rattle.h5w_replica.specs.Batches.{AreShort, PortionView};

    ghost Value = { PortionView };

    ghost view = { λ p. record { first = p.first; pieces = p.pieces.writes } };

    ghost invariant = { λ p. AreShort p.pieces.writes };
}

/// A portion of the writer's list, and a note of what the writer's seat had seen then.
#[derive(Drop)]
pub struct Batch {
    pub(crate) portion: Portion,
    pub(crate) note: Note,
}

impl Model for Batch {
    ghost use Rattle.h5w_replica.specs.Batches.{BatchView, IsPartOf};

    ghost Value = { BatchView };

    ghost view = { λ b. record { portion = b.portion; note = b.note } };

    ghost invariant = { λ b. IsPartOf b.note.seen b.portion };
}

/// Each batch is of one image, and its pieces stand behind those of the batches before it.
pub struct InOrder;

impl Protocol<Batch> for InOrder {
    ghost use Rattle.h5w_replica.specs.Batches.{Follows};

    ghost allows = { Follows };
}
