//! The writer of a run: each batch is appended and flushed, and its pieces become visible one by one.
ghost use Rattle.std.specs.Prelude.{◌≡◌, ◌≢◌, ◌⊎◌, ℕ, ℤ, List, ◌<◌, ◌≤◌, ◌+◌, ◌++◌, ◌∷◌, [], length, true, false, IfErr, IfOk, OnErr, OnOk, Ok, Err, Some, None};
ghost use Rattle.h5w_model.specs.Agrees.{values_in};
ghost use Rattle.h5w_model.specs.Logs.{Log, and_now, appends};
ghost use Rattle.h5w_model.specs.declared.report.FlushLine.{FlushLine};
ghost use Rattle.h5w_creation_laws.specs.CreatedFiles.{CreatedFile};
ghost use Rattle.h5w_writer.specs.Sessions.{AfterPiece};
ghost use Rattle.h5w_writer.specs.Stands.{Stands};
ghost use Rattle.h5w_writer.specs.declared.refusal.AppendError.TheVariants as appending;
ghost use Rattle.h5w_live.specs.Writing.{HasFlushed, HasPlaces, HasRoom, HasWritten, Writes, batch_refusal};
ghost use Rattle.h5w_reader_laws.specs.Showing.{showing};

use h5w_image::{Failed, Gate, OpenGate};
use h5w_pen::Pen;
use h5w_shared::SharedImage;
use h5w_writer::{Full, WriterCore};
use std::sync::Wait;

/// Why a batch was not flushed.
#[derive(Clone, Copy)]
pub enum Halt {
    /// The first value outside the type, by its index in the batch.
    OutOfRange { index: u64, value: i128 },
    /// More chunks than the dataset's index has.
    Chunks { chunks: u64, limit: u64 },
    /// The file has no place.
    Space(Full),
    /// The seat was shown the ticket word at 2^63, and counts it.
    Failed,
    OutOfMemory,
}

/// All pending pieces become visible, one after another; where a second image follows, they are offered to it then. Before the last of them the
/// writer comes to its turn of this number. Where the seat fails, the session is stopped.
pub fn show<R: Wait, G: Gate>(
    rt: &R,
    image: &SharedImage,
    seat: &mut Pen,
    session: &mut WriterCore,
    gate: &G,
    number: u64,
) -> Result<(), Failed>
    requires image { seat.old.image ≡ image.now }
    requires some { 0 < length session.old.pending }
    requires room { HasPlaces session.old seat.old }
    ensures session { OnOk result (AfterPiece session.old [] session.new) }
    ensures stands { OnOk result ((log : Log) → Stands session.old log → Stands session.new (record log { events = showing session.old.pending log.events })) }
    ensures seat { OnOk result (HasWritten session.old.pending seat.old seat.new) }
    ensures left { OnErr result ((f : CreatedFile) → Writes f session.old seat.old → Writes f session.new seat.new) }
    ensures stopped { OnErr result ((session.new.stopped ≡ true) × (session.new.pending ≡ [])) }
    ensures failed { OnErr result (0 < seat.new.faults) }
    ensures image { seat.new.image ≡ image.now }
{
    while let Some(w) = session.next() {
        if session.pending() == 1 {
            gate.turn(0, number);
        }
        match seat.write(rt, image, w) {
            Ok(()) => session.written(),
            Err(failed) => {
                session.failed();
                return Err(failed);
            }
        }
    }
    seat.offer(image);
    Ok(())
}

/// What is pending of rows that were written early becomes visible, one piece after another. The writer comes to no turn. Where the seat
/// fails, the session is stopped.
pub fn show_early<R: Wait>(
    rt: &R,
    image: &SharedImage,
    seat: &mut Pen,
    session: &mut WriterCore,
) -> Result<(), Failed>
    requires image { seat.old.image ≡ image.now }
    requires early { session.old.flushing ≡ false }
    requires room { HasPlaces session.old seat.old }
    ensures session { OnOk result (session.new ≡ record session.old { pending = [] }) }
    ensures stands { OnOk result ((log : Log) → Stands session.old log → Stands session.new (record log { events = showing session.old.pending log.events })) }
    ensures seat { OnOk result (HasWritten session.old.pending seat.old seat.new) }
    ensures left { OnErr result ((f : CreatedFile) → Writes f session.old seat.old → Writes f session.new seat.new) }
    ensures failed { OnErr result (0 < seat.new.faults) }
    ensures image { seat.new.image ≡ image.now }
{
    if session.pending() == 0 {
        return Ok(());
    }
    show(rt, image, seat, session, &OpenGate, 0)
}
