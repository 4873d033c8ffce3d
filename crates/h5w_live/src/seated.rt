//! A session's calls through what writes its image.
ghost use Rattle.std.specs.Prelude.{◌≡◌, ◌≢◌, ◌⊎◌, ◌<◌, ◌≤◌, length, IfErr, IfOk, OnErr, OnOk, Ok, Err, Some};
ghost use Rattle.h5w_model.specs.Logs.{Log, and_now, appends, plans};
ghost use Rattle.h5w_writer.specs.Refusals.{IsFullFor, IsSpace, append_refusal, flush_refusal};
ghost use Rattle.h5w_writer.specs.Loads.{NoPlace};
ghost use Rattle.h5w_writer.specs.Past.{IsNew};
ghost use Rattle.h5w_writer.specs.Sessions.{AddsValues, AreRows, TakesRows, rows_of};
ghost use Rattle.h5w_writer.specs.Stands.{Stands};
ghost use Rattle.h5w_writer.specs.Flushes.{SameBut};
ghost use Rattle.h5w_writer.specs.declared.refusal.AppendError.{AppendError};
ghost use Rattle.h5w_writer.specs.declared.refusal.FlushError.{FlushError};
ghost use Rattle.h5w_space.specs.declared.Full.{Full};
ghost use Rattle.h5w_live.specs.Writing.{HasRoom, StaysSeated};

use h5w_pen::{Pen, Penned};
use h5w_shared::SharedImage;
use h5w_writer::{AppendError, FlushError, WriterCore};
use std::sync::Wait;

/// Appends values; what is written of them early is pending then. Failed: the seat was shown the ticket word at 2^63, and counts it.
pub fn append<R: Wait>(
    rt: &R,
    image: &SharedImage,
    seat: &mut Pen,
    session: &mut WriterCore,
    values: &[i128],
) -> Result<u64, AppendError>
    requires image { seat.old.image ≡ image.now }
    requires rows { AreRows session.old values.now }
    ensures added { OnOk result (AddsValues session.old values.now session.new) }
    ensures stands { OnOk result ((log : Log) → Stands session.old log → Stands session.new (and_now (appends values.now) log)) }
    ensures refused { (e : AppendError) → append_refusal session.old values.now ≡ Some e → result ≡ Err e }
    ensures causes { IfErr result (λ e. (append_refusal session.old values.now ≡ Some e) ⊎ (e ≡ AppendError.Failed) ⊎ (e ≡ AppendError.OutOfMemory)) }
    ensures kept { OnErr result (session.new ≡ session.old) }
    ensures seat { StaysSeated seat.old seat.new }
    ensures room { OnOk result (HasRoom session.new seat.new) }
    ensures failed { result ≡ Err AppendError.Failed → 0 < seat.new.faults }
{
    session.append(
        values,
        &mut Penned {
            rt,
            image,
            pen: seat,
        },
    )
}

/// Plans the pieces of the rows that wait. Failed: the seat was shown the ticket word at 2^63, and counts it.
pub fn flush<R: Wait>(
    rt: &R,
    image: &SharedImage,
    seat: &mut Pen,
    session: &mut WriterCore,
) -> Result<u64, FlushError>
    requires image { seat.old.image ≡ image.now }
    ensures flushed { OnOk result (TakesRows session.old session.new) }
    ensures pieces { IfOk result (λ pieces. pieces ≡ length session.new.pending) }
    ensures some { 0 < session.old.waits → IfOk result (λ pieces. 1 ≤ pieces) }
    ensures stands { IfOk result (λ pieces. (log : Log) → Stands session.old log → Stands session.new (and_now (plans pieces) log)) }
    ensures refused { (e : FlushError) → flush_refusal session.old ≡ Some e → result ≡ Err e }
    ensures causes { IfErr result (λ e. (flush_refusal session.old ≡ Some e) ⊎ (IsSpace e ⊎ ((e ≡ FlushError.Deep) ⊎ ((e ≡ FlushError.Failed) ⊎ (e ≡ FlushError.OutOfMemory))))) }
    ensures full { (full : Full) → result ≡ Err (FlushError.Space full) → IsFullFor session.old full }
    ensures bounds { (full : Full) → result ≡ Err (FlushError.Space full) → (log : Log) → Stands session.old log → NoPlace session.old log full }
    ensures shallow { (log : Log) → Stands session.old log → IsNew log → result ≢ Err FlushError.Deep }
    ensures kept { OnErr result (SameBut session.old session.new) }
    ensures left { OnErr result ((log : Log) → Stands session.old log → Stands session.new log) }
    ensures seat { StaysSeated seat.old seat.new }
    ensures room { OnOk result (HasRoom session.new seat.new) }
    ensures failed { result ≡ Err FlushError.Failed → 0 < seat.new.faults }
{
    session.flush(&mut Penned {
        rt,
        image,
        pen: seat,
    })
}
