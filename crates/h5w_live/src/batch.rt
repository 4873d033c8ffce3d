//! A batch of the writer of a run: it is appended and flushed, and its pieces become visible.
ghost use Rattle.std.specs.Prelude.{◌≡◌, ◌≢◌, ◌⊎◌, ℕ, ℤ, List, ◌<◌, ◌≤◌, ◌++◌, ◌∷◌, [], length, IfErr, IfOk, OnErr, OnOk, Err, None};
ghost use Rattle.h5w_model.specs.Agrees.{values_in};
ghost use Rattle.h5w_model.specs.Logs.{Log, and_now, appends, plans};
ghost use Rattle.h5w_model.specs.declared.piece.Write.{Write};
ghost use Rattle.h5w_model.specs.declared.report.FlushLine.{FlushLine};
ghost use Rattle.h5w_creation_laws.specs.CreatedFiles.{CreatedFile};
ghost use Rattle.h5w_writer.specs.Flushes.{SameBut};
ghost use Rattle.h5w_writer.specs.Past.{IsNew};
ghost use Rattle.h5w_writer.specs.Refusals.{IsSpace, append_refusal, flush_refusal};
ghost use Rattle.h5w_writer.specs.Sessions.{AddsValues, AreRows, TakesRows};
ghost use Rattle.h5w_writer.specs.Stands.{Stands};
ghost use Rattle.h5w_live.specs.Writing.{HaltsAppend, HaltsFlush, HasAppended, HasFlushed, HasRoom, Refuses, StaysSeated, Writes, append_halt, batch_refusal, flush_halt};

use crate::seated::{append, flush};
use crate::writing::{Halt, show, show_early};
use h5w_image::Gate;
use h5w_model::FlushLine;
use h5w_pen::Pen;
use h5w_shared::SharedImage;
use h5w_writer::{AppendError, FlushError, WriterCore};
use std::sync::Wait;

/// Why a batch is not appended, by why its values are not.
fn append_halt(error: AppendError) -> Halt
    requires stopped { error ≢ AppendError.Stopped }
    requires busy { (pending : ℕ) → error ≢ AppendError.Busy pending }
    ensures is { result ≡ append_halt error }
    ensures failed { result ≡ Halt.Failed → error ≡ AppendError.Failed }
{
    match error {
        AppendError::OutOfRange { index, value } => Halt::OutOfRange { index, value },
        AppendError::Chunks { chunks, limit } => Halt::Chunks { chunks, limit },
        AppendError::Failed => Halt::Failed,
        AppendError::OutOfMemory => Halt::OutOfMemory,
        AppendError::Stopped => unreachable!(),
        AppendError::Busy { .. } => unreachable!(),
    }
}

/// Why a batch is not flushed, by why the flush of its rows is not planned.
fn flush_halt(error: FlushError) -> Halt
    requires { IsSpace error ⊎ ((error ≡ FlushError.Failed) ⊎ (error ≡ FlushError.OutOfMemory)) }
    ensures is { result ≡ flush_halt error }
    ensures failed { result ≡ Halt.Failed → error ≡ FlushError.Failed }
{
    match error {
        FlushError::Space(full) => Halt::Space(full),
        FlushError::Failed => Halt::Failed,
        FlushError::OutOfMemory => Halt::OutOfMemory,
        _ => unreachable!(),
    }
}

/// Appends a batch behind others that were flushed.
fn take<R: Wait>(
    rt: &R,
    image: &SharedImage,
    seat: &mut Pen,
    session: &mut WriterCore,
    values: &[i128],
) -> Result<(), Halt>
    requires image { seat.old.image ≡ image.now }
    requires rows { AreRows session.old values.now }
    requires some { 1 ≤ length values.now }
    requires flushed { (f : CreatedFile) × (most : ℕ) × (done : List (List ℤ)) × (lines : List FlushLine) × HasFlushed f most done session.old seat.old lines }
    ensures added { OnOk result (AddsValues session.old values.now session.new) }
    ensures stands { OnOk result ((log : Log) → Stands session.old log → Stands session.new (and_now (appends values.now) log)) }
    ensures room { OnOk result (HasRoom session.new seat.new) }
    ensures accepted { OnOk result (append_refusal session.old values.now ≡ None) }
    ensures refused { IfErr result (HaltsAppend session.old values.now) }
    ensures kept { OnErr result (session.new ≡ session.old) }
    ensures seat { StaysSeated seat.old seat.new }
    ensures failed { result ≡ Err Halt.Failed → 0 < seat.new.faults }
{
    match append(rt, image, seat, session, values) {
        Ok(_) => Ok(()),
        Err(error) => Err(append_halt(error)),
    }
}

/// Appends a batch behind others that were flushed, and what is written of it early becomes visible.
fn add<R: Wait>(
    rt: &R,
    image: &SharedImage,
    seat: &mut Pen,
    session: &mut WriterCore,
    values: &[i128],
) -> Result<(), Halt>
    requires image { seat.old.image ≡ image.now }
    requires rows { AreRows session.old values.now }
    requires some { 1 ≤ length values.now }
    requires flushed { (f : CreatedFile) × (most : ℕ) × (done : List (List ℤ)) × (lines : List FlushLine) × HasFlushed f most done session.old seat.old lines }
    ensures added { OnOk result ((early : List Write) × HasAppended values.now early session.old session.new seat.old seat.new) }
    ensures accepted { OnOk result (append_refusal session.old values.now ≡ None) }
    ensures refused { IfErr result (HaltsAppend session.old values.now) }
    ensures left { OnErr result ((f : CreatedFile) → Writes f session.old seat.old → Writes f session.new seat.new) }
    ensures image { seat.new.image ≡ image.now }
    ensures failed { result ≡ Err Halt.Failed → 0 < seat.new.faults }
{
    match take(rt, image, seat, session, values) {
        Ok(()) => {}
        Err(halt) => return Err(halt),
    }
    match show_early(rt, image, seat, session) {
        Ok(()) => Ok(()),
        Err(_) => Err(Halt::Failed),
    }
}

/// Plans the pieces of the rows that wait.
fn plan<R: Wait>(
    rt: &R,
    image: &SharedImage,
    seat: &mut Pen,
    session: &mut WriterCore,
) -> Result<(), Halt>
    requires image { seat.old.image ≡ image.now }
    requires waits { 0 < session.old.waits }
    requires taken { flush_refusal session.old ≡ None }
    requires created { (log : Log) × Stands session.old log × IsNew log }
    ensures flushed { OnOk result (TakesRows session.old session.new) }
    ensures some { OnOk result (1 ≤ length session.new.pending) }
    ensures stands { OnOk result ((log : Log) → Stands session.old log → Stands session.new (and_now (plans (length session.new.pending)) log)) }
    ensures refused { IfErr result (HaltsFlush session.old) }
    ensures kept { OnErr result (SameBut session.old session.new) }
    ensures left { OnErr result ((log : Log) → Stands session.old log → Stands session.new log) }
    ensures seat { StaysSeated seat.old seat.new }
    ensures room { OnOk result (HasRoom session.new seat.new) }
    ensures failed { result ≡ Err Halt.Failed → 0 < seat.new.faults }
{
    match flush(rt, image, seat, session) {
        Ok(_) => Ok(()),
        Err(error) => Err(flush_halt(error)),
    }
}

/// Appends a batch, flushes it, and makes its pieces visible. Its line counts all pieces that are visible then.
pub fn put<R: Wait, G: Gate>(
    rt: &R,
    image: &SharedImage,
    seat: &mut Pen,
    session: &mut WriterCore,
    values: &[i128],
    gate: &G,
    number: u64,
) -> Result<FlushLine, Halt>
    requires image { seat.old.image ≡ image.now }
    requires rows { AreRows session.old values.now }
    requires some { 1 ≤ length values.now }
    requires flushed { (f : CreatedFile) × (most : ℕ) × (done : List (List ℤ)) × (lines : List FlushLine) × HasFlushed f most done session.old seat.old lines }
    ensures image { seat.new.image ≡ image.now }
    ensures flushed { (f : CreatedFile) (most : ℕ) (done : List (List ℤ)) (lines : List FlushLine) → HasFlushed f most done session.old seat.old lines → IfOk result (λ line. HasFlushed f most (done ++ values.now ∷ []) session.new seat.new (lines ++ line ∷ [])) }
    ensures accepted { (f : CreatedFile) (most : ℕ) (done : List (List ℤ)) (lines : List FlushLine) → HasFlushed f most done session.old seat.old lines → OnOk result (batch_refusal f (length (values_in done)) values.now ≡ None) }
    ensures refused { (f : CreatedFile) (most : ℕ) (done : List (List ℤ)) (lines : List FlushLine) → HasFlushed f most done session.old seat.old lines → IfErr result (λ e. Refuses f most done values.now e) }
    ensures left { (f : CreatedFile) (most : ℕ) (done : List (List ℤ)) (lines : List FlushLine) → HasFlushed f most done session.old seat.old lines → OnErr result (Writes f session.new seat.new) }
    ensures failed { result ≡ Err Halt.Failed → 0 < seat.new.faults }
{
    match add(rt, image, seat, session, values) {
        Ok(()) => {}
        Err(halt) => return Err(halt),
    }
    match plan(rt, image, seat, session) {
        Ok(()) => {}
        Err(halt) => return Err(halt),
    }
    match show(rt, image, seat, session, gate, number) {
        Ok(()) => Ok(FlushLine {
            pieces: seat.seen(),
            rows: session.committed(),
        }),
        Err(_) => Err(Halt::Failed),
    }
}
