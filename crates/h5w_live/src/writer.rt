//! The writer of a run: all batches, one behind another, and the close.
ghost use Rattle.std.specs.Prelude.{◌≡◌, ◌<◌, ◌≤◌, ◌+◌, ◌++◌, ◌∷◌, [], ℕ, ℤ, List, length, IfErr, IfOk, OnErr, OnOk, Err, None, Option, Some, slice_index_or};
ghost use Rattle.h5w_model.specs.Agrees.{values_in};
ghost use Rattle.h5w_model.specs.declared.report.FlushLine.{FlushLine};
ghost use Rattle.h5w_creation_laws.specs.CreatedFiles.{CreatedFile};
ghost use Rattle.h5w_writer.specs.Sessions.{AreRows};
ghost use Rattle.h5w_live.specs.declared.writing.Halt.{Halt};
ghost use Rattle.h5w_live.specs.Reports.{before_close};
ghost use Rattle.h5w_live.specs.Writing.{AreBatches, Explains, HasClosed, HasFlushed, Refuses, batch_refusal, first_refused};

use crate::batch::put;
use crate::writing::{Halt, show};
use h5w_image::{Failed, Gate, OpenGate};
use h5w_model::{FlushLine, Values};
use h5w_pen::Pen;
use h5w_shared::SharedImage;
use h5w_writer::WriterCore;
use std::alloc::Global;
use std::sync::Wait;

/// Puts one more batch, of whole rows. An empty one is none to flush, and has no line.
fn put_next<R: Wait, G: Gate>(
    rt: &R,
    image: &SharedImage,
    seat: &mut Pen,
    session: &mut WriterCore,
    values: &[i128],
    gate: &G,
    lines: &mut Vec<FlushLine>,
) -> Result<(), Halt>
    requires image { seat.old.image ≡ image.now }
    requires rows { AreRows session.old values.now }
    requires flushed { (f : CreatedFile) × (most : ℕ) × (done : List (List ℤ)) × HasFlushed f most done session.old seat.old lines.old.items }
    ensures image { seat.new.image ≡ image.now }
    ensures flushed { (f : CreatedFile) (most : ℕ) (done : List (List ℤ)) → HasFlushed f most done session.old seat.old lines.old.items → OnOk result (HasFlushed f most (done ++ values.now ∷ []) session.new seat.new lines.new.items) }
    ensures accepted { (f : CreatedFile) (most : ℕ) (done : List (List ℤ)) → HasFlushed f most done session.old seat.old lines.old.items → OnOk result (batch_refusal f (length (values_in done)) values.now ≡ None) }
    ensures refused { (f : CreatedFile) (most : ℕ) (done : List (List ℤ)) → HasFlushed f most done session.old seat.old lines.old.items → IfErr result (λ e. Refuses f most done values.now e) }
    ensures failed { result ≡ Err Halt.Failed → 0 < seat.new.faults }
{
    if values.is_empty() {
        return Ok(());
    }
    let number = lines.len() as u64 + 1;
    match put(rt, image, seat, session, values, gate, number) {
        Ok(line) => match lines.push(line) {
            Ok(()) => Ok(()),
            Err(_) => Err(Halt::OutOfMemory),
        },
        Err(halt) => Err(halt),
    }
}

/// The values of a batch.
fn batch_at(batches: &[Values], batch: usize) -> &[i128]
    requires { batch < length batches.now }
    ensures { (d : List ℤ) → result.now ≡ slice_index_or batches.now batch d }
{
    batches[batch].as_slice()
}

/// Puts all batches. The error comes with the number of its batch, from 1 on: the first that is refused.
pub fn put_all<R: Wait, G: Gate>(
    rt: &R,
    alloc: Global,
    image: &SharedImage,
    seat: &mut Pen,
    session: &mut WriterCore,
    batches: &[Values],
    gate: &G,
) -> Result<Vec<FlushLine>, (u64, Halt)>
    requires image { seat.old.image ≡ image.now }
    requires rows { AreBatches session.old.dataset.shape.cols batches.now }
    requires created { (f : CreatedFile) × (most : ℕ) × HasFlushed f most [] session.old seat.old [] }
    ensures image { seat.new.image ≡ image.now }
    ensures flushed { (f : CreatedFile) (most : ℕ) → HasFlushed f most [] session.old seat.old [] → IfOk result (λ lines. HasFlushed f most batches.now session.new seat.new lines.items) }
    ensures accepted { (f : CreatedFile) (most : ℕ) → HasFlushed f most [] session.old seat.old [] → OnOk result (first_refused f 0 1 batches.now ≡ None) }
    ensures refused { (f : CreatedFile) (most : ℕ) → HasFlushed f most [] session.old seat.old [] → IfErr result (λ e. Explains f most batches.now e.0 e.1) }
    ensures failed { (batch : ℕ) → result ≡ Err (batch, Halt.Failed) → 0 < seat.new.faults }
{
    let mut lines = Vec::new(alloc);
    for batch in 0..batches.len() {
        let values = batch_at(batches, batch);
        match put_next(rt, image, seat, session, values, gate, &mut lines) {
            Ok(()) => {}
            Err(halt) => return Err((batch as u64 + 1, halt)),
        }
    }
    Ok(lines)
}

/// Closes the session, and its last piece becomes visible.
pub fn close<R: Wait>(
    rt: &R,
    image: &SharedImage,
    seat: &mut Pen,
    session: &mut WriterCore,
) -> Result<(), Failed>
    requires image { seat.old.image ≡ image.now }
    requires flushed { (f : CreatedFile) × (most : ℕ) × (done : List (List ℤ)) × (lines : List FlushLine) × HasFlushed f most done session.old seat.old lines }
    ensures image { seat.new.image ≡ image.now }
    ensures closed { (f : CreatedFile) (most : ℕ) (done : List (List ℤ)) (lines : List FlushLine) → HasFlushed f most done session.old seat.old lines → OnOk result (HasClosed f done session.new seat.new lines) }
    ensures last { OnOk result (before_close seat.new.seen ≡ seat.old.seen) }
    ensures failed { OnErr result (0 < seat.new.faults) }
{
    session.close().unwrap();
    show(rt, image, seat, session, &OpenGate, 0)?;
    Ok(())
}
