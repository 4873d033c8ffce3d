//! Rows that are appended to one of several datasets of a file: all of them wait for the next flush.
ghost use Rattle.std.specs.Prelude.{◌≡◌, ◌⊎◌, ◌<◌, ◌≤◌, [], IfOk, IfErr, OnErr, OnOk, Ok, Err, Some};
ghost use Rattle.h5w_image.specs.View.{Same};
ghost use Rattle.h5w_image.specs.declared.fault.ImageError.{ImageError};
ghost use Rattle.h5w_model.specs.Causes.{Rose};
ghost use Rattle.h5w_writer.specs.Early.{dirty_of};
ghost use Rattle.h5w_writer.specs.Refusals.{append_refusal};
ghost use Rattle.h5w_writer.specs.Room.{HasRoomFor};
ghost use Rattle.h5w_writer.specs.Sessions.{AreRows, IsSession, rows_of, with_values};
ghost use Rattle.h5w_writer.specs.declared.refusal.AppendError.{AppendError};

use crate::refusal::AppendError;
use crate::state::WriterCore;
use h5w_image::{ImageError, PieceWrite};

impl WriterCore {
    /// Appends values as `append` does, but that no row is written early: where more bytes would wait than the budget has it is refused, as for
    /// want of memory.
    pub fn append_waiting<W: PieceWrite>(
        &mut self,
        values: &[i128],
        image: &mut W,
    ) -> Result<u64, AppendError>
        requires rows { AreRows self.old values.now }
        ensures added { OnOk result (self.new ≡ with_values self.old values.now) }
        ensures is { OnOk result (IsSession self.new) }
        ensures within { OnOk result (dirty_of self.new ≤ self.new.budget) }
        ensures rows { IfOk result (λ rows. rows ≡ rows_of self.new) }
        ensures refused { (e : AppendError) → append_refusal self.old values.now ≡ Some e → result ≡ Err e }
        ensures causes { IfErr result (λ e. (append_refusal self.old values.now ≡ Some e) ⊎ (e ≡ AppendError.Failed) ⊎ (e ≡ AppendError.OutOfMemory)) }
        ensures fault { result ≡ Err AppendError.Failed → Rose (W.view image.old).faults (W.view image.new).faults }
        ensures kept { OnErr result (self.new ≡ self.old) }
        ensures image { Same (W.view image.old) (W.view image.new) }
        ensures room { OnOk result (HasRoomFor self.new (W.view image.new)) }
    {
        self.check(values)?;
        let rows = values.len() as u64 / self.grid.shape.cols;
        let bytes = self.backlog.waiting.len();
        self.backlog.waiting.put(values, &self.grid.int_type)?;
        self.backlog.waits += rows;
        match self.stay_within(image) {
            Ok(()) => Ok(self.rows()),
            Err(e) => {
                self.backlog.waiting.truncate(bytes);
                self.backlog.waits -= rows;
                Err(AppendError::from(e))
            }
        }
    }

    /// Reserves room for a piece, up to the file's end, where no more bytes wait than the budget has.
    fn stay_within<W: PieceWrite>(&self, image: &mut W) -> Result<(), ImageError>
        requires idle { self.now.pending ≡ [] }
        ensures is { IsSession self.now }
        ensures within { OnOk result (dirty_of self.now ≤ self.now.budget) }
        ensures fault { result ≡ Err ImageError.Failed → Rose (W.view image.old).faults (W.view image.new).faults }
        ensures image { Same (W.view image.old) (W.view image.new) }
        ensures room { OnOk result (HasRoomFor self.now (W.view image.new)) }
    {
        let _ = &self.places;
        if self.early_row().is_some() {
            return Err(ImageError::OutOfMemory);
        }
        image.reserve(1, self.places.end())
    }
}
