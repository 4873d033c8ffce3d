//! Rows are appended to one of the datasets.
ghost use Rattle.std.specs.Prelude.{◌≡◌, ◌⊎◌, ◌<◌, ◌≤◌, Some, Err, IfErr, IfOk, OnErr, OnOk, length, slice_get};
ghost use Rattle.h5w_image.specs.View.{Same};
ghost use Rattle.h5w_model.specs.Causes.{Rose};
ghost use Rattle.h5w_model.specs.Several.{FileLog, appends_to};
ghost use Rattle.h5w_writer.specs.Early.{dirty_of};
ghost use Rattle.h5w_writer.specs.Sessions.{AreRows, Session, rows_of};
ghost use Rattle.h5w_writer.specs.declared.refusal.AppendError.{AppendError};
ghost use Rattle.h5w_several_writer.specs.Refusals.{HasRoomForAll, append_refusal_in};
ghost use Rattle.h5w_several_writer_laws.specs.Sessions.{AppendsTo, AreSessions};
ghost use Rattle.h5w_several_writer_laws.specs.Standing.{StandsAll, and_then};

use crate::several::SeveralWriter;
use h5w_image::PieceWrite;
use h5w_writer::AppendError;

impl SeveralWriter {
    /// Appends values to dataset `d`, counted from 0, rows one after another, whose cells wait for the next flush.
    /// Answers how many rows it has then in all. Where more bytes of a dataset would wait than the budget has it is
    /// refused, as for want of memory, and after an Ok no more do. Room is reserved in the image for one piece, up to the file's end.
    pub fn append<W: PieceWrite>(
        &mut self,
        d: usize,
        values: &[i128],
        image: &mut W,
    ) -> Result<u64, AppendError>
        requires inside { d < length self.old.parts }
        requires rows { (s : Session) → slice_get self.old.parts d ≡ Some s → AreRows s values.now }
        ensures added { OnOk result (AppendsTo d values.now self.old self.new) }
        ensures rows { IfOk result (λ rows. (s : Session) → slice_get self.new.parts d ≡ Some s → rows ≡ rows_of s) }
        ensures within { OnOk result ((s : Session) → slice_get self.new.parts d ≡ Some s → dirty_of s ≤ s.budget) }
        ensures stands { OnOk result ((log : FileLog) → StandsAll self.old log → StandsAll self.new (and_then (appends_to d values.now) log)) }
        ensures refused { (s : Session) (e : AppendError) → slice_get self.old.parts d ≡ Some s → append_refusal_in self.old s values.now ≡ Some e → result ≡ Err e }
        ensures causes { (s : Session) → slice_get self.old.parts d ≡ Some s
            → IfErr result (λ e. (append_refusal_in self.old s values.now ≡ Some e) ⊎ (e ≡ AppendError.Failed) ⊎ (e ≡ AppendError.OutOfMemory)) }
        ensures fault { result ≡ Err AppendError.Failed → Rose (W.view image.old).faults (W.view image.new).faults }
        ensures kept { OnErr result (self.new ≡ self.old) }
        ensures sessions { AreSessions self.new }
        ensures image { Same (W.view image.old) (W.view image.new) }
        ensures room { OnOk result (HasRoomForAll self.new (W.view image.new)) }
    {
        if self.stopped {
            return Err(AppendError::Stopped);
        }
        let pending = self.pending();
        if pending > 0 {
            return Err(AppendError::Busy { pending });
        }
        self.parts[d].append_waiting(values, image)
    }
}
