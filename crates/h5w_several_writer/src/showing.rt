//! The pieces of a session of several datasets become visible, one after another.
ghost use Rattle.std.specs.Prelude.{◌≡◌, ◌≢◌, ◌⊎◌, ◌+◌, ◌<◌, ◌≤◌, ◌^◌, [], ◌∷◌, List, true, false, IfSome, IsFalse, IsTrue, length, slice_get};
ghost use Rattle.std.specs.Option.{option_copied};
ghost use Rattle.h5w_model.specs.declared.piece.Write.{Write};
ghost use Rattle.h5w_model.specs.Several.{FileLog, shows_all};
ghost use Rattle.h5w_writer.specs.Sessions.{Freed};
ghost use Rattle.h5w_several_writer.specs.Flows.{KeepsParts};
ghost use Rattle.h5w_several_writer_laws.specs.Sessions.{AfterPieceOf, AreFlushing, AreParts, AreSessions, AreShown, Sessions, all_pending};
ghost use Rattle.h5w_several_writer_laws.specs.Standing.{StandsAll, and_then};

use crate::several::SeveralWriter;
use h5w_model::Write;
use h5w_space::Places;
use h5w_writer::WriterCore;

/// How many pieces of these datasets are pending.
pub(crate) fn pending_in(parts: &[WriterCore]) -> u64
    requires { length (all_pending parts.now) < 2 ^ 64 }
    ensures { result ≡ length (all_pending parts.now) }
{
    match parts.split_first() {
        None => 0,
        Some((part, rest)) => part.pending() + pending_in(rest),
    }
}

/// The oldest pending piece of these datasets.
fn first_piece(parts: &[WriterCore]) -> Option<&Write>
    ensures oldest { option_copied result ≡ slice_get (all_pending parts.now) 0 }
    ensures some { IfSome result (λ w. 1 ≤ length w.now.piece) }
    ensures within { (S : Sessions) → AreParts S parts.now → IfSome result (λ w. w.now.at + length w.now.piece ≤ S.places.end) }
{
    match parts.split_first() {
        None => None,
        Some((part, rest)) => match part.next() {
            Some(write) => Some(write),
            None => first_piece(rest),
        },
    }
}

/// Whether the oldest pending piece of this dataset is the last of a flush: no piece of those behind it is pending.
fn is_last(part: &WriterCore, rest: &[WriterCore]) -> bool
    requires some { 0 < length part.now.pending }
    requires few { length (all_pending rest.now) < 2 ^ 64 }
    ensures yes { IsTrue result → (part.now.flushing ≡ true) × (length part.now.pending ≡ 1) × (length (all_pending rest.now) ≡ 0) }
    ensures no { IsFalse result → ((length part.now.pending ≡ 1) × (length (all_pending rest.now) ≡ 0) → ⊥)
        ⊎ ((part.now.flushing ≡ false) × (length (all_pending rest.now) ≡ 0)) }
{
    if part.pending() > 1 {
        return false;
    }
    if pending_in(rest) > 0 {
        return false;
    }
    part.is_flushing()
}

/// The oldest pending piece of these datasets became visible. Answers whether it was the last of a flush.
fn show_piece(parts: &mut [WriterCore]) -> bool
    requires some { 0 < length (all_pending parts.old) }
    requires few { length (all_pending parts.old) < 2 ^ 64 }
    ensures shown { (w : Write) (ws : List Write) → all_pending parts.old ≡ w ∷ ws → AreShown w parts.old parts.new }
    ensures left { (w : Write) (ws : List Write) → all_pending parts.old ≡ w ∷ ws → all_pending parts.new ≡ ws }
    ensures last { IsTrue result → AreFlushing parts.old × (all_pending parts.new ≡ []) }
    ensures more { IsFalse result → (all_pending parts.new ≢ []) ⊎ (AreFlushing parts.old → ⊥) }
{
    match parts.split_first_mut() {
        None => false,
        Some((part, rest)) => {
            if part.pending() == 0 {
                return show_piece(rest);
            }
            let last = is_last(part, rest);
            part.written();
            last
        }
    }
}

/// What was retired is free, or where it stays out of use forgotten.
fn let_go(places: &mut Places, keeps: bool)
    ensures { Freed keeps places.old places.new }
{
    if keeps {
        places.forget();
    } else {
        places.commit();
    }
}

impl SeveralWriter {
    /// How many pieces are pending.
    pub fn pending(&self) -> u64
        ensures { result ≡ length (all_pending self.now.parts) }
    {
        pending_in(&self.parts)
    }

    /// The oldest pending piece; None exactly where nothing is pending.
    pub fn next(&self) -> Option<&Write>
        ensures oldest { option_copied result ≡ slice_get (all_pending self.now.parts) 0 }
        ensures some { IfSome result (λ w. 1 ≤ length w.now.piece) }
        ensures within { IfSome result (λ w. w.now.at + length w.now.piece ≤ self.now.places.end) }
    {
        first_piece(&self.parts)
    }

    /// The oldest pending piece became visible. With the last one of a dataset's the file has the planned rows of that
    /// dataset; with the last one of a flush what was retired is free, or stays out of use. Takes no memory.
    pub fn written(&mut self)
        requires { 0 < length (all_pending self.old.parts) }
        ensures piece { (w : Write) (ws : List Write) → all_pending self.old.parts ≡ w ∷ ws → AfterPieceOf w self.old self.new }
        ensures left { (w : Write) (ws : List Write) → all_pending self.old.parts ≡ w ∷ ws → all_pending self.new.parts ≡ ws }
        ensures parts { KeepsParts self.old self.new }
        ensures sessions { AreSessions self.new }
        ensures stands { (w : Write) (ws : List Write) → all_pending self.old.parts ≡ w ∷ ws → (log : FileLog) → StandsAll self.old log → StandsAll self.new (and_then (shows_all w) log) }
    {
        self.advance();
    }

    /// The oldest pending piece is pending no more.
    fn advance(&mut self)
        requires { 0 < length (all_pending self.old.parts) }
        ensures piece { (w : Write) (ws : List Write) → all_pending self.old.parts ≡ w ∷ ws → AfterPieceOf w self.old self.new }
        ensures left { (w : Write) (ws : List Write) → all_pending self.old.parts ≡ w ∷ ws → all_pending self.new.parts ≡ ws }
        ensures sessions { AreSessions self.new }
    {
        if show_piece(&mut self.parts) {
            let_go(&mut self.places, self.keeps);
        }
    }
}
