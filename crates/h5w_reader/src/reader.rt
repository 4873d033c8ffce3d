//! A reader of one dataset.
ghost use Rattle.std.specs.Prelude.{◌≡◌, ◌≢◌, ℕ, List, ◌+◌, ◌≤◌, ◌^◌, length, Some, None, IsSome, IfOk, IfErr, IfSome, OnOk, OnErr, MatchOption, option_map};
ghost use Rattle.h5w_model.specs.Calls.{rows_seen};
ghost use Rattle.h5w_model.specs.Unfinished.{rows_left, values_left, fed_left, rows_program, values_program, wanted, with_left};
ghost use Rattle.h5w_lookup.specs.Looks.{look_of, IsWithinLook};
ghost use Rattle.h5w_reader.specs.Readers.{BegunRead, IsRefusedRead, StepTells, begin_refusal, left_of, read_refusal, new_reader, reader_of, reader_rules, reads_left, valued_left};
ghost use Rattle.h5w_reader.specs.declared.call.Call.TheVariants as calls;
ghost use Rattle.h5w_reader.specs.declared.values.Reads.{Reads};
ghost use Rattle.h5w_reader.specs.declared.step.ReadBegin.{ReadBegin};
ghost use Rattle.h5w_reader.specs.declared.step.Step.TheVariants as steps;

use crate::absorb::absorb;
use crate::call::Call;
use crate::idle::is_idle;
use crate::stage::Stage;
use crate::step::{ReadBegin, Step};
use crate::values::{Reads, Valued};
use h5w_dataset::Dataset;
use h5w_lookup::{Known, Look, Outcome, Progress, Rules, learn, rows_seen};
use h5w_model::{Bytes, OutOfMemory, Piece, ReadError, Values};
use std::alloc::Global;

/// A reader of the dataset that a root link names. It holds no image: [`ReaderCore::want`] says the next look of its
/// unfinished call, and [`ReaderCore::give`] takes what that look gave.
#[derive(Drop)]
pub struct ReaderCore {
    alloc: Global,
    name: Bytes,
    /// How often a call may look at a dataset header that changes.
    attempts: u32,
    /// What the last call that was answered with rows found.
    known: Option<Known>,
    call: Option<Call>,
    ghost known_first: { (reads : Reads) → call ≡ Some (calls.Values reads) → known ≢ None },
}

/// Goes on with a read of the known dataset.
fn feed_read(
    alloc: Global,
    known: &Option<Known>,
    reads: Reads,
    piece: &Piece,
) -> Result<Valued, OutOfMemory>
    requires { IsWithinLook (wanted (reads_left known.now reads)) (length piece.now) }
    ensures { IfOk result (λ v. valued_left known.now v ≡ option_map (fed_left piece.now) (reads_left known.now reads)) }
{
    match known {
        Some(known) => reads.feed(alloc, known, piece),
        None => unreachable!(),
    }
}

/// Goes on with a call for the rows. What is left of it is in `call` then.
fn give_rows(
    alloc: Global,
    attempts: u32,
    name: &[u8],
    known: &mut Option<Known>,
    call: &mut Option<Call>,
    stage: Stage,
    piece: &Piece,
) -> Step
    requires taken { call.old ≡ None }
    requires within { IsWithinLook (wanted (left_of attempts name.now known.old (Some (calls.Rows stage)))) (length piece.now) }
    ensures told { StepTells (option_map (fed_left piece.now) (left_of attempts name.now known.old (Some (calls.Rows stage)))) (reader_of name.now attempts known.old (Some (calls.Rows stage))) result (reader_of name.now attempts known.new call.new) }
    ensures wanting { result ≡ steps.More → IsSome (wanted (left_of attempts name.now known.new call.new)) }
    ensures kind { (reads : Reads) → call.new ≢ Some (calls.Values reads) }
{
    match stage.feed(alloc, attempts, name, known, piece) {
        Ok(Outcome::Done(news)) => {
            let rows = news.dataset.shape.rows;
            match learn(alloc, known, news) {
                Ok(()) => Step::Rows(rows),
                Err(OutOfMemory) => Step::Refused(ReadError::OutOfMemory),
            }
        }
        Ok(Outcome::Refused(error)) => Step::Refused(error),
        Ok(Outcome::Looks(stage)) => {
            *call = Some(Call::Rows(stage));
            Step::More
        }
        Err(OutOfMemory) => Step::Refused(ReadError::OutOfMemory),
    }
}

/// Goes on with a read of the known dataset. What is left of it is in `call` then.
fn give_values(
    alloc: Global,
    known: &Option<Known>,
    call: &mut Option<Call>,
    reads: Reads,
    piece: &Piece,
) -> Step
    requires taken { call.old ≡ None }
    requires known { known.now ≢ None }
    requires within { IsWithinLook (wanted (reads_left known.now reads)) (length piece.now) }
    ensures told { (most : ℕ) (name : List ℕ) → StepTells (option_map (fed_left piece.now) (reads_left known.now reads)) (reader_of name most known.now (Some (calls.Values reads))) result (reader_of name most known.now call.new) }
    ensures wanting { result ≡ steps.More → (most : ℕ) (name : List ℕ) → IsSome (wanted (left_of most name known.now call.new)) }
{
    match feed_read(alloc, known, reads, piece) {
        Ok(Outcome::Done(values)) => Step::Values(values),
        Ok(Outcome::Refused(error)) => Step::Refused(error),
        Ok(Outcome::Looks(reads)) => {
            *call = Some(Call::Values(reads));
            Step::More
        }
        Err(OutOfMemory) => Step::Refused(ReadError::OutOfMemory),
    }
}

impl ReaderCore {
    ghost use Rattle.std.specs.Borrow.{Bor};
    ghost use Rattle.h5w_model.specs.Programs as model;
    ghost use Rattle.h5w_model.specs.Tables.{Reading};
    ghost use Rattle.h5w_dataset.specs.Described.{described_of};
    ghost use Rattle.h5w_dataset.specs.declared.dataset.Dataset.{Dataset};
    ghost use Rattle.h5w_reader.specs.Cores.{reader};
    ghost use Rattle.h5w_model.specs.Asked.{Asked, Asks, beginning, no_asks, reading, without};
    ghost use Rattle.h5w_reader.specs.Asked.{IsWanted, looking};

    /// A reader that begins to open the dataset of this name. Where a dataset header changes between its looks, a call tries so often.
    pub fn open(alloc: Global, name: &[u8], attempts: u32) -> Result<ReaderCore, OutOfMemory>
        ensures begun { IfOk result (λ r. reader r ≡ new_reader (reader_rules name.now attempts)) }
        ensures wanting { IfOk result (λ r. IsSome (wanted (reader r).left)) }
        ensures asked { IfOk result (λ r. Asked (reader r) (beginning (rows_left (rows_program (reader_rules name.now attempts) None)) no_asks)) }
    {
        let name = Bytes::from_vec(Vec::from_slice(alloc, name)?);
        Ok(ReaderCore {
            alloc,
            name,
            attempts,
            known: None,
            call: Some(Call::Rows(Stage::open(alloc))),
        })
    }

    /// The rows of the last call that was answered with rows, 0 before it.
    pub fn seen(&self) -> u64
        ensures { result ≡ rows_seen (reader self.now).known }
    {
        rows_seen(&self.known)
    }

    /// The dataset, as the last call found it that was answered with rows.
    pub fn dataset(&self) -> Option<&Dataset>
        ensures { option_map (λ (d : Bor Dataset). described_of d.now) result ≡ option_map (λ (r : Reading). r.dataset) (reader self.now).known }
    {
        match &self.known {
            Some(known) => Some(&known.dataset),
            None => None,
        }
    }

    /// Begins a refresh; as long as no dataset is known, an open again. Busy where a call is unfinished.
    pub fn refresh(&mut self) -> Result<(), ReadBegin>
        ensures begun { OnOk result (reader self.new ≡ with_left (reader self.old) (Some (rows_left (rows_program (reader self.old).rules (reader self.old).known)))) }
        ensures wanting { OnOk result (IsSome (wanted (reader self.new).left)) }
        ensures idle { OnOk result (begin_refusal (reader self.old).left ≡ None) }
        ensures refused { IfErr result (λ e. begin_refusal (reader self.old).left ≡ Some e) }
        ensures err { OnErr result (reader self.new ≡ reader self.old) }
        ensures asked { OnOk result ((asks : Asks) → Asked (reader self.old) asks → Asked (reader self.new) (beginning (rows_left (rows_program (reader self.old).rules (reader self.old).known)) asks)) }
    {
        if self.call.is_some() {
            return Err(ReadBegin::Busy);
        }
        let stage = match &self.known {
            Some(known) => Stage::rows(Rules {
                attempts: self.attempts,
                place: known.place,
            }),
            None => Stage::open(self.alloc),
        };
        self.call = Some(Call::Rows(stage));
        Ok(())
    }

    /// Begins a read of `count` rows from row `from` on. Some where no look is needed: no row is asked for, or the chunks of all are
    /// known not to be there.
    pub fn read(&mut self, from: u64, count: u64) -> Result<Option<Values>, ReadBegin>
        ensures begun { IfOk result (λ values. BegunRead (values_program (reader self.old).known from count) (reader self.old) values (reader self.new)) }
        ensures wanting { IfOk result (λ values. values ≡ None → IsSome (wanted (reader self.new).left)) }
        ensures refused { (e : ReadBegin) → read_refusal (reader self.old) from count ≡ Some e → result ≡ Err e }
        ensures causes { IfErr result (λ e. IsRefusedRead (read_refusal (reader self.old) from count) e) }
        ensures err { OnErr result (reader self.new ≡ reader self.old) }
        ensures asked { IfOk result (λ values. (asks : Asks) → Asked (reader self.old) asks → Asked (reader self.new) (reading values (values_left (values_program (reader self.old).known from count)) asks)) }
    {
        if self.call.is_some() {
            return Err(ReadBegin::Busy);
        }
        let rows = self.seen();
        if rows < from || rows - from < count {
            return Err(ReadBegin::OutOfRows { from, count, rows });
        }
        let begun = match &self.known {
            Some(known) if count > 0 => Reads::begin(self.alloc, known, from, count)?,
            _ => return Ok(Some(Values::from_vec(Vec::new(self.alloc)))),
        };
        match begun {
            Progress::Done(values) => Ok(Some(values)),
            Progress::Looks(reads) => {
                self.call = Some(Call::Values(reads));
                Ok(None)
            }
        }
    }

    /// The next look of the unfinished call; None where no call is unfinished.
    pub fn want(&self) -> Option<Look>
        ensures next { MatchOption result ((reader self.now).left ≡ None) (λ look. wanted (reader self.now).left ≡ Some (look_of look)) }
        ensures low { IfSome result (λ look. 1 ≤ look.len) }
        ensures high { IfSome result (λ look. look.len ≤ 512) }
        ensures inside { IfSome result (λ look. look.at + look.len ≤ 2 ^ 64) }
    {
        match &self.call {
            Some(Call::Rows(stage)) => Some(stage.want()),
            Some(Call::Values(reads)) => Some(reads.want()),
            None => None,
        }
    }

    /// The rows that are known, where the wanted look is the first at the header of a call, and shows that all is as it was.
    fn same_rows(&self, piece: &Piece) -> Option<u64>
        ensures { IfSome result (λ rows. StepTells (option_map (fed_left piece.now) (reader self.now).left) (reader self.now) (steps.Rows rows) (with_left (reader self.now) None)) }
    {
        let Some(call) = &self.call else {
            return None;
        };
        let Call::Rows(stage) = call else {
            return None;
        };
        let Stage::Header(rules) = stage else {
            return None;
        };
        match &self.known {
            Some(known) if is_idle(rules, &self.known, piece) => Some(known.dataset.shape.rows),
            _ => None,
        }
    }

    /// Goes on with the piece that the wanted look gave, whatever is awaited.
    // An idle refresh does not come here: its instructions stay few where this is no part of them.
    #[inline(never)]
    fn go_on(&mut self, piece: &Piece) -> Step
        requires { IsWithinLook (wanted (reader self.old).left) (length piece.now) }
        ensures told { StepTells (option_map (fed_left piece.now) (reader self.old).left) (reader self.old) result (reader self.new) }
        ensures wanting { result ≡ steps.More → IsSome (wanted (reader self.new).left) }
    {
        match self.call.take() {
            Some(Call::Rows(stage)) => give_rows(
                self.alloc,
                self.attempts,
                self.name.as_slice(),
                &mut self.known,
                &mut self.call,
                stage,
                piece,
            ),
            Some(Call::Values(reads)) => give_values(
                self.alloc,
                &self.known,
                &mut self.call,
                reads,
                piece,
            ),
            None => unreachable!(),
        }
    }

    /// Goes on with the piece that the wanted look gave: first where it changes nothing, then where the block that is looked at
    /// goes on behind it.
    fn step(&mut self, piece: &Piece) -> Step
        requires { IsWithinLook (wanted (reader self.old).left) (length piece.now) }
        ensures told { StepTells (option_map (fed_left piece.now) (reader self.old).left) (reader self.old) result (reader self.new) }
        ensures wanting { result ≡ steps.More → IsSome (wanted (reader self.new).left) }
    {
        if let Some(rows) = self.same_rows(piece) {
            self.call = None;
            return Step::Rows(rows);
        }
        match absorb(&mut self.call, piece) {
            Ok(true) => Step::More,
            Ok(false) => self.go_on(piece),
            Err(OutOfMemory) => {
                self.call = None;
                Step::Refused(ReadError::OutOfMemory)
            }
        }
    }

    /// Goes on with the piece that the wanted look gave.
    pub fn give(&mut self, piece: &Piece) -> Step
        requires { IsWithinLook (wanted (reader self.old).left) (length piece.now) }
        ensures told { StepTells (option_map (fed_left piece.now) (reader self.old).left) (reader self.old) result (reader self.new) }
        ensures wanting { result ≡ steps.More → IsSome (wanted (reader self.new).left) }
        ensures asked { (asks : Asks) (look : model.Look) → Asked (reader self.old) asks → IsWanted (wanted (reader self.old).left) piece.now look → Asked (reader self.new) (looking look result (reader self.new).known asks) }
    {
        self.step(piece)
    }

    /// Ends the unfinished call, if there is one, as if it had not begun.
    pub fn quit(&mut self)
        ensures ended { reader self.new ≡ with_left (reader self.old) None }
        ensures asked { (asks : Asks) → Asked (reader self.old) asks → Asked (reader self.new) (without asks) }
    {
        self.call = None;
    }
}
