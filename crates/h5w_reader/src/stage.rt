//! An unfinished call for rows.
ghost use Rattle.std.specs.Prelude.{◌≡◌, ◌≢◌, ℕ, List, Option, ◌+◌, ◌-◌, ◌<◌, ◌≤◌, ◌^◌, length, Ok, Err, Some, None, true, false, IfOk};
ghost use Rattle.h5w_model.specs.Checked.{viewed};
ghost use Rattle.h5w_model.specs.Programs.{below_end};
ghost use Rattle.h5w_model.specs.Tables.{Reading};
ghost use Rattle.h5w_lookup.specs.Attempts.{known_of, rules_of};
ghost use Rattle.h5w_lookup.specs.Descents.{reading_news};
ghost use Rattle.h5w_reader.specs.Headers.{IsView, IsWhole};
ghost use Rattle.h5w_dataset.specs.Described.{described_of};
ghost use Rattle.h5w_lookup.specs.Seen.{IsHeaderOf};

use crate::behind::{Behind, Reached};
use crate::header::{again, cut_header, is_same, view_at};
use crate::open::{Opened, Opening};
use crate::place::place_of;
use h5w_dataset::FoundMessage;
use h5w_lookup::{Known, Look, News, Outcome, Rules, look_at};
use h5w_model::{Bytes, OutOfMemory, Piece, ReadError};
use std::alloc::Global;

/// An attempt, from its first look at the dataset header on.
#[derive(Drop)]
pub struct Attempt {
    pub rules: Rules,
    /// How many attempts may follow.
    pub more: u32,
    /// What counts of that look.
    pub view: Bytes,
    ghost seen: { IsView rules.place view },
    ghost whole: { IsWhole rules.place view },
}

/// What is awaited.
#[derive(Drop)]
pub enum Stage {
    /// A look on the way to the root header's messages.
    Open(Opening),
    /// The first look at the dataset header.
    Header(Rules),
    /// A look behind it.
    Behind(Attempt, Behind),
    /// The last look at it. Where that shows the same header this is the answer.
    Confirm(Attempt, Result<News, ReadError>),
}

/// What a call comes to.
pub type Came = Outcome<News, Stage>;

/// The answer of a refusal that may be want of memory.
fn refused(error: ReadError) -> Result<Came, OutOfMemory>
    ensures refused { IfOk result (λ c. c ≡ Outcome.Refused error) }
    ensures other { IfOk result (λ c. error ≢ ReadError.OutOfMemory) }
{
    match error {
        ReadError::OutOfMemory => Err(OutOfMemory),
        error => Ok(Outcome::Refused(error)),
    }
}

/// The news, with all that was looked at for them.
fn with_view(news: News, view: Bytes) -> News
    requires { IsHeaderOf news.place (described_of news.dataset) view }
    ensures { (known : Option Reading) → reading_news known result ≡ reading_news known news }
{
    let News {
        place,
        dataset,
        found,
        front,
        ..
    } = news;
    News {
        place,
        dataset,
        found,
        view: Some(view),
        front,
    }
}

impl Attempt {
    ghost use Rattle.h5w_reader.specs.Calling.{came, attempt_rest, confirm_given};

    /// Goes on from what counts of an attempt's first look at the dataset header, where so many attempts may follow.
    fn begin(
        alloc: Global,
        rules: Rules,
        known: &Option<Known>,
        more: u32,
        view: Bytes,
    ) -> Result<Came, OutOfMemory>
        requires { IsView rules.place view }
        ensures { (most : ℕ) (name : List ℕ) → IfOk result (λ c. came most name (known_of known.now) c ≡ attempt_rest (rules_of rules (known_of known.now)) more view) }
    {
        if let Some(error) = cut_header(rules.place, &view) {
            return Ok(Outcome::Refused(error));
        }
        match Behind::begin(alloc, &rules, known, &view)? {
            Outcome::Done(news) => Ok(Outcome::Done(with_view(news, view))),
            Outcome::Refused(error) => {
                let attempt = Attempt { rules, more, view };
                Ok(Outcome::Looks(Stage::Confirm(attempt, Err(error))))
            }
            Outcome::Looks(behind) => {
                let attempt = Attempt { rules, more, view };
                Ok(Outcome::Looks(Stage::Behind(attempt, behind)))
            }
        }
    }

    /// Goes on with what counts of the last look, by which this is the answer.
    fn end(
        self,
        alloc: Global,
        known: &Option<Known>,
        answer: Result<News, ReadError>,
        last: Bytes,
    ) -> Result<Came, OutOfMemory>
        requires { IsView self.rules.place last }
        ensures { (most : ℕ) (name : List ℕ) → IfOk result (λ c. came most name (known_of known.now) c ≡ confirm_given (rules_of self.rules (known_of known.now)) self.more self.view (viewed (reading_news (known_of known.now)) answer) last) }
    {
        if let Some(error) = cut_header(self.rules.place, &last) {
            return Ok(Outcome::Refused(error));
        }
        if is_same(&last, &self.view) {
            return Ok(Stage::answered(answer));
        }
        if self.more == 0 {
            let error = again(&self.rules, &self.view, &last);
            return Ok(Outcome::Refused(error));
        }
        Attempt::begin(alloc, self.rules, known, self.more - 1, last)
    }
}

impl Stage {
    ghost use Rattle.h5w_model.specs.Calls.{open_call, rows_call};
    ghost use Rattle.h5w_lookup.specs.Attempts.{reader_limits};
    ghost use Rattle.h5w_model.specs.Programs.{next_look, fed, and_then, ret, bind};
    ghost use Rattle.h5w_lookup.specs.Looks.{look_of, IsWithinLook};
    ghost use Rattle.h5w_reader.specs.Calling.{stage_left, came, place_rest, reached, confirm_rest, rows_given};
    ghost use Rattle.h5w_dataset.specs.Founds.{founds};
    ghost use Rattle.h5w_reader.specs.Opening.{opened};

    /// What a call comes to whose answer this is.
    fn answered(answer: Result<News, ReadError>) -> Came
        ensures { (most : ℕ) (name : List ℕ) (known : Option Reading) → came most name known result ≡ ret (viewed (reading_news known) answer) }
    {
        match answer {
            Ok(news) => Outcome::Done(news),
            Err(error) => Outcome::Refused(error),
        }
    }

    /// Goes on from the messages of the root header.
    fn after_root(
        alloc: Global,
        attempts: u32,
        name: &[u8],
        found: Vec<FoundMessage>,
    ) -> Result<Came, OutOfMemory>
        ensures { (known : Option Reading) → IfOk result (λ c. came attempts name.now known c ≡ place_rest attempts name.now known (founds found.items)) }
    {
        let place = match place_of(alloc, found, name) {
            Ok(place) => place,
            Err(error) => return refused(error),
        };
        Ok(Outcome::Looks(Stage::Header(Rules { attempts, place })))
    }

    /// Goes on from what a look on the way to the root header's messages comes to.
    fn after_open(alloc: Global, attempts: u32, name: &[u8], o: Opened) -> Result<Came, OutOfMemory>
        ensures { (known : Option Reading) → IfOk result (λ c. came attempts name.now known c ≡ and_then (opened o) (place_rest attempts name.now known)) }
    {
        match o {
            Outcome::Done(found) => Stage::after_root(alloc, attempts, name, found),
            Outcome::Refused(error) => Ok(Outcome::Refused(error)),
            Outcome::Looks(opening) => Ok(Outcome::Looks(Stage::Open(opening))),
        }
    }

    /// Goes on with the first look at the dataset header.
    fn after_header(
        alloc: Global,
        rules: Rules,
        known: &Option<Known>,
        look: &Piece,
    ) -> Result<Came, OutOfMemory>
        requires { length look.now ≤ below_end rules.place 512 }
        ensures { (most : ℕ) (name : List ℕ) → IfOk result (λ c. came most name (known_of known.now) c ≡ rows_given (rules_of rules (known_of known.now)) look.now) }
    {
        let view = view_at(alloc, rules.place, look)?;
        Attempt::begin(alloc, rules, known, rules.attempts.saturating_sub(1), view)
    }

    /// Goes on with what comes of a look behind the header.
    fn after_behind(attempt: Attempt, found: Reached) -> Came
        ensures { (most : ℕ) (name : List ℕ) (known : Option Reading) → came most name known result ≡ bind (reached (rules_of attempt.rules known) found) (confirm_rest (rules_of attempt.rules known) attempt.more attempt.view) }
    {
        match found {
            Outcome::Done(news) => Outcome::Looks(Stage::Confirm(attempt, Ok(news))),
            Outcome::Refused(error) => Outcome::Looks(Stage::Confirm(attempt, Err(error))),
            Outcome::Looks(behind) => Outcome::Looks(Stage::Behind(attempt, behind)),
        }
    }

    /// An open.
    pub fn open(alloc: Global) -> Stage
        ensures { (most : ℕ) (name : List ℕ) → stage_left most name None result ≡ open_call reader_limits 16 most name }
    {
        Stage::Open(Opening::new(alloc))
    }

    /// A call for rows of a dataset whose header's place is known.
    pub fn rows(rules: Rules) -> Stage
        ensures { (most : ℕ) (name : List ℕ) (known : Option Reading) → stage_left most name known result ≡ rows_call (rules_of rules known) }
    {
        Stage::Header(rules)
    }

    /// The next look.
    pub fn want(&self) -> Look
        ensures next { (most : ℕ) (name : List ℕ) (known : Option Reading) → next_look (stage_left most name known self.now) ≡ Some (look_of result) }
        ensures low { 1 ≤ result.len }
        ensures high { result.len ≤ 512 }
        ensures inside { result.at + result.len ≤ 2 ^ 64 }
    {
        match self {
            Stage::Open(opening) => opening.want(),
            Stage::Header(rules) => look_at(rules.place),
            Stage::Behind(_, behind) => behind.want(),
            Stage::Confirm(attempt, _) => look_at(attempt.rules.place),
        }
    }

    /// Takes up a full piece where the block of the index that is looked at goes on behind it; false where the piece may be its
    /// last, or something else is looked at.
    pub fn absorb(&mut self, piece: &Piece) -> Result<bool, OutOfMemory>
        ensures more { result ≡ Ok true → (most : ℕ) (name : List ℕ) (known : Option Reading) → stage_left most name known self.new ≡ fed piece.now (stage_left most name known self.old) }
        ensures same { result ≡ Ok false → (most : ℕ) (name : List ℕ) (known : Option Reading) → stage_left most name known self.new ≡ stage_left most name known self.old }
    {
        match self {
            Stage::Behind(_, behind) => behind.absorb(piece),
            _ => Ok(false),
        }
    }

    /// Goes on with the piece that the look gave. It is a call of this many attempts on a dataset of this name, of which
    /// this is known.
    pub fn feed(
        self,
        alloc: Global,
        attempts: u32,
        name: &[u8],
        known: &Option<Known>,
        piece: &Piece,
    ) -> Result<Came, OutOfMemory>
        requires { IsWithinLook (next_look (stage_left attempts name.now (known_of known.now) self)) (length piece.now) }
        ensures { IfOk result (λ c. came attempts name.now (known_of known.now) c ≡ fed piece.now (stage_left attempts name.now (known_of known.now) self)) }
    {
        match self {
            Stage::Open(opening) => Stage::after_open(
                alloc,
                attempts,
                name,
                opening.feed(alloc, piece)?,
            ),
            Stage::Header(rules) => Stage::after_header(alloc, rules, known, piece),
            Stage::Behind(attempt, behind) => {
                let found = behind.feed(alloc, &attempt.rules, known, piece)?;
                Ok(Stage::after_behind(attempt, found))
            }
            Stage::Confirm(attempt, answer) => {
                let last = view_at(alloc, attempt.rules.place, piece)?;
                attempt.end(alloc, known, answer, last)
            }
        }
    }
}
