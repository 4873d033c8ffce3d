//! What a step of a call comes to: it is done, or it waits for a look; and some steps may be refused.
ghost use Rattle.std.specs.Prelude.{◌≡◌};

use h5w_model::ReadError;

/// What a step of a call comes to.
#[derive(Drop)]
pub enum Outcome<T, S> {
    /// What it was to find.
    Done(T),
    /// What the image has is refused.
    Refused(ReadError),
    /// It goes on with the look that this waits for.
    Looks(S),
}

/// What a step of a call comes to that refuses nothing: it takes bytes whatever they say, or goes by what is known.
#[derive(Drop)]
pub enum Progress<T, S> {
    /// What it was to find.
    Done(T),
    /// It goes on with the look that this waits for.
    Looks(S),
}

impl<T, S> Outcome<T, S> {
    ghost use Rattle.h5w_lookup.specs.Outcomes.{IsMapped};

    /// The same with what `wait` makes of the look that this waits for.
    pub fn map_looks<U, F: FnOnce(S) -> U>(self, wait: F) -> Outcome<T, U>
        requires { F.IsAlwaysCallable wait }
        ensures { IsMapped (F.post wait) self result }
    {
        match self {
            Outcome::Done(found) => Outcome::Done(found),
            Outcome::Refused(error) => Outcome::Refused(error),
            Outcome::Looks(look) => Outcome::Looks(wait(look)),
        }
    }
}

impl<T, S> From<Progress<T, S>> for Outcome<T, S> {
    ghost use Rattle.h5w_lookup.specs.Outcomes.{outcome_of};

    ghost from_gives = { λ going outcome. outcome ≡ outcome_of going };

    fn from(going: Progress<T, S>) -> Outcome<T, S> {
        match going {
            Progress::Done(found) => Outcome::Done(found),
            Progress::Looks(look) => Outcome::Looks(look),
        }
    }
}
