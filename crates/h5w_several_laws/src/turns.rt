//! A flush of several datasets, part after part.

ghost use Rattle.h5w_several_laws.specs.Between.{OwnBetween, TurnBetween};
ghost use Rattle.h5w_several_laws.specs.Turns.{TurnKnown, TurnRuns, TurnsFollow};

/// One part: a flush for its dataset, a plan for each other, and all are known then.
pub fn turn_known()
    ensures { TurnKnown }
{}

/// All parts.
pub fn turns_follow()
    ensures { TurnsFollow }
{}

/// The log of each dataset, from a rest to the next.
pub fn turn_runs()
    ensures { TurnRuns }
{}

/// In the middle of a flush a dataset has the ranges of before it or those of behind it.
pub fn own_between()
    ensures { OwnBetween }
{}

/// In the middle of its part what readers of it may hold is off what another has, and the other way round.
pub fn turn_between()
    ensures { TurnBetween }
{}
