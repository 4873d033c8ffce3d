//! What a file that is valid for several names has of each of them.
ghost use Rattle.h5w_several_open.specs.Begins.{OpensAll};
ghost use Rattle.h5w_several_open.specs.Datasets.{AllApart, AllHave};
ghost use Rattle.h5w_several_open.specs.Stands.{OpensStanding};
ghost use Rattle.h5w_several_open.specs.Taken.{TakesStanding};

/// What a file that is valid for several names has of each of them, whatever moment is told of it: one superblock, one root header, and ranges
/// that meet none of another's.
pub fn all_have()
    ensures { AllHave }
{}

/// What begins over such a file is known, and apart from each other.
pub fn all_apart()
    ensures { AllApart }
{}

/// The sessions that are opened over a file that is valid for all names begin apart from each other.
pub fn opens_all()
    ensures { OpensAll }
{}

/// The session of all of them stands for the log of the file that was opened, to which nothing happened yet.
pub fn opens_standing()
    ensures { OpensStanding }
{}

/// The session that takes over a file which is valid for all names stands for the log over it, to which nothing happened
/// yet.
pub fn takes_standing()
    ensures { TakesStanding }
{}
