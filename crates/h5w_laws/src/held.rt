//! What readers rest on: what a valid image shows, and what is held from each position of a log to each later one.

ghost use Rattle.h5w_laws.specs.Held.{ValidShows, StillGivesHeld};
ghost use Rattle.h5w_laws.specs.Ranges.{ValidRanges};

/// A valid image shows the rows of its summary, and in it the address of every key that the index can name is found,
/// within the image.
#[tactic(auto, using(crate::proofs::ValidLemmas::valid_shows))]
pub fn valid_shows()
    ensures { ValidShows }
{}

/// Where the image is valid and reads as the flushed rows at each position, and each piece leaves what readers rest on, it
/// stays from each position to each later one.
pub fn still_gives_held()
    ensures { StillGivesHeld }
{}

/// The ranges that the check of a valid image collects are apart, end by its end-of-file address, and with the lost bytes
/// make it; and they are so many chunks and blocks as its summary says.
pub fn valid_ranges()
    ensures { ValidRanges }
{}
