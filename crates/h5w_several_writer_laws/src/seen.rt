//! What is true of the log of a part is true of what its dataset sees of the file's log.

ghost use Rattle.h5w_several_writer_laws.specs.Seen.{PartSeen};

/// What readers may rest on in the log of a part they may rest on in what its dataset sees of the log of the file.
#[tactic(auto, using(crate::proofs::SeenLemmas::part_seen))]
pub fn part_seen()
    ensures { PartSeen }
{}
