//! What a session knows that is one of several over a file.

ghost use Rattle.h5w_writer.specs.PartLaws.{PartLaws};
ghost use Rattle.h5w_writer.specs.Told.{ToldLaws};

/// A session at rest that is told of pieces of other datasets, which are a plan for its own, stands for its log with these pieces; the halves
/// of a flush stay so over another superblock; and a flush into an index that is there is one as h5w_flush_laws has it, of the file that the
/// session knows. Of a session that is one of several over a file it is told what it knows: the moment of the file, the map of its index, what
/// readers may hold and the places, over each call and over pieces of the others.
#[tactic(auto, using(h5w_writer::proofs::ToldLemmas::told_laws, h5w_writer::proofs::PartLemmas::part_laws))]
pub fn told_laws()
    ensures told { ToldLaws }
    ensures part { PartLaws }
{}
