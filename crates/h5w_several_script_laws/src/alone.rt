//! A file with one dataset.

ghost use Rattle.h5w_several_script_laws.specs.Alone.{OneDatasetLaws};

/// Over one dataset the same replies are lawful as in a script of one dataset, and no others.
#[tactic(auto, using(crate::proofs::AloneLemmas::one_dataset_laws))]
pub fn one_dataset()
    ensures { OneDatasetLaws }
{}
