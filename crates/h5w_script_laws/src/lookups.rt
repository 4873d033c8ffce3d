//! Lookups of a chunk's address.

ghost use Rattle.h5w_script_laws.specs.Lookups.{LookupVisits};

/// The lookup of one chunk's address visits at most 4 blocks of an array, and 5 of a tree.
#[tactic(auto, using(crate::proofs::LookupLemmas::lookup_visits))]
pub fn lookups_visit()
    ensures { LookupVisits }
{}
