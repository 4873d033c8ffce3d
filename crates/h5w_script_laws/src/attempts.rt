//! The looks of a call for rows, over any images.

ghost use Rattle.h5w_script_laws.specs.Attempts.{LooksOfAttempts};

/// Whatever the looks give: an attempt takes at most two looks at the dataset header, those at the continuation blocks of the
/// header that its first look found, and 21 for each chunk that this header needs. Each call has its answer after some looks.
#[tactic(auto, using(crate::proofs::AttemptLooks::looks_of_attempts))]
pub fn looks_of_attempts()
    ensures { LooksOfAttempts }
{}
