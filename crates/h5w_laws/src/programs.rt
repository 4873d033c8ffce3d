//! Programs of looks: one after another, in looks of at most 512 bytes with a store, and over looks at images that change.

ghost use Rattle.h5w_laws.specs.Programs.{BoundAnswers, NextAnswers, BoundVisits, AnswersStay, SameLaws, LoweredStill, StoreLaws, LoweredKept, LeavingKept, TakesInTurn, TakesBoth, LoweredInTurn, LoweredKeptInTurn, LoweredEnds};

/// One program after another gives what the second gives, begun with the first one's answer.
#[tactic(auto, using(crate::proofs::ProgramLemmas::eval_bind))]
pub fn bound_answers<A, B>()
    ensures { BoundAnswers A B }
{}

/// A refusal of the first of two programs is the refusal of both.
#[tactic(auto, using(crate::proofs::ProgramLemmas::eval_and_then))]
pub fn next_answers<A, B, E>()
    ensures { NextAnswers A B E }
{}

/// One program after another looks at what the first looks at, and then at what the second does.
#[tactic(auto, using(crate::proofs::ProgramLemmas::visits_bind))]
pub fn bound_visits<A, B>()
    ensures { BoundVisits A B }
{}

/// Where what a program looks at in one image is the same in another, it looks at the same there, and gives the same.
#[tactic(auto, using(crate::proofs::ProgramLemmas::answers_stay))]
pub fn answers_stay<A>()
    ensures { AnswersStay A }
{}

/// Ranges are the same in an image and itself, from one image over another to a third, both ways, and in a list's parts.
#[tactic(auto, using(crate::proofs::ProgramLemmas::same_laws))]
pub fn same_laws()
    ensures { SameLaws }
{}

/// On a still image a program in looks of at most 512 bytes, with a store, gives what it gives in whole blocks.
#[tactic(auto, using(crate::proofs::LoweringLemmas::lowered_still))]
pub fn lowered_still<A>()
    ensures { LoweredStill A }
{}

/// What a program leaves in a store is right for each image in which what it looked at is the same.
#[tactic(auto, using(crate::proofs::LoweringLemmas::store_laws))]
pub fn store_laws<A>()
    ensures { StoreLaws A }
{}

/// Where each look is at an image in which what the program looks at is as in an old one, it answers what the old one
/// gives.
#[tactic(auto, using(crate::proofs::LookLemmas::lowered_kept))]
pub fn lowered_kept<A>()
    ensures { LoweredKept A }
{}

/// And it leaves the store that the old one gives.
#[tactic(auto, using(crate::proofs::LookLemmas::leaving_kept))]
pub fn leaving_kept<A>()
    ensures { LeavingKept A }
{}

/// The looks of one program after another are first looks of the first, and then looks of the second.
#[tactic(auto, using(crate::proofs::LookLemmas::takes_split))]
pub fn takes_in_turn<A, B>()
    ensures { TakesInTurn A B }
{}

/// Looks of one program, and then of the next, are looks of both.
#[tactic(auto, using(crate::proofs::LookLemmas::takes_bind))]
pub fn takes_both<A, B>()
    ensures { TakesBoth A B }
{}

/// The same with a store: the second begins with the answer and the store that the first left.
#[tactic(auto, using(crate::proofs::LookLemmas::lowered_in_turn))]
pub fn lowered_in_turn<A, B>()
    ensures { LoweredInTurn A B }
{}

/// The same, where the first looks are at images in which what the first looks at is as in an old one.
#[tactic(auto, using(crate::proofs::LookLemmas::lowered_kept_in_turn))]
pub fn lowered_kept_in_turn<A, B>()
    ensures { LoweredKeptInTurn A B }
{}

/// What is left of a program after some of its looks can be completed on any image.
#[tactic(auto, using(crate::proofs::LookLemmas::lowered_ends))]
pub fn lowered_ends<A>()
    ensures { LoweredEnds A }
{}
