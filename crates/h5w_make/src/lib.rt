//! A file in memory whose values a generator gives: it is written in batches, closed, checked, and read back.
#![tactic(auto)]

mod batch;
mod made;
mod numbers;
mod reading;
mod seeded;

pub use h5w_model::OutOfMemory;
pub use made::{Made, make};
pub use numbers::Generator;
pub use seeded::generator;
