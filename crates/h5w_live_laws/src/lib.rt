//! Of one writer and its readers in threads: how what each reader's seat had seen, and what its calls were answered, agrees with
//! the lines of the writer's flushes. Each law is the clause of a function without parameters, its statement a definition in
//! specs/, and the lemmas in proofs/ are for the crates above to cite. Nothing here runs.
#![tactic(auto)]

mod polls;

pub use polls::poll_laws;
