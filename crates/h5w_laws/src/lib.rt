//! Laws over the definitions of h5w_model: what follows from them for every image, program of looks and log, whoever
//! uses them. Each law is the clause of a function without parameters, its statement a definition in specs/, and the
//! lemmas in proofs/ are for the crates above to cite. Nothing here runs.
#![tactic(auto)]

mod answers;
mod chunks;
mod held;
mod logs;
mod programs;
mod relations;
mod several;
mod tiles;

pub use answers::{one_answer, one_verdict, unstored_steps};
pub use chunks::{numbers_chunks, places_chunks};
pub use held::{still_gives_held, valid_ranges, valid_shows};
pub use logs::{each_gives_prefixed, event_laws, flushed_laws, position_laws};
pub use programs::{
    answers_stay, bound_answers, bound_visits, leaving_kept, lowered_ends, lowered_in_turn,
    lowered_kept, lowered_kept_in_turn, lowered_still, next_answers, same_laws, store_laws,
    takes_both, takes_in_turn,
};
pub use relations::{array_slots, dataset_headers, header_messages, header_places, index_places};
pub use several::{
    all_ranges, each_valid, finds_all, link_order, one_name, one_verdict_of_all, ranges_fit,
    same_links,
};
pub use tiles::tile_laws;
