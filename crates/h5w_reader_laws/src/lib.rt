//! The promise to readers, over every log and every call: whoever opens or refreshes while rows are appended gets the
//! beginning of the appended rows, with all that were flushed before. Each law is the clause of a function without
//! parameters, its statement a definition in specs/. Nothing here runs.
#![tactic(auto)]

mod bounds;
mod examples;
mod headline;
mod known;
mod still;

pub use bounds::{
    bounds_from_one, opens_in_looks, reads_in_looks, refreshes_in_looks, short_bounds,
};
pub use examples::{during_a_flush, served_log};
pub use headline::{
    ends_when_still, opens_on_rows, reads_values, refreshes_to_rows, within_from_last,
};
pub use known::known_addresses;
pub use still::{partly_reads, still_calls, still_reads, still_refresh};
