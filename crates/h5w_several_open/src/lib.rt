//! The opening of a file by several names: one session for each dataset, over one superblock and the places of one file.
#![tactic(auto)]

mod alone;
mod beginning;
mod laws;
mod opening;
mod session;
mod taking;

pub use beginning::{Beginning, begin_all, begin_one};
pub use laws::{all_apart, all_have, opens_all, opens_standing, takes_standing};
pub use opening::open_parts;
pub use session::open;
pub use taking::takeover;
