//! A reader's half-done calls. The core holds no image: [`ReaderCore::want`] says the next look, and
//! [`ReaderCore::give`] takes what it gave.
//!
//! What an unfinished call waits for, and what the look makes of it. An open or a refresh (`Call::Rows`) is in a `Stage`, a
//! read (`Call::Values`) in a `Reads`:
//!
//! | state | the next look | then |
//! |---|---|---|
//! | `Stage::Open`, `Opening::Super` | the superblock | `Root`, or a refusal |
//! | `Stage::Open`, `Opening::Root` | the first 512 bytes of the root header | `Rest` where chunk 0 is longer, else its messages, or a refusal |
//! | `Stage::Open`, `Opening::Rest` | the next piece of its chunk 0 | `Rest`, or its messages, or a refusal |
//! | `Stage::Open`, `Opening::Visit` | the next piece of a continuation block of it | `Visit`, or `Header` once the link is found, or a refusal |
//! | `Stage::Header` | the dataset header: an attempt begins | a refusal where it is cut, rows where it looks no further, else `Behind` or `Confirm` |
//! | `Stage::Behind`, `Behind::Visit` | the next piece of a continuation block of it | `Visit`, `Array`, `Tree`, or `Confirm` |
//! | `Stage::Behind`, `Lookup::Array` | the next piece of the array's header | `Index`, or `Confirm` |
//! | `Stage::Behind`, `Lookup::Index` | the next piece of the array's index block | `Block`, or `Confirm` |
//! | `Stage::Behind`, `Lookup::Tree` | the next piece of the tree's header | `Block`, or `Confirm` |
//! | `Stage::Behind`, `Lookup::Block` | the next piece of a secondary or data block, or of a node of the tree, that is not kept | `Block`, or `Confirm` |
//! | `Stage::Confirm` | the dataset header again | a refusal where it is cut, the attempt's answer where it is the same, else the next attempt, else Again |
//! | `Reads::Range` | the next piece of a chunk's range, in one dimension | `Range`, or the values, or a refusal |
//! | `Reads::Beside` | the next piece of a chunk's range, in two dimensions | `Beside`, or the values, or a refusal |
//! | `Reads::Past` | a chunk whose range passes 2^64 | a refusal, whatever the look gives |
//!
//! Messages are visited without a look until a continuation message comes; a refusal behind the dataset header waits in
//! `Confirm`, too. What an attempt began with (`Attempt`) is kept in `Behind` and `Confirm`, and a `Lookup` (h5w_lookup) stands
//! in `Behind::Lookup`.
#![tactic(auto)]

mod absorb;
mod behind;
mod call;
mod cells;
mod grid;
mod header;
mod idle;
mod open;
mod place;
mod reader;
mod stage;
mod step;
mod values;
mod view;
mod walk;

pub use h5w_lookup::Look;
pub use reader::ReaderCore;
pub use step::{ReadBegin, Step};
