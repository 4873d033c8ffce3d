//! What a dataset is found by in a file of any maker: the superblock, the root header with its continuation blocks, the link, the
//! dataset header with its continuation blocks, and what its messages say.
//!
//! docs/FORMAT.md, "Superblock", "Object headers", "Links" and "Messages". Every block is looked at where it is named, in looks of at
//! most 512 bytes. Each call says what it answers by a program of looks: where the image tells its bytes and nobody else writes it,
//! the answer is what the program gives on them.
#![tactic(auto)]

mod error;
mod front;
mod header;
mod linked;
mod read;
mod refusal;
mod root;
mod walk;

pub use error::FindError;
pub use front::superblock;
pub use header::dataset_header;
pub use linked::{Linked, places_of};
pub use root::{place_of, root_header};
pub use walk::Header;
