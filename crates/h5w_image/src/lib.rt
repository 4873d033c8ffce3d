//! Images as the outside has them: pieces, the traits through which they are looked at and written,
//! the journal of writes, and an image and a disk in memory.
#![tactic(auto)]

mod disk;
mod fault;
mod gate;
mod journal;
mod mem_disk;
mod mem_files;
mod mem_image;
mod store;
mod traits;

pub use disk::Disk;
pub use fault::{Failed, ImageError, MakeError};
pub use gate::{Gate, OpenGate};
pub use h5w_model::{OutOfMemory, PIECE, Piece, Write};
pub use journal::{Journal, WriteRef};
pub use mem_disk::MemDisk;
pub use mem_image::MemImage;
pub use traits::{PieceRead, PieceWrite};
