//! The messages of a header, each with its place in the image.
ghost use Rattle.std.specs.Prelude.{◌≡◌, ◌≤◌, length};

use h5w_model::Bytes;

/// A message of a header.
#[derive(Drop)]
pub struct FoundMessage {
    pub kind: u8,
    pub flags: u8,
    /// The place of its first byte in the image.
    pub place: u64,
    /// Its data.
    pub body: Bytes,
    /// Whether it stands in the header's chunk 0, and not in a continuation block.
    pub in_chunk_0: bool,
    ghost named: { kind ≡ 16 → 16 ≤ length body },
}
