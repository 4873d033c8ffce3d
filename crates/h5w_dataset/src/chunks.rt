//! The chunks that a dataset's rows need.
ghost use Rattle.std.specs.Prelude.{◌≡◌, ◌<◌, ◌≤◌, ◌^◌, false};
ghost use Rattle.h5w_model.specs.Findings.{chunk_bytes};
ghost use Rattle.h5w_model.specs.Logs.{div_up};
ghost use Rattle.h5w_model.specs.Tables.{bands, chunks_across, format_limits, keys_across, limit_of, needed};
ghost use Rattle.h5w_dataset.specs.Described.{described_of};

use crate::dataset::Dataset;
use h5w_ea::CHUNKS;
use h5w_layout::IndexKind;

/// How many chunks are read of a tree at most.
const TREE: u64 = 1_000_000;

/// How many parts of size `d` it takes for `n`.
#[tactic(auto, using(crate::proofs::ChunkLemmas::div_up_even, crate::proofs::ChunkLemmas::div_up_odd, crate::proofs::ChunkLemmas::div_up_within))]
fn div_up(n: u64, d: u64) -> u128
    requires { 0 < d }
    ensures exact { result ≡ div_up n d }
    ensures within { result ≤ n }
{
    let whole = u128::from(n / d);
    if n % d == 0 { whole } else { whole + 1 }
}

impl Dataset {
    /// How many bands of chunks its rows take.
    pub fn bands(&self) -> u128
        ensures exact { result ≡ bands (described_of self.now) }
        ensures fits { result < 2 ^ 64 }
    {
        div_up(self.shape.rows, self.layout.chunk.0)
    }

    /// How many chunks stand side by side.
    pub fn across(&self) -> u128
        ensures exact { result ≡ chunks_across (described_of self.now) }
        ensures fits { result < 2 ^ 64 }
    {
        div_up(self.shape.cols, self.layout.chunk.1)
    }

    /// How many keys of its index stand side by side.
    pub fn keys_across(&self) -> u64
        ensures { result ≡ keys_across (described_of self.now) }
    {
        match self.layout.index {
            IndexKind::Array => 1,
            IndexKind::Tree => self.across() as u64,
        }
    }

    /// How many chunks its rows need.
    #[tactic(auto, using(crate::proofs::ChunkLemmas::product_fits))]
    pub fn needed(&self) -> u128
        ensures { result ≡ needed (described_of self.now) }
    {
        self.bands() * self.across()
    }

    /// How many chunks are read at most: those of an array whose data blocks have no pages, or so many of a tree.
    pub fn limit(&self) -> u64
        ensures exact { result ≡ limit_of format_limits (described_of self.now).layout.index }
        ensures few { result ≤ 1000000 }
        ensures array { self.now.shape.growing ≡ false → result ≤ format_limits.array }
    {
        if self.shape.growing { TREE } else { CHUNKS }
    }

    /// How many bytes a chunk has.
    pub fn chunk_bytes(&self) -> u64
        ensures { result ≡ chunk_bytes (described_of self.now) }
    {
        self.layout.chunk.0 * self.layout.chunk.1 * u64::from(self.int_type.size)
    }
}
