//! The blocks that an attempt keeps: the 16 that were used last.
ghost use Rattle.std.specs.Prelude.{◌≡◌, ◌+◌, ◌*◌, ◌<◌, ◌^◌, ℕ, List, [], Some, None, IfOk, OnOk, MatchOption};
ghost use Rattle.std.proofs.Props.{props};
ghost use Rattle.h5w_lookup.specs.Blocks.{block_number};
ghost use Rattle.h5w_lookup.specs.Keyed.{IsKeyed};

use crate::block::Block;
use crate::content::Content;
use h5w_model::OutOfMemory;
use lru::LruCache;
use std::alloc::Global;
use std::num::NonZeroUsize;

/// How many blocks are kept.
const CAPACITY: usize = 16;

/// The blocks that an attempt keeps.
#[derive(Drop)]
pub struct Store {
    cache: LruCache<u128, Block>,
    ghost keyed: { IsKeyed cache.entries } by { Prim.hlevel props },
    ghost room: { cache.cap ≡ 16 },
}

/// The number under which a block stands.
fn number(kind: u8, place: u64, len: u64) -> u128
    requires { len < 2 ^ 32 }
    ensures { result ≡ block_number kind place len }
{
    (u128::from(kind) * (1 << 32) + u128::from(len)) * (1 << 64) + u128::from(place)
}

impl Store {
    ghost use Rattle.h5w_model.specs.Programs.{kept_bytes, used};
    ghost use Rattle.h5w_lookup.specs.Contents.{bytes_in};
    ghost use Rattle.h5w_lookup.specs.Stores.{Keeps, kept};

    /// No blocks.
    pub fn new(alloc: Global) -> Result<Store, OutOfMemory>
        ensures { IfOk result (λ s. kept s ≡ []) }
    {
        let cache = LruCache::new(alloc, NonZeroUsize::new(CAPACITY).unwrap())?;
        Ok(Store { cache })
    }

    /// What a kept block says.
    pub fn look(&self, kind: u8, place: u64, len: u64) -> Option<&Content>
        requires { len < 2 ^ 32 }
        ensures { MatchOption result (kept_bytes kind place len (kept self.now) ≡ None) (λ content. Keeps kind place len (kept self.now) content.now) }
    {
        let key = number(kind, place, len);
        match self.cache.peek(&key) {
            Some(block) => Some(&block.content),
            None => None,
        }
    }

    /// Uses a kept block, which is the last used from now on.
    pub fn touch(&mut self, kind: u8, place: u64, len: u64)
        requires { len < 2 ^ 32 }
        ensures { (bytes : List ℕ) → kept_bytes kind place len (kept self.old) ≡ Some bytes → kept self.new ≡ used 16 kind place len bytes (kept self.old) }
    {
        // keys are apart, and no more than the capacity
        let _count = self.cache.len();
        let key = number(kind, place, len);
        self.cache.promote(&key);
    }

    /// Keeps a block, which is the last used from now on.
    pub fn put(&mut self, block: Block) -> Result<(), OutOfMemory>
        ensures { OnOk result (kept self.new ≡ used 16 block.kind block.place block.len (bytes_in block.content) (kept self.old)) }
    {
        // keys are apart, and no more than the capacity
        let _count = self.cache.len();
        let key = number(block.kind, block.place, block.len);
        self.cache.put(key, block)?;
        Ok(())
    }
}
