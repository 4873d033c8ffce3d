//! The nodes of a tree that were visited and ended well.
ghost use Rattle.std.specs.Prelude.{◌≡◌, ℕ, None, Some, Ok, Err, OnOk, OnErr, IfErr};
ghost use Rattle.std.specs.BTreeMap.{IsUnchanged, Updates};
ghost use Rattle.h5w_check.specs.Known.{known, name_cmp};

use crate::error::CheckError;
use crate::span::Span;
use std::alloc::Global;
use std::collections::BTreeMap;

/// What is known of the keys under each node that ended well, by its depth, its address, and how many records it was said to have.
#[derive(Drop)]
pub struct KnownNodes {
    spans: BTreeMap<(u64, (u64, u64)), Span>,
}

impl KnownNodes {
    /// No node.
    pub fn new(alloc: Global) -> KnownNodes
        ensures { (depth at n : ℕ) → known result depth at n ≡ None }
    {
        KnownNodes {
            spans: BTreeMap::new(alloc),
        }
    }

    /// What is known of the keys under the node, where it ended well.
    pub fn get(&self, depth: u64, at: u64, n: u64) -> Option<Span>
        ensures { result ≡ known self.now depth at n }
    {
        self.spans.get(&(depth, (at, n))).copied()
    }

    /// The node ended well, and this is known of the keys under it.
    pub fn put(&mut self, depth: u64, at: u64, n: u64, span: Span) -> Result<(), CheckError>
        ensures ok { OnOk result (Updates name_cmp self.old.spans self.new.spans (depth, (at, n)) (Some span)) }
        ensures unchanged { OnErr result (IsUnchanged self.old.spans self.new.spans) }
        ensures refused { IfErr result (λ e. e ≡ CheckError.OutOfMemory) }
    {
        match self.spans.insert((depth, (at, n)), span) {
            Ok(_) => Ok(()),
            Err(_) => Err(CheckError::OutOfMemory),
        }
    }
}
