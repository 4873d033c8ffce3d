//! Which blocks wait for which, so that a block is written only after each block that it names.
//!
//! A block that is written anew waits for its children: as long as an edge leads from a child to it, it is not
//! ready. No block may wait for itself, so an edge that closes a cycle is refused.
#![tactic(auto)]

ghost use Rattle.std.specs.Prelude.{◌≡◌, ◌≢◌, ◌⊎◌, ◌↔◌, ◌==◌, ℕ, not, [], ◌∷◌, ◌++◌, IsTrue, IfOk, OnOk, OnErr, Err};
ghost use Rattle.std.specs.List.{All, filter};
ghost use Rattle.h5w_deps.specs.Edges.{edge, Reaches, IsAcyclic};

mod walk;

use crate::walk::reaches;
use h5w_model::OutOfMemory;
use std::alloc::{AllocError, AllocFailed, Global};
use std::marker::Model;
use thiserror::Error;

/// `parent` waits for `child`.
#[derive(Clone, Copy, Debug, PartialEq, Eq)]
pub struct Edge {
    pub child: u32,
    pub parent: u32,
}

/// Why an edge is not added.
#[derive(Clone, Copy, Debug, PartialEq, Eq, Error)]
pub enum DepsError {
    /// The parent would wait for itself.
    #[error("the edge closes a cycle")]
    Cycle,
    /// A growth was refused. No clause ties it to anything.
    #[error("out of memory")]
    OutOfMemory,
}

impl From<AllocError> for DepsError {
    ghost use Rattle.h5w_deps.specs.declared.DepsError.TheVariants.{OutOfMemory};

    ghost from_gives = { λ _ e. e ≡ OutOfMemory };

    fn from(_e: AllocError) -> DepsError {
        DepsError::OutOfMemory
    }
}

impl<T: Drop> From<AllocFailed<T>> for DepsError {
    ghost use Rattle.h5w_deps.specs.declared.DepsError.TheVariants.{OutOfMemory};

    ghost from_gives = { λ _ e. e ≡ OutOfMemory };

    fn from(_e: AllocFailed<T>) -> DepsError {
        DepsError::OutOfMemory
    }
}

/// The edges between blocks that wait to be written, each block by its number.
#[derive(Debug, Drop)]
pub struct Deps {
    edges: Vec<Edge>,
}

impl Model for Deps {
    ghost use Rattle.std.specs.Prelude.{List};
    ghost use Rattle.h5w_deps.specs.declared.Edge.{Edge};

    ghost Value = { List Edge };

    ghost view = { λ d. d.edges.items };
}

impl Deps {
    /// No block waits.
    pub fn new(alloc: Global) -> Deps
        ensures { result ≡ [] }
    {
        Deps {
            edges: Vec::new(alloc),
        }
    }

    /// From now on `parent` waits for `child`. An edge that would let a block wait for itself is refused: one comes
    /// from its parent up to its child.
    pub fn add(&mut self, child: u32, parent: u32) -> Result<(), DepsError>
        ensures added { OnOk result (self.new ≡ self.old ++ edge child parent ∷ []) }
        ensures cycle { (result ≡ Err DepsError.OutOfMemory) ⊎ ((result ≡ Err DepsError.Cycle) ↔ Reaches self.old parent child) }
        ensures itself { child ≡ parent → result ≡ Err DepsError.Cycle }
        ensures kept { OnErr result (self.new ≡ self.old) }
        ensures acyclic { IsAcyclic self.old → IsAcyclic self.new }
    {
        if child == parent {
            return Err(DepsError::Cycle);
        }
        if reaches(&self.edges, parent, child)? {
            return Err(DepsError::Cycle);
        }
        self.edges.push(Edge { child, parent })?;
        Ok(())
    }

    /// Whether the block waits for none: no edge leads up to it.
    pub fn ready(&self, id: u32) -> bool
        ensures { IsTrue result ↔ All (λ e. e.parent ≢ id) self.now }
    {
        self.edges.iter().all(|e| e.parent != id)
    }

    /// No block waits for this one any longer: its edges to its parents end, and no others. Takes no memory.
    pub fn done(&mut self, id: u32)
        ensures ended { self.new ≡ filter (λ e. not (e.child == id)) self.old }
        ensures acyclic { IsAcyclic self.old → IsAcyclic self.new }
    {
        self.edges.retain(|e| e.child != id);
    }

    /// The same edges.
    pub fn copy(&self) -> Result<Deps, OutOfMemory>
        ensures { IfOk result (λ d. d ≡ self.now) }
    {
        Ok(Deps {
            edges: self.edges.clone()?,
        })
    }
}
