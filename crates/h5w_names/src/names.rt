ghost use Rattle.std.specs.Prelude.{◌≡◌, ◌↔◌, [], ◌∷◌, ◌++◌, length, slice_get, option_map, Contains, IsTrue, IfOk, OnOk, OnErr};

use h5w_model::{Bytes, OutOfMemory};
use std::alloc::Global;
use std::marker::Model;

/// Names of datasets of one file, in the order given. One name may stand twice.
#[derive(Drop)]
pub struct Names {
    names: Vec<Bytes>,
}

impl Model for Names {
    ghost use Rattle.std.specs.Prelude.{ℕ, List};

    ghost Value = { List (List ℕ) };

    ghost view = { λ n. n.names.items };
}

impl Names {
    /// No name.
    pub fn new(alloc: Global) -> Names
        ensures { result ≡ [] }
    {
        Names {
            names: Vec::new(alloc),
        }
    }

    /// One name.
    pub fn of(alloc: Global, name: &[u8]) -> Result<Names, OutOfMemory>
        ensures { IfOk result (λ names. names ≡ name.now ∷ []) }
    {
        let mut names = Names::new(alloc);
        names.push(name)?;
        Ok(names)
    }

    /// Puts a name behind the others. An `Err` changes nothing.
    pub fn push(&mut self, name: &[u8]) -> Result<(), OutOfMemory>
        ensures ok { OnOk result (self.new ≡ self.old ++ name.now ∷ []) }
        ensures err { OnErr result (self.new ≡ self.old) }
    {
        let bytes = Vec::from_slice(*self.names.allocator(), name)?;
        self.names.push(Bytes::from_vec(bytes))?;
        Ok(())
    }

    /// How many names these are.
    pub fn len(&self) -> usize
        ensures { result ≡ length self.now }
    {
        self.names.len()
    }

    /// Whether there is no name.
    pub fn is_empty(&self) -> bool
        ensures { IsTrue result ↔ (self.now ≡ []) }
    {
        self.names.is_empty()
    }

    /// Name `k`, from 0 on.
    pub fn get(&self, k: usize) -> Option<&[u8]>
        ensures { option_map (λ b. b.now) result ≡ slice_get self.now k }
    {
        match self.names.get(k) {
            Some(name) => Some(name.as_slice()),
            None => None,
        }
    }

    /// Whether this is one of the names.
    pub fn has(&self, name: &[u8]) -> bool
        ensures { IsTrue result ↔ Contains self.now name.now }
    {
        self.names.iter().any(|n| n.as_slice() == name)
    }

    /// The names, to go over them in order.
    pub fn as_slice(&self) -> &[Bytes]
        ensures { result.now ≡ self.now }
    {
        self.names.as_slice()
    }
}
