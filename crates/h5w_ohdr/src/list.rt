//! The list of a header's messages.
ghost use Rattle.std.specs.Prelude.{◌≡◌, ◌++◌, [], ◌∷◌, length, OnOk, OnErr};

use h5w_model::{Msg, OutOfMemory};
use std::alloc::Global;
use std::marker::Model;

/// The messages of a header, in order.
#[derive(Drop)]
pub struct Msgs {
    list: Vec<Msg>,
}

impl Model for Msgs {
    ghost use Rattle.std.specs.Prelude.{List};
    ghost use Rattle.h5w_model.specs.declared.message.Msg.{Msg};

    ghost Value = { List Msg };

    ghost view = { λ m. m.list.items };
}

impl Msgs {
    /// No message.
    pub fn new(alloc: Global) -> Msgs
        ensures { result ≡ [] }
    {
        Msgs {
            list: Vec::new(alloc),
        }
    }

    /// These messages, without a copy.
    pub fn from_vec(list: Vec<Msg>) -> Msgs
        ensures { result ≡ list.items }
    {
        Msgs { list }
    }

    /// The messages as a vector, without a copy.
    pub fn into_vec(self) -> Vec<Msg>
        ensures { result.items ≡ self }
    {
        self.list
    }

    pub fn as_slice(&self) -> &[Msg]
        ensures { result.now ≡ self.now }
    {
        self.list.as_slice()
    }

    /// Adds a message at the end. An `Err` changes nothing.
    pub fn push(&mut self, m: Msg) -> Result<(), OutOfMemory>
        ensures ok { OnOk result (self.new ≡ self.old ++ m ∷ []) }
        ensures err { OnErr result (self.new ≡ self.old) }
    {
        self.list.push(m)?;
        Ok(())
    }
}
