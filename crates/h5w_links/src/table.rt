//! The links of the root group as a list.
ghost use Rattle.std.specs.Prelude.{◌≡◌, ◌<◌, ◌++◌, [], ◌∷◌, length, map, IsOk, OnOk, OnErr};
ghost use Rattle.h5w_links.specs.Views.{link_view};

use crate::link::Link;
use smallvec::SmallVec;
use std::alloc::{AllocError, Global};
use std::marker::Model;

/// The links of the root group, in the order of their messages. Their names are those of the messages, without a copy. Up to 4 of
/// them need no memory.
#[derive(Drop)]
pub struct Links<'a> {
    list: SmallVec<Link<'a>, 4>,
}

impl<'a> Model for Links<'a> {
    ghost use Rattle.std.specs.Prelude.{◌≤◌, List, map};
    ghost use Rattle.h5w_model.specs.Links.{LinkFields};
    ghost use Rattle.h5w_links.specs.Views.{link_view};

    ghost Value = { List LinkFields };

    ghost view = { λ links. map link_view links.list.items };

    ghost invariant = { λ links. 4 ≤ links.list.capacity };
}

impl<'a> Links<'a> {
    /// No link.
    pub fn new(alloc: Global) -> Links<'a>
        ensures { result ≡ [] }
    {
        Links {
            list: SmallVec::new(alloc),
        }
    }

    /// Adds a link at the end. An `Err` changes nothing.
    pub fn push(&mut self, link: Link<'a>) -> Result<(), AllocError>
        ensures ok { OnOk result (self.new ≡ self.old ++ link_view link.entry ∷ []) }
        ensures err { OnErr result (self.new ≡ self.old) }
        ensures few { length self.old < 4 → IsOk result }
    {
        self.list.push(link)?;
        Ok(())
    }

    pub fn as_slice(&self) -> &[Link<'a>]
        ensures { map link_view result.now ≡ self.now }
    {
        self.list.as_slice()
    }
}
