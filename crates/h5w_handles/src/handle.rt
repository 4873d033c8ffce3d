//! A handle as C has it.
ghost use Rattle.std.specs.Prelude.{◌≡◌, IfSome, IsFalse, IsTrue, is_none, is_some, Some, None};
ghost use Rattle.std.specs.Option.{option_map};

use crate::held::Held;
use crate::owner::Owner;
use std::alloc::Global;
use std::mem;

/// A box with this value; none if memory is wanting, and then the value is let go.
fn boxed<T: Drop>(alloc: Global, value: T) -> Option<Box<T>>
    ensures { IfSome result (λ b. b.value ≡ value) }
{
    match Box::new(alloc, value) {
        Ok(b) => Some(b),
        Err(_) => None,
    }
}

/// A handle as C has it: all zero, which holds nothing, or as a call left it.
#[repr(C)]
#[derive(Drop)]
pub struct Handle {
    live: bool,
    /// Contracts name what it holds by `at.held`.
    pub at: Owner,
    ghost held: { live ≡ is_some at.held },
}

impl Handle {
    /// A handle that holds nothing.
    pub fn none(alloc: Global) -> Handle
        ensures { result.at.held ≡ None }
    {
        Handle {
            live: false,
            at: Owner::none(alloc),
        }
    }

    /// Whether it holds nothing.
    pub fn is_none(&self) -> bool
        ensures { result ≡ is_none self.now.at.held }
    {
        !self.live
    }

    /// What it holds, which it does not hold any more.
    pub fn take(&mut self, alloc: Global) -> Option<Box<Held>>
        ensures taken { option_map (λ b. b.value) result ≡ self.old.at.held }
        ensures none { self.new.at.held ≡ None }
    {
        let old = mem::replace(self, Handle::none(alloc));
        if old.live {
            Some(old.at.into_box())
        } else {
            None
        }
    }

    /// It holds this.
    pub fn put(&mut self, held: Box<Held>)
        ensures { self.new.at.held ≡ Some held.value }
    {
        *self = Handle {
            live: true,
            at: Owner::of(held),
        };
    }

    /// It holds this, unless memory is wanting: then this is let go, and it holds what it held.
    pub fn hold(&mut self, alloc: Global, held: Held) -> bool
        ensures yes { IsTrue result → self.new.at.held ≡ Some held }
        ensures no { IsFalse result → self.new.at.held ≡ self.old.at.held }
    {
        let Some(held) = boxed(alloc, held) else {
            return false;
        };
        self.put(held);
        true
    }

    /// It holds nothing any more, and what it held is let go.
    pub fn close(&mut self, alloc: Global)
        ensures { self.new.at.held ≡ None }
    {
        drop(self.take(alloc));
    }
}
