//! What a handle points to.
ghost use Rattle.std.specs.Prelude.{◌≡◌, Some, None, IsSome, Option};
ghost use Rattle.h5w_handles.specs.declared.held.Held.{Held};
ghost use Rattle.h5w_handles.specs.Owners.{owner_owns, held_coded};

use crate::held::Held;
use crate::parts::Parts;
use std::alloc::Global;
use std::marker::Model;

/// A reader or a writer behind one pointer, or nothing.
#[derive(Drop)]
#[repr(C)]
pub struct Owner {
    at: *mut u8,
    alloc: Global,
    pub ghost held: { Option Held } by { held_coded },
}

impl Model for Owner {
    ghost also_owns = { λ h. owner_owns h.alloc h.at h.held };
}

impl Owner {
    /// It points to nothing.
    pub fn none(alloc: Global) -> Owner
        ensures { result.held ≡ None }
    {
        Owner {
            at: std::ptr::null_mut(),
            alloc,
        }
    }

    fn of_parts(parts: Parts<Held, Global>) -> Owner
        ensures { result.held ≡ Some parts.value }
    {
        let Parts { ptr, alloc } = parts;
        let at = ptr as *mut u8;
        Owner { at, alloc }
    }

    fn into_parts(self) -> Parts<Held, Global>
        requires { IsSome self.held }
        ensures { Some result.value ≡ self.held }
    {
        let Owner { at, alloc } = self;
        let ptr = at as *mut Held;
        Parts { ptr, alloc }
    }

    /// It points to what the box has.
    pub fn of(b: Box<Held>) -> Owner
        ensures { result.held ≡ Some b.value }
    {
        Owner::of_parts(Parts::of(b))
    }

    /// The box of what it points to.
    pub fn into_box(self) -> Box<Held>
        requires { IsSome self.held }
        ensures { Some result.value ≡ self.held }
    {
        self.into_parts().into_box()
    }
}
