//! The pointer that C keeps.
ghost use Rattle.std.specs.{Prelude.{◌≡◌, Some, None, Option}, Coded.codes};
ghost use Rattle.gaxtrel.specs.declared.held.Held.{Held as Kind};
ghost use Rattle.gaxtrel.specs.contracts.held.Held as kind;

use crate::held::Held;
use crate::loose::Loose;
use std::alloc::Global;
use std::marker::Model;

/// The pointer to what is boxed, or to nothing. Dropping it leaks that.
#[repr(C)]
#[derive(Drop)]
pub struct Handle {
    pub(crate) at: *mut u8,
    pub(crate) alloc: Global,
    pub ghost held: { Option Kind } by { Prim.hlevel (codes, kind.the_row.coded) },
}

impl Model for Handle {
    ghost use Rattle.gaxtrel.specs.Working.Owned.{held_owns};
    ghost use Rattle.gaxtrel.specs.contracts.held.Held as kind;

    ghost also_owns = { λ h. held_owns kind.the_row h.alloc h.at h.held };
}

impl Handle {
    /// Holds nothing.
    pub(crate) fn empty(alloc: Global) -> Handle
        ensures { result.held ≡ None }
    {
        Handle {
            at: std::ptr::null_mut(),
            alloc,
        }
    }

    /// Holds what is boxed.
    pub(crate) fn of(loose: Loose<Held, Global>) -> Handle
        ensures { result.held ≡ Some loose.value }
    {
        let Loose { at, alloc } = loose;
        Handle {
            at: at as *mut u8,
            alloc,
        }
    }

    /// What it holds.
    pub(crate) fn into_loose(self) -> Loose<Held, Global>
        requires { (held : Kind) × (self.held ≡ Some held) }
        ensures { self.held ≡ Some result.value }
    {
        let Handle { at, alloc } = self;
        Loose {
            at: at as *mut Held,
            alloc,
        }
    }
}

unsafe impl Send for Handle {}
