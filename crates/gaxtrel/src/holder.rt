//! What C has of a matcher or a session.
ghost use Rattle.std.specs.Prelude.{◌≡◌, true, Some, None, MatchOption};
ghost use Rattle.{re_meter.specs.Meters.fresh, gaxtrel.specs.Working.Owned.is_held};
ghost use Rattle.gaxtrel.specs.Calls.{IsEmpty, steps_of};

use crate::handle::Handle;
use crate::held::Held;
use crate::loose::Loose;
use crate::work::{GaxtrelWork, no_work, work_of};
use re_auto::fresh_meter;
use re_search::Meter;
use std::alloc::Global;
use std::mem::replace;

/// Patterns, a session or nothing. C makes one of zeros, which holds nothing, and then only passes
/// its address and reads `work`.
#[repr(C)]
pub struct GaxtrelHolder {
    pub(crate) handle: Handle,
    pub(crate) full: bool,
    /// The work of the last call.
    pub work: GaxtrelWork,
    ghost right: { full ≡ is_held handle.held },
}

impl GaxtrelHolder {
    /// Holds nothing.
    pub(crate) fn empty(alloc: Global) -> GaxtrelHolder
        ensures { IsEmpty result.handle.held result.work }
    {
        GaxtrelHolder {
            handle: Handle::empty(alloc),
            full: false,
            work: no_work(),
        }
    }

    /// Holds this, after a call that took what the meter counted.
    pub(crate) fn of(held: Box<Held>, meter: &Meter) -> GaxtrelHolder
        ensures held { result.handle.held ≡ Some held.value }
        ensures work { steps_of result.work ≡ meter.now }
    {
        GaxtrelHolder {
            handle: Handle::of(Loose::of(held)),
            full: true,
            work: work_of(meter),
        }
    }

    /// Takes out what it holds. It then holds nothing.
    pub(crate) fn take(&mut self, alloc: Global) -> Option<Box<Held>>
        ensures taken { MatchOption result (self.old.handle.held ≡ None)
            (λ held. self.old.handle.held ≡ Some held.value) }
        ensures none { IsEmpty self.new.handle.held self.new.work }
    {
        replace(self, GaxtrelHolder::empty(alloc)).into_box()
    }

    /// Holds this again, after a call that did nothing and answers so.
    pub(crate) fn put_back(&mut self, held: Box<Held>, answer: u32) -> u32
        ensures answer { result ≡ answer }
        ensures held { self.new.handle.held ≡ Some held.value }
        ensures work { steps_of self.new.work ≡ fresh }
    {
        *self = GaxtrelHolder::of(held, &fresh_meter());
        answer
    }

    // What it holds.
    fn into_box(self) -> Option<Box<Held>>
        ensures { MatchOption result (self.handle.held ≡ None)
            (λ held. self.handle.held ≡ Some held.value) }
    {
        let GaxtrelHolder {
            handle,
            full,
            work: _work,
        } = self;
        if full {
            return Some(handle.into_loose().into_box());
        }
        None
    }
}

impl Drop for GaxtrelHolder {
    fn drop(self) {
        drop(self.into_box());
    }
}

// C may hand a matcher or a session from one thread to another.
fn crosses_threads<T: Send>(_: &T) {}

/// What C has may go to another thread.
pub(crate) fn holder_crosses_threads(holder: &GaxtrelHolder) {
    crosses_threads(holder);
}
