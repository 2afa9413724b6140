//! What a call takes.
ghost use Rattle.std.specs.Prelude.{◌≡◌};
ghost use Rattle.{re_meter.specs.Meters.fresh, gaxtrel.specs.Calls.steps_of};

use re_search::Meter;

/// The work of one call. A step is a byte over which a set of positions, or a table of strings, was
/// advanced; a passed byte is one over which a search for strings went.
#[repr(C)]
#[derive(Clone, Copy, Drop)]
pub struct GaxtrelWork {
    /// The number of steps that were computed.
    pub built: u64,
    /// The number of steps that were found in a cache.
    pub reused: u64,
    /// The number of bytes that were passed.
    pub passed: u64,
}

/// No work.
pub(crate) fn no_work() -> GaxtrelWork
    ensures { steps_of result ≡ fresh }
{
    GaxtrelWork {
        built: 0,
        reused: 0,
        passed: 0,
    }
}

/// The work that the meter counted.
pub(crate) fn work_of(meter: &Meter) -> GaxtrelWork
    ensures { steps_of result ≡ meter.now }
{
    GaxtrelWork {
        built: meter.built(),
        reused: meter.reused(),
        passed: meter.passed(),
    }
}
