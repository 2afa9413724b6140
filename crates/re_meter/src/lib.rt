//! The meter on which every search counts its work.
#![tactic(auto)]

ghost use Rattle.std.specs.Prelude.{◌≡◌};
ghost use Rattle.re_meter.specs.Meters.{many_built, many_reused, many_passed, fresh};

use std::marker::Model;

/// The work of searches. A step is a byte over which a set of positions, or a table of strings, was
/// advanced; a passed byte is one over which a search for a string, for many strings, or for a run
/// of sets went. Each count stops at the greatest `u64`. Only [`fresh_meter`] makes a meter.
#[derive(Drop)]
pub struct Meter {
    built: u64,
    reused: u64,
    passed: u64,
}

impl Model for Meter {
    ghost use Rattle.re_meter.specs.Meters.{Steps};

    ghost Value = { Steps };

    ghost view = { λ m. record { built = m.built; reused = m.reused; passed = m.passed } };
}

impl Meter {
    /// The number of steps that were computed.
    pub fn built(&self) -> u64
        ensures { result ≡ self.now.built }
    {
        self.built
    }

    /// The number of steps that were found in a cache.
    pub fn reused(&self) -> u64
        ensures { result ≡ self.now.reused }
    {
        self.reused
    }

    /// The number of bytes that were passed.
    pub fn passed(&self) -> u64
        ensures { result ≡ self.now.passed }
    {
        self.passed
    }

    /// Counts `steps` more computed steps.
    pub fn add_built(&mut self, steps: u64)
        ensures { self.new ≡ many_built steps self.old }
    {
        self.built = self.built.saturating_add(steps);
    }

    /// Counts `steps` more steps found in a cache.
    pub fn add_reused_steps(&mut self, steps: u64)
        ensures counted { self.new ≡ many_reused steps self.old }
        ensures none { steps ≡ 0 → self.new ≡ self.old }
    {
        self.reused = self.reused.saturating_add(steps);
    }

    /// Counts one more step found in a cache.
    pub fn add_reused(&mut self)
        ensures { self.new ≡ many_reused 1 self.old }
    {
        self.reused = self.reused.saturating_add(1);
    }

    /// Counts `bytes` more passed bytes.
    pub fn add_passed(&mut self, bytes: usize)
        ensures { self.new ≡ many_passed bytes self.old }
    {
        self.passed = self.passed.saturating_add(bytes as u64);
    }
}

/// A meter at 0.
pub fn fresh_meter() -> Meter
    ensures { result ≡ fresh }
{
    Meter {
        built: 0,
        reused: 0,
        passed: 0,
    }
}
