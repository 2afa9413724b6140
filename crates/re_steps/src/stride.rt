//! How far apart the rows of a table lie.
ghost use Rattle.std.specs.Prelude.{◌≡◌, ℕ, ◌*◌, ◌/◌, ◌^◌, ◌<◌, ◌≤◌};

use std::marker::Model;

/// How far apart rows lie: a power of two up to 256, so that a row's number is found without a
/// division. Contracts see it as that power.
#[derive(Drop)]
pub struct Stride {
    shift: u32,
}

impl Model for Stride {
    ghost use Rattle.std.specs.Prelude.{ℕ, ◌^◌, ◌≤◌};

    ghost Value = { ℕ };

    ghost view = { λ s. 2 ^ s.shift };

    ghost invariant = { λ s. s.shift ≤ 8 };
}

impl Stride {
    /// The smallest stride for rows of `width` cells.
    pub fn for_width(width: usize) -> Stride
        requires { width ≤ 256 }
        ensures wide { width ≤ result }
        ensures few { result ≤ 256 }
    {
        let mut shift = 0;
        'shifts: while shift < 8 && (1usize << shift) < width {
            shift += 1;
        }
        Stride { shift }
    }

    /// How many cells a row has.
    #[inline(always)]
    pub fn width(&self) -> usize
        ensures width { result ≡ self.now }
        ensures few { result ≤ 256 }
    {
        1 << self.shift
    }

    /// Where the row of this number begins.
    #[inline(always)]
    pub fn row(&self, number: usize) -> usize
        requires { number * self.now < 2 ^ 64 }
        ensures { result ≡ number * self.now }
    {
        number << self.shift
    }

    /// The number of the row that begins here.
    #[inline(always)]
    pub fn number(&self, row: usize) -> usize
        ensures { result ≡ row / self.now }
    {
        row >> self.shift
    }
}
