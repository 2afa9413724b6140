//! Tests for sets of bytes by the bits that all their bytes share, as the two cases of a letter do.
ghost use Rattle.std.specs.Prelude.{◌≡◌, ◌==◌, ◌↔◌, ◌+◌, ◌≤◌, ℕ, IfSome, IsTrue, length};
ghost use Rattle.std.specs.Prelude.{slice_index};
ghost use Rattle.{re_trees.specs.Working.Trees.members, re_runs.specs.Working.Runs.AreAlike};
ghost use Rattle.{re_runs.specs.Working.Runs.{HasBits, mark_of}, memchr.specs.Lanes.HasLanes};

use crate::lanes::{load, with_bits};
use re_trees::ByteSet;
use std::simd::prelude::*;

/// Bits that all bytes of a set share. Other bytes may have them too.
#[derive(Clone, Copy, Drop)]
pub struct Alike {
    /// The bits that are tested.
    pub asked: u8,
    /// Their values.
    pub bits: u8,
}

impl Alike {
    /// The bits of the set. There always are some, if only none.
    pub fn of(set: &ByteSet) -> Option<Alike>
        ensures { IfSome result (λ alike. AreAlike alike (members set.now)) }
    {
        let alike = bits_of(set);
        if !set.all_pass(|byte| alike.has(byte)) {
            return None;
        }
        Some(alike)
    }

    /// No bits, which all bytes have.
    pub fn any() -> Alike
        ensures { (x : ℕ) → HasBits result x }
    {
        Alike { asked: 0, bits: 0 }
    }

    /// Whether the byte has them.
    pub fn has(self, byte: u8) -> bool
        ensures { IsTrue result ↔ HasBits self byte }
    {
        byte & self.asked == self.bits
    }

    /// For each of 32 bytes of the line 255 if it has them, and else 0.
    #[inline(always)]
    pub fn lanes(&self, line: &[u8], i: usize) -> u8x32
        requires { i + 32 ≤ length line.now }
        ensures { HasLanes result (λ k. mark_of self.now (slice_index line.now (i + k))) }
    {
        with_bits(load(line, i), self.asked, self.bits)
    }

    /// Whether all bits but at most one are tested, so that at most two bytes have them.
    pub fn are_nearly_all(self) -> bool {
        let open = !self.asked;
        open & open.wrapping_sub(1) == 0
    }
}

// The bits that are 1 in all bytes of the set, and those that are 0.
fn bits_of(set: &ByteSet) -> Alike {
    let mut ones = u8::MAX;
    let mut zeros = u8::MAX;
    for byte in *set {
        ones &= byte;
        zeros &= !byte;
    }
    Alike {
        asked: ones | zeros,
        bits: ones,
    }
}
