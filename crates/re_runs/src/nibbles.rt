//! Tests for sets of bytes by look-ups of a byte's halves. They are the same for all sets, so that
//! many bytes are tested at once.
ghost use Rattle.std.specs.Prelude.{◌≡◌, ◌<◌, ◌+◌, ◌≤◌, IfSome, IsTrue, length, slice_index};
ghost use Rattle.{re_trees.specs.Working.Trees.members, re_runs.specs.Working.Runs.Covers};
ghost use Rattle.re_runs.specs.Working.Runs.{HasBitFor, HasBitsOfEach, bits_of, sets_of_each};
ghost use Rattle.memchr.specs.Lanes.{HasLanes};

use crate::lanes::{both, by_high, by_low, load};
use re_trees::ByteSet;
use std::simd::prelude::*;

/// A table for the low four bits of a byte and one for the high four. A byte passes if both have a
/// bit in common for it. Each byte of a set passes, and perhaps others.
#[derive(Clone, Copy, Drop)]
pub struct Nibbles {
    /// By the low four bits.
    pub low: [u8; 16],
    /// By the high four.
    pub high: [u8; 16],
}

impl Nibbles {
    /// The test for the set. There always is one.
    pub fn of(set: &ByteSet) -> Option<Nibbles>
        ensures { IfSome result (λ nibbles. Covers nibbles (members set.now)) }
    {
        let nibbles = tables_of(set);
        if !set.all_pass(|byte| nibbles.bits(byte) != 0) {
            return None;
        }
        Some(nibbles)
    }

    /// The test for the sets that runs have at a place: each byte of one passes with a bit of its run, one
    /// of eight. `None` if a run has no set there.
    pub fn of_each(runs: &[Vec<ByteSet>], at: usize) -> Option<Nibbles>
        ensures { IfSome result (λ nibbles. HasBitsOfEach nibbles (sets_of_each runs.now) at) }
    {
        let nibbles = tables_of_each(runs, at);
        'runs: for number in 0..runs.len() {
            let set = runs[number].get(at)?;
            if !nibbles.has_bit_for(number % 8, set) {
                return None;
            }
        }
        Some(nibbles)
    }

    // Whether both tables have the bit for each byte of the set.
    fn has_bit_for(&self, bit: usize, set: &ByteSet) -> bool
        requires { bit < 8 }
        ensures { IsTrue result → HasBitFor self.now bit (members set.now) }
    {
        set.all_pass(|byte| self.bits(byte) >> bit & 1 == 1)
    }

    // Adds a bit for the bytes of the set.
    fn add(&mut self, bit: usize, set: &ByteSet)
        requires { bit < 8 }
    {
        for byte in *set {
            self.low[(byte % 16) as usize] |= 1 << bit;
            self.high[(byte / 16) as usize] |= 1 << bit;
        }
    }

    /// The bits that both tables have for the byte.
    #[inline(always)]
    pub fn bits(&self, byte: u8) -> u8
        ensures { result ≡ bits_of self.now byte }
    {
        self.low[(byte % 16) as usize] & self.high[(byte / 16) as usize]
    }

    /// The same for each of 32 bytes of the line.
    #[inline(always)]
    pub fn lanes(&self, line: &[u8], i: usize) -> u8x32
        requires { i + 32 ≤ length line.now }
        ensures { HasLanes result (λ k. bits_of self.now (slice_index line.now (i + k))) }
    {
        let bytes = load(line, i);
        both(by_low(&self.low, bytes), by_high(&self.high, bytes))
    }
}

// The tables of the set. High halves that go with the same low halves share one of eight bits, and
// the last bit is for all that are left. A high half without members has no bit.
fn tables_of(set: &ByteSet) -> Nibbles {
    let mut nibbles = Nibbles {
        low: [0; 16],
        high: [0; 16],
    };
    let halves = rows_of(set);
    let mut rows = [0u16; 8];
    for half in 0..16usize {
        let row = halves[half];
        if row == 0 {
            continue;
        }
        let group = group_of(&rows, row);
        rows[group] |= row;
        nibbles.high[half] = 1 << group;
        for low in 0..16usize {
            if row >> low & 1 != 0 {
                nibbles.low[low] |= 1 << group;
            }
        }
    }
    nibbles
}

// The tables of the sets that runs have at a place, with a bit for each run.
fn tables_of_each(runs: &[Vec<ByteSet>], at: usize) -> Nibbles {
    let mut nibbles = Nibbles {
        low: [0; 16],
        high: [0; 16],
    };
    for number in 0..runs.len() {
        if let Some(set) = runs[number].get(at) {
            nibbles.add(number % 8, set);
        }
    }
    nibbles
}

// For each high half the low halves that go with it, one bit for each.
fn rows_of(set: &ByteSet) -> [u16; 16] {
    let mut rows = [0; 16];
    for byte in *set {
        rows[(byte / 16) as usize] |= 1 << (byte % 16);
    }
    rows
}

// The group of the row, or else the first that is free, or else the last.
fn group_of(rows: &[u16; 8], row: u16) -> usize
    ensures { result < 8 }
{
    for group in 0..7usize {
        if rows[group] == row || rows[group] == 0 {
            return group;
        }
    }
    7
}
