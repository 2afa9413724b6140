//! Tests of the bytes after a place, for 32 places at once.
ghost use Rattle.std.specs.Prelude.{IfSome, slice_index, ◌≤◌, ◌≡◌, ◌≢◌, length, ℕ, ◌+◌, ◌<◌, true};
ghost use Rattle.std.specs.Int.{bit_at};
ghost use Rattle.memchr.specs.{Find.Nowhere, Lanes.HasLanes};
ghost use Rattle.re_runs.specs.Working.Runs.{IsProbeOf, AreProbesOf, AllPass, PassesAt, mark_of};
ghost use Rattle.re_runs.specs.Working.Runs.{HaveBitsAt, HaveRoom, IsNoWider, Runs, bits_of};
ghost use Rattle.re_runs.specs.Working.Runs.{half_of, sets_of_each};

use crate::alike::Alike;
use crate::lanes::{both, by_low, lesser, load, nonzero};
use crate::nibbles::Nibbles;
use re_trees::ByteSet;
use std::simd::prelude::*;

/// Tests for the byte at this distance after a place.
#[derive(Clone, Copy, Drop)]
pub struct Probe {
    /// The distance.
    pub at: usize,
    /// The test by look-ups.
    pub nibbles: Nibbles,
    /// The test of bits.
    pub alike: Alike,
}

impl Probe {
    /// The tests for the sets that the runs have at this distance; `None` if that is not below `width`.
    pub fn of(runs: &[Vec<ByteSet>], width: usize, at: usize) -> Option<Probe>
        requires { IsNoWider width (sets_of_each runs.now) }
        ensures { IfSome result (λ probe. IsProbeOf probe width (sets_of_each runs.now)) }
    {
        if at >= width {
            return None;
        }
        if runs.len() > 1 {
            let nibbles = Nibbles::of_each(runs, at)?;
            let alike = Alike::any();
            return Some(Probe { at, nibbles, alike });
        }
        let set = runs.first()?.get(at)?;
        let nibbles = Nibbles::of(set)?;
        let alike = Alike::of(set)?;
        Some(Probe { at, nibbles, alike })
    }

    // The tests at this distance, or these if there are none.
    fn or_at(self, runs: &[Vec<ByteSet>], width: usize, at: Option<&usize>) -> Probe
        requires wide { IsNoWider width (sets_of_each runs.now) }
        requires own { IsProbeOf self width (sets_of_each runs.now) }
        ensures { IsProbeOf result width (sets_of_each runs.now) }
    {
        let Some(at) = at else {
            return self;
        };
        match Probe::of(runs, width, *at) {
            Some(probe) => probe,
            None => self,
        }
    }

    // The bits of the byte at this distance after the place; none if the line ends before it.
    #[inline(always)]
    fn bits_at(&self, line: &[u8], place: usize) -> u8
        ensures { place + self.now.at < length line.now →
            result ≡ bits_of self.now.nibbles (slice_index line.now (place + self.now.at)) }
    {
        match line.get(place.saturating_add(self.at)) {
            Some(byte) => self.nibbles.bits(*byte),
            None => 0,
        }
    }

    // What is not 0 for those of 32 places after which the byte passes by look-ups.
    #[inline(always)]
    fn looked_up(&self, line: &[u8], place: usize) -> u8x32
        requires { place + 32 + self.now.at ≤ length line.now }
        ensures { HasLanes result
            (λ k. bits_of self.now.nibbles (slice_index line.now (place + k + self.now.at))) }
    {
        self.nibbles.lanes(line, place + self.at)
    }

    // What the table has for the low half of each byte alone, which says less and costs half.
    #[inline(always)]
    fn half_looked_up(&self, line: &[u8], place: usize) -> u8x32
        requires { place + 32 + self.now.at ≤ length line.now }
        ensures { HasLanes result
            (λ k. half_of self.now.nibbles (slice_index line.now (place + k + self.now.at))) }
    {
        by_low(&self.nibbles.low, load(line, place + self.at))
    }

    // The same by bits.
    #[inline(always)]
    fn bit_tested(&self, line: &[u8], place: usize) -> u8x32
        requires { place + 32 + self.now.at ≤ length line.now }
        ensures { HasLanes result
            (λ k. mark_of self.now.alike (slice_index line.now (place + k + self.now.at))) }
    {
        self.alike.lanes(line, place + self.at)
    }
}

/// Four probes; some may be the same.
#[derive(Clone, Copy, Drop)]
pub struct Probes {
    /// The first, which the fewest bytes pass.
    pub first: Probe,
    /// The second.
    pub second: Probe,
    /// The third.
    pub third: Probe,
    /// The fourth.
    pub fourth: Probe,
}

impl Probes {
    /// The tests at the first four of these distances; `None` if there is none.
    pub fn of(runs: &[Vec<ByteSet>], width: usize, places: &[usize]) -> Option<Probes>
        requires { IsNoWider width (sets_of_each runs.now) }
        ensures { IfSome result (λ probes. AreProbesOf probes width (sets_of_each runs.now)) }
    {
        let first = Probe::of(runs, width, *places.first()?)?;
        let second = first.or_at(runs, width, places.get(1));
        let third = second.or_at(runs, width, places.get(2));
        let fourth = third.or_at(runs, width, places.get(3));
        Some(Probes {
            first,
            second,
            third,
            fourth,
        })
    }

    /// Goes on from `from` by 32 places until some of 32 are marked, or fewer than 32 are left
    /// before `past`. Returns where these 32 begin, and their marks.
    // The loop calls nothing, so the tables stay in registers.
    #[inline(never)]
    pub fn next_marks<const CHEAP: bool, const EACH: bool>(
        &self,
        line: &[u8],
        from: usize,
        past: usize,
    ) -> (usize, u64)
        requires some { from + 32 ≤ past }
        requires room { HaveRoom self.now line.now past }
        ensures on { (from ≤ result.0) × (result.0 + 32 ≤ past) }
        ensures passed { Nowhere (AllPass EACH self.now line.now) from result.0 }
        ensures each { (k : ℕ) → k < 32 → AllPass EACH self.now line.now (result.0 + k)
            → bit_at result.1 k ≡ 1 }
        ensures within { (k : ℕ) → bit_at result.1 k ≡ 1 → k < 32 }
    {
        let mut at = from;
        let mut marks = self.marks::<CHEAP, EACH>(line, at);
        'quiet: while marks == 0 && 64 <= past - at {
            at += 32;
            marks = self.marks::<CHEAP, EACH>(line, at);
        }
        (at, marks)
    }

    /// Bits that the bytes after the place have in all four tests: of several runs those have one
    /// that may be there.
    #[inline(always)]
    pub fn bits_at(&self, line: &[u8], place: usize) -> u8
        ensures { (runs : Runs) (width : ℕ) → 2 ≤ length runs → IsNoWider width runs →
            AreProbesOf self.now width runs → HaveBitsAt line.now place runs result }
    {
        self.first.bits_at(line, place)
            & self.second.bits_at(line, place)
            & self.third.bits_at(line, place)
            & self.fourth.bits_at(line, place)
    }

    // A mark for each of 32 places where the first two look-ups are passed, by one of several runs if
    // there are, `EACH`. Cheap tests are the first two of bits or, of several runs, all four of halves.
    #[inline(always)]
    fn marks<const CHEAP: bool, const EACH: bool>(&self, line: &[u8], place: usize) -> u64
        requires { HaveRoom self.now line.now (place + 32) }
        ensures each { (k : ℕ) → k < 32 → AllPass EACH self.now line.now (place + k)
            → bit_at result k ≡ 1 }
        ensures within { (k : ℕ) → bit_at result k ≡ 1 → k < 32 }
    {
        if EACH {
            return nonzero(self.common::<CHEAP>(line, place));
        }
        let first = &self.first;
        let second = &self.second;
        if CHEAP {
            let marks = both(
                first.bit_tested(line, place),
                second.bit_tested(line, place),
            );
            return nonzero(marks);
        }
        nonzero(lesser(first.looked_up(line, place), second.looked_up(line, place)))
    }

    // The bits that the first two look-ups have in common, or all four of halves.
    #[inline(always)]
    fn common<const HALVES: bool>(&self, line: &[u8], place: usize) -> u8x32
        requires { HaveRoom self.now line.now (place + 32) }
        ensures { (k : ℕ) → k < 32 → AllPass true self.now line.now (place + k) →
            slice_index result k ≢ 0 }
    {
        if !HALVES {
            let first = self.first.looked_up(line, place);
            return both(first, self.second.looked_up(line, place));
        }
        let first = self.first.half_looked_up(line, place);
        let second = self.second.half_looked_up(line, place);
        let third = self.third.half_looked_up(line, place);
        both(
            both(both(first, second), third),
            self.fourth.half_looked_up(line, place),
        )
    }

    /// The marks of those of 32 places where the third and the fourth look-up are passed, too. Of several
    /// runs, `EACH`, all are left.
    #[inline(always)]
    pub fn narrowed<const EACH: bool>(&self, line: &[u8], place: usize, marks: u64) -> u64
        requires { HaveRoom self.now line.now (place + 32) }
        ensures each { (k : ℕ) → k < 32 → bit_at marks k ≡ 1 →
            AllPass EACH self.now line.now (place + k) → bit_at result k ≡ 1 }
        ensures within { (k : ℕ) → bit_at result k ≡ 1 → bit_at marks k ≡ 1 }
    {
        if EACH {
            return marks;
        }
        let third = self.third.looked_up(line, place);
        marks & nonzero(lesser(third, self.fourth.looked_up(line, place)))
    }
}
