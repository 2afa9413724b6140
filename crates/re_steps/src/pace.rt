//! When it is worth while to keep pairs, and to pass many bytes at once. No contract depends on it.

use re_auto::StateSet;

// How many bytes are stepped over before pairs are kept, so that making the table pays.
const WARM: usize = 256;

// How many lines are searched without keeping anything after the first search that gave up. The
// number doubles after each later one.
const REST: u32 = 1024;

// How many reused steps make up for one miss.
const BYTES_A_MISS: usize = 32;

// After this number of passes their mean length decides whether passing goes on; half of them count
// again.
const PASSES: u32 = 64;

// From this mean length on, passing bytes is quicker than reading their cells.
const WORTH_PASSING: usize = 16;

/// What is known of the searches so far.
#[derive(Drop)]
pub struct Pace {
    warm: usize,
    rest: u32,
    next_rest: u32,
    misses: usize,
    reused: usize,
    passes: u32,
    passed: usize,
    passing: bool,
}

impl Pace {
    /// Nothing is known yet.
    pub fn new() -> Pace {
        Pace {
            warm: 0,
            rest: 0,
            next_rest: REST,
            misses: 0,
            reused: 0,
            passes: 0,
            passed: 0,
            passing: true,
        }
    }

    /// Whether to begin to keep pairs with a line of this length.
    pub fn begins(&mut self, length: usize) -> bool {
        if self.rest > 0 {
            self.rest -= 1;
            return false;
        }
        self.warm = self.warm.saturating_add(length);
        self.warm >= WARM
    }

    /// Notes that the steps over this number of bytes were held.
    #[inline(always)]
    pub fn note_reused(&mut self, bytes: usize) {
        self.reused = self.reused.saturating_add(bytes);
    }

    /// Notes that one more pair was not held; it led to this set, and `most` pairs may be held.
    /// Returns whether keeping pairs goes on: it has to save enough steps, or the set has to be so
    /// large that a step costs more than keeping it.
    pub fn affords_miss(&mut self, most: usize, set: &StateSet) -> bool {
        self.misses = self.misses.saturating_add(1);
        if self.misses / 2 <= most {
            return true;
        }
        if !self.affords_anew(set) {
            return false;
        }
        self.count_anew();
        true
    }

    /// Whether all that is held is removed to make room for this set. A step from the set has to
    /// cost more than keeping it, or what is held has saved enough.
    pub fn affords_anew(&self, set: &StateSet) -> bool {
        if set.is_large() {
            return true;
        }
        self.pays()
    }

    /// Notes that a search gave up. If keeping pairs didn't pay, the next lines are searched
    /// without it.
    pub fn give_up(&mut self) {
        if !self.pays() {
            self.rest = self.next_rest;
            self.next_rest = self.next_rest.saturating_mul(2);
        }
        self.count_anew();
    }

    // Whether the reused steps make up for the misses.
    fn pays(&self) -> bool {
        self.reused / BYTES_A_MISS >= self.misses
    }

    // Resets the counts of misses and reused steps.
    fn count_anew(&mut self) {
        self.misses = 0;
        self.reused = 0;
    }

    /// Whether bytes that no stretch can begin with are passed many at once.
    pub fn passes(&self) -> bool {
        self.passing
    }

    /// Whether no byte was passed yet, or passing bytes doesn't pay.
    pub fn walks(&self) -> bool {
        self.passes == 0 || !self.passing
    }

    /// Notes that this number of bytes was passed.
    pub fn note_pass(&mut self, bytes: usize) {
        self.passes = self.passes.saturating_add(1);
        self.passed = self.passed.saturating_add(bytes);
        if self.passes >= PASSES {
            self.passing = self.passed / PASSES as usize >= WORTH_PASSING;
            self.passes /= 2;
            self.passed /= 2;
        }
    }
}
