//! When it is worth while to look ahead in a block. No contract depends on it.

use std::cell::Cell;

// How many bytes count as a line.
const LINE: usize = 64;

// A look is worth while that passes so many bytes.
const WORTH: usize = 32;

// The most lines between two looks.
const MOST_REST: usize = 256;

/// When to look ahead, by how well earlier looks have paid. After a look that passed few bytes, one line
/// is searched without a look. Each further such look doubles the number of these lines, up to a limit.
/// One that passed more sets it back to one.
#[derive(Drop)]
pub struct ScanBackoff {
    rest: Cell<usize>,
    next_rest: Cell<usize>,
    // Whether the next line is searched by itself.
    is_alone: Cell<bool>,
}

impl ScanBackoff {
    /// No look was made yet.
    pub fn new() -> ScanBackoff {
        ScanBackoff {
            rest: Cell::new(0),
            next_rest: Cell::new(1),
            is_alone: Cell::new(false),
        }
    }

    /// Whether the next line begins with a look.
    #[inline(always)]
    pub fn should_scan(&self) -> bool {
        let rest = self.rest.get();
        if rest == 0 {
            return true;
        }
        self.rest.set(rest - 1);
        false
    }

    /// A block begins. Its first line is searched by itself, since each line may be matched.
    #[inline(always)]
    pub fn begin(&self) {
        self.is_alone.set(true);
    }

    /// How many bytes are walked over before the next look.
    #[inline(always)]
    pub fn walk(&self) -> usize {
        if self.is_alone.replace(false) {
            return 0;
        }
        self.rest.get().saturating_mul(LINE)
    }

    /// Notes a walk over so many bytes. After one over none, the next line is searched by itself.
    #[inline(always)]
    pub fn note_walk(&self, bytes: usize) {
        self.is_alone.set(bytes == 0);
        self.rest
            .set(self.rest.get().saturating_sub(bytes / LINE + 1));
    }

    /// Whether lines are searched without a look now.
    #[inline(always)]
    pub fn rests(&self) -> bool {
        self.rest.get() > 0
    }

    /// A look passed `bytes` bytes.
    #[inline(always)]
    pub fn note(&self, bytes: usize) {
        if bytes >= WORTH {
            self.next_rest.set(1);
            return;
        }
        let rest = self.next_rest.get();
        self.rest.set(rest);
        self.next_rest.set(rest.saturating_mul(2).min(MOST_REST));
    }
}
