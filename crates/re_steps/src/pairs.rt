//! Cells that show what a bounded cache holds.
ghost use Rattle.std.specs.Prelude.{◌≡◌, ℕ, ◌+◌, ◌<◌, ◌≤◌, ◌⊎◌, [], ◌++◌, IfOk, OnOk, OnErr};
ghost use Rattle.std.specs.{Prelude.{length, replicate, slice_index}, NonZero.non_zero_usize_get};
ghost use Rattle.re_steps.specs.Working.Pairs.{unknown, IsKeptOrLost, Mirrors};

use lru::LruCache;
use std::alloc::{AllocError, Global};
use std::marker::Model;
use std::num::NonZeroUsize;

/// The cell of what is not held.
pub const UNKNOWN: u32 = u32::MAX;

/// A bounded cache from the places of cells to their contents, and the cells, so that what is held
/// can be read without a look-up. Contracts see the cells, and the entries of the cache.
#[derive(Drop)]
pub struct Pairs {
    cells: Vec<u32>,
    entries: LruCache<u32, u32>,
}

impl Model for Pairs {
    ghost use Rattle.re_steps.specs.Working.Pairs.{Held, Mirrors};

    ghost Value = { Held };

    ghost view = { λ p.
        record { cells = p.cells.items; entries = p.entries.entries; most = p.entries.cap } };

    ghost invariant = { λ p. Mirrors p.entries.entries p.cells.items };
}

impl Pairs {
    /// No cells, and a cache for at most `most` of them.
    pub fn new(alloc: Global, most: NonZeroUsize) -> Result<Pairs, AllocError>
        ensures { IfOk result
            (λ p. p ≡ record { cells = []; entries = []; most = non_zero_usize_get most }) }
    {
        let entries = LruCache::sparse(alloc, most)?;
        Ok(Pairs {
            cells: Vec::new(alloc),
            entries,
        })
    }

    /// The cells.
    #[inline(always)]
    pub fn cells(&self) -> &[u32]
        ensures cells { result.now ≡ self.now.cells }
        ensures mirrors { Mirrors self.now.entries self.now.cells }
    {
        &self.cells
    }

    /// How many cells are held.
    pub fn held(&self) -> usize
        ensures held { result ≡ length self.now.entries }
        ensures few { result ≤ self.now.most }
    {
        self.entries.len()
    }

    /// How many may be held.
    pub fn most(&self) -> usize
        ensures { result ≡ self.now.most }
    {
        self.entries.cap().get()
    }

    /// Removes all cells.
    pub fn clear(&mut self)
        ensures { self.new ≡ record { cells = []; entries = []; most = self.old.most } }
    {
        self.entries.clear();
        self.cells.clear();
    }

    /// Adds `width` cells after the others; none of them is held.
    pub fn add_row(&mut self, width: usize) -> Result<(), AllocError>
        requires { width ≤ 256 }
        ensures added { OnOk result (self.new.cells ≡ self.old.cells ++ replicate width unknown) }
        ensures same { OnErr result (self.new.cells ≡ self.old.cells) }
        ensures held { (self.new.entries ≡ self.old.entries) × (self.new.most ≡ self.old.most) }
        ensures mirrors { Mirrors self.new.entries self.new.cells }
    {
        let blank = [UNKNOWN; 256];
        self.cells.extend_from_slice(&blank[..width])?;
        Ok(())
    }

    /// Holds a cell at its place, where nothing is held. The cell that was held longest may be
    /// removed for it. If an allocation fails, nothing changes.
    pub fn put(&mut self, at: u32, cell: u32)
        requires within { at < length self.old.cells }
        requires known { cell < unknown }
        requires none { slice_index self.old.cells at ≡ unknown }
        ensures len { length self.new.cells ≡ length self.old.cells }
        ensures here { (slice_index self.new.cells at ≡ cell) ⊎
            (slice_index self.new.cells at ≡ unknown) }
        ensures others { (k : ℕ) → (k ≡ at → ⊥) →
            IsKeptOrLost (slice_index self.old.cells k) (slice_index self.new.cells k) }
        ensures most { self.new.most ≡ self.old.most }
        ensures mirrors { Mirrors self.new.entries self.new.cells }
    {
        let _held = self.entries.len();
        match self.entries.push(at, cell) {
            Ok(Some((place, _))) => {
                self.cells[place as usize] = UNKNOWN;
                self.cells[at as usize] = cell;
            }
            Ok(None) => self.cells[at as usize] = cell,
            Err(_) => {}
        }
    }
}
